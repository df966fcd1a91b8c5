//! The ways to leave a statement, each with its guard (C11 6.8).
ghost use Rattle.std.specs.Prelude.{◌≡◌, ℕ, List, IfOk, IfErr};
ghost use Rattle.hy_bits.specs.declared.width.Width.TheVariants.{W1};
ghost use Rattle.word_graph.specs.Meaning.{InputsFit};
ghost use Rattle.word_nodes.specs.Nodes.{IsFull, Stands, worth};
ghost use Rattle.exec_state.specs.Leave.{exit_normal, exits_either, exits_then};
ghost use Rattle.exec_steps.specs.Running.{OnlyGrows};
ghost use Rattle.exec_steps.specs.Ways.{WaysStand, exits_at};

use crate::running::Running;
use crate::truths::either;
use hy_bits::Width;
use word_graph::{GraphFault, Node};
use word_nodes::constant;

/// A guard for each way to leave a statement: by its end, by `break`, by `continue` and by `return`.
#[derive(Clone, Copy, Debug, PartialEq, Eq)]
pub struct Ways {
    pub normal: Node,
    pub breaks: Node,
    pub continues: Node,
    pub returns: Node,
}

/// A truth that doesn't hold.
///
/// # Errors
///
/// `NodeLimit` where the graph is full, and `Memory`.
pub fn never(running: &mut Running, region: u32) -> Result<Node, GraphFault>
    ensures stands { IfOk result (Stands running.new.graph W1) }
    ensures value { IfOk result (λ n. (ins : List ℕ) → InputsFit running.old.graph ins → worth running.new.graph ins n ≡ 0) }
    ensures grows { OnlyGrows region running.old running.new }
    ensures full { IfErr result (IsFull running.new.graph) }
{
    constant(&mut running.graph, Width::W1, 0)
}

/// The ways of the first statement and of the one that was executed under its normal end.
///
/// # Errors
///
/// `NodeLimit` where the graph is full, and `Memory`.
pub fn ways_then(
    first: Ways,
    next: Ways,
    running: &mut Running,
    region: u32,
) -> Result<Ways, GraphFault>
    requires first { WaysStand running.old.graph first }
    requires next { WaysStand running.old.graph next }
    ensures stands { IfOk result (WaysStand running.new.graph) }
    ensures value { IfOk result (λ w. (ins : List ℕ) → InputsFit running.old.graph ins → exits_at running.new.graph ins w ≡ exits_then (exits_at running.old.graph ins first) (exits_at running.old.graph ins next)) }
    ensures grows { OnlyGrows region running.old running.new }
    ensures full { IfErr result (IsFull running.new.graph) }
{
    let breaks = either(first.breaks, next.breaks, running, region)?;
    let continues = either(first.continues, next.continues, running, region)?;
    let returns = either(first.returns, next.returns, running, region)?;
    Ok(Ways {
        normal: next.normal,
        breaks,
        continues,
        returns,
    })
}

/// The ways of two statements of which one runs.
///
/// # Errors
///
/// `NodeLimit` where the graph is full, and `Memory`.
pub fn ways_either(
    first: Ways,
    second: Ways,
    running: &mut Running,
    region: u32,
) -> Result<Ways, GraphFault>
    requires first { WaysStand running.old.graph first }
    requires second { WaysStand running.old.graph second }
    ensures stands { IfOk result (WaysStand running.new.graph) }
    ensures value { IfOk result (λ w. (ins : List ℕ) → InputsFit running.old.graph ins → exits_at running.new.graph ins w ≡ exits_either (exits_at running.old.graph ins first) (exits_at running.old.graph ins second)) }
    ensures grows { OnlyGrows region running.old running.new }
    ensures full { IfErr result (IsFull running.new.graph) }
{
    let jumps = ways_then(first, second, running, region)?;
    let normal = either(first.normal, second.normal, running, region)?;
    Ok(Ways {
        normal,
        breaks: jumps.breaks,
        continues: jumps.continues,
        returns: jumps.returns,
    })
}
