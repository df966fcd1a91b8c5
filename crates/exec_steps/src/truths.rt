//! Truths (C11 6.5.13, 6.5.14).
ghost use Rattle.std.specs.Prelude.{◌≡◌, ℕ, ◌+◌, ◌-◌, ◌*◌, IfOk, IfErr};
ghost use Rattle.hy_bits.specs.declared.width.Width.TheVariants.{W1, W32};
ghost use Rattle.word_nodes.specs.Nodes.{IsFull, IsOfOne, IsOfTwo, Stands};
ghost use Rattle.exec_values.specs.Makes.{HasWord};
ghost use Rattle.exec_steps.specs.Running.{IsRunning, OnlyGrows, TurnsBack};

use crate::running::Running;
use exec_expressions::of_truth;
use exec_values::WordValue;
use word_graph::{GraphFault, Node};
use word_nodes::{complement, conjunction, disjunction};

/// Whether both truths hold.
///
/// # Errors
///
/// `NodeLimit` where the graph is full, and `Memory`.
pub fn both(a: Node, b: Node, running: &mut Running, region: u32) -> Result<Node, GraphFault>
    requires first { Stands running.old.graph W1 a }
    requires second { Stands running.old.graph W1 b }
    ensures stands { IfOk result (Stands running.new.graph W1) }
    ensures value { IfOk result (IsOfTwo (λ x y. x * y) running.old.graph running.new.graph a b) }
    ensures grows { OnlyGrows region running.old running.new }
    ensures full { IfErr result (IsFull running.new.graph) }
{
    conjunction(&mut running.graph, a, b, region)
}

/// Whether one of two truths holds.
///
/// # Errors
///
/// `NodeLimit` where the graph is full, and `Memory`.
pub fn either(a: Node, b: Node, running: &mut Running, region: u32) -> Result<Node, GraphFault>
    requires first { Stands running.old.graph W1 a }
    requires second { Stands running.old.graph W1 b }
    ensures stands { IfOk result (Stands running.new.graph W1) }
    ensures value { IfOk result (IsOfTwo (λ x y. x + y - x * y) running.old.graph running.new.graph a b) }
    ensures grows { OnlyGrows region running.old running.new }
    ensures full { IfErr result (IsFull running.new.graph) }
{
    disjunction(&mut running.graph, a, b, region)
}

/// Whether a truth doesn't hold.
///
/// # Errors
///
/// `NodeLimit` where the graph is full, and `Memory`.
pub fn none(a: Node, running: &mut Running, region: u32) -> Result<Node, GraphFault>
    requires { Stands running.old.graph W1 a }
    ensures stands { IfOk result (Stands running.new.graph W1) }
    ensures value { IfOk result (IsOfOne (λ x. 1 - x) running.old.graph running.new.graph a) }
    ensures grows { OnlyGrows region running.old running.new }
    ensures full { IfErr result (IsFull running.new.graph) }
{
    complement(&mut running.graph, a, region)
}

/// A truth as an `int`.
///
/// # Errors
///
/// `NodeLimit` where the graph is full, and `Memory`.
pub fn truth_value(truth: Node, running: &mut Running, region: u32) -> Result<WordValue, GraphFault>
    requires running { IsRunning running.old }
    requires truth { Stands running.old.graph W1 truth }
    ensures stands { IfOk result (HasWord running.new.graph W32) }
    ensures follows { IfOk result (TurnsBack running.old running.new truth) }
    ensures grows { OnlyGrows region running.old running.new }
    ensures full { IfErr result (IsFull running.new.graph) }
{
    let word = of_truth(&mut running.graph, truth, region)?;
    Ok(WordValue::Word(word))
}
