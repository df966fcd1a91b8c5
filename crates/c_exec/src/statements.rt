//! Statements under guards (C11 6.8): each is left by one of four ways, whose guards it gives.
ghost use Rattle.std.specs.Prelude.{◌≡◌, ℕ, ◌<◌, ◌∷◌, List, IfOk, IfErr, OnOk, map};
ghost use Rattle.std.specs.List.{All};
ghost use Rattle.hy_bits.specs.declared.width.Width.TheVariants.{W1};
ghost use Rattle.word_graph.specs.Meaning.{InputsFit};
ghost use Rattle.word_nodes.specs.Nodes.{Stands, IsFull, worth};
ghost use Rattle.c_meaning.specs.Statements as statements;
ghost use Rattle.c_meaning.specs.StatementFolds.{item_runs, runs};
ghost use Rattle.exec_state.specs.Leave.{exit_normal};
ghost use Rattle.exec_steps.specs.Running.{Continues, IsRunning, OnlyGrows};
ghost use Rattle.exec_steps.specs.Ways.{FollowsRun, LeadsOut, WaysStand, exits_at};
ghost use Rattle.c_exec.specs.Expressions.{world_as};
ghost use Rattle.c_exec.specs.Statements.{IsTypedItem, IsTypedStatement};

use crate::world::World;
use c_meaning::{TypedItem, TypedStatement};
use exec_steps::{Running, Ways, never, ways_then};
use word_graph::{GraphFault, Node};

/// Executes a statement, under the guard.
#[cycle(walk)]
pub fn execute_statement(
    world: &World,
    statement: &TypedStatement,
    guard: Node,
    running: &mut Running,
) -> Result<Ways, GraphFault>
    requires typed { IsTypedStatement world.now statement.now }
    requires running { IsRunning running.old }
    requires guard { Stands running.old.graph W1 guard }
    requires region { world.now.region < world.now.regions }
    ensures stands { IfOk result (WaysStand running.new.graph) }
    ensures follows { IfOk result (FollowsRun (runs (world_as world.now) statement.now) running.old running.new guard) }
    ensures continues { OnOk result (Continues world.now.regions running.old running.new) }
    ensures full { IfErr result (IsFull running.new.graph) }
{
    match statement {
        TypedStatement::Block(block) => {
            let items = block.get().items.as_slice();
            execute_items(world, items, guard, running)
        }
        TypedStatement::Empty => normal_way(guard, running, world.region),
        _ => Err(GraphFault::Memory),
    }
}

/// The way of what ends normally, under the guard.
///
/// # Errors
///
/// `NodeLimit` where the graph is full, and `Memory`.
fn normal_way(guard: Node, running: &mut Running, region: u32) -> Result<Ways, GraphFault>
    requires guard { Stands running.old.graph W1 guard }
    ensures stands { IfOk result (WaysStand running.new.graph) }
    ensures value { IfOk result (λ w. (ins : List ℕ) → InputsFit running.old.graph ins → exits_at running.new.graph ins w ≡ exit_normal (worth running.old.graph ins guard)) }
    ensures grows { OnlyGrows region running.old running.new }
    ensures full { IfErr result (IsFull running.new.graph) }
{
    let none = never(running, region)?;
    Ok(Ways {
        normal: guard,
        breaks: none,
        continues: none,
        returns: none,
    })
}

/// Executes the items of a block, each under the guard of the normal end of those before it.
#[cycle(walk)]
fn execute_items(
    world: &World,
    items: &[TypedItem],
    guard: Node,
    running: &mut Running,
) -> Result<Ways, GraphFault>
    requires typed { All (IsTypedItem world.now) items.now }
    requires running { IsRunning running.old }
    requires guard { Stands running.old.graph W1 guard }
    requires region { world.now.region < world.now.regions }
    ensures stands { IfOk result (WaysStand running.new.graph) }
    ensures follows { IfOk result (FollowsRun (statements.in_order (map (λ item. (item_runs (world_as world.now) item).run) items.now)) running.old running.new guard) }
    ensures continues { OnOk result (Continues world.now.regions running.old running.new) }
    ensures full { IfErr result (IsFull running.new.graph) }
{
    let mut ways = normal_way(guard, running, world.region)?;
    for item in items {
        ways = item_then(world, item, ways, running)?;
    }
    Ok(ways)
}

/// Executes an item after those that were left by the ways `before`.
#[cycle(walk)]
fn item_then(
    world: &World,
    item: &TypedItem,
    before: Ways,
    running: &mut Running,
) -> Result<Ways, GraphFault>
    requires typed { IsTypedItem world.now item.now }
    requires running { IsRunning running.old }
    requires before { WaysStand running.old.graph before }
    requires region { world.now.region < world.now.regions }
    ensures stands { IfOk result (WaysStand running.new.graph) }
    ensures follows { IfOk result (λ w. (start : Running) (guard : Node) (rest : List statements.Exec) (whole : statements.Exec) → Continues world.now.regions start running.old → LeadsOut start running.old guard before (statements.in_order ((item_runs (world_as world.now) item.now).run ∷ rest)) whole → LeadsOut start running.new guard w (statements.in_order rest) whole) }
    ensures continues { OnOk result (Continues world.now.regions running.old running.new) }
    ensures full { IfErr result (IsFull running.new.graph) }
{
    // For the proof: this is a graph.
    let _entries = running.graph.entries();
    let next = execute_item(world, item, before.normal, running)?;
    ways_then(before, next, running, world.region)
}

/// Executes an item of a block, under the guard.
#[cycle(walk)]
fn execute_item(
    world: &World,
    item: &TypedItem,
    guard: Node,
    running: &mut Running,
) -> Result<Ways, GraphFault>
    requires typed { IsTypedItem world.now item.now }
    requires running { IsRunning running.old }
    requires guard { Stands running.old.graph W1 guard }
    requires region { world.now.region < world.now.regions }
    ensures stands { IfOk result (WaysStand running.new.graph) }
    ensures follows { IfOk result (FollowsRun (item_runs (world_as world.now) item.now).run running.old running.new guard) }
    ensures continues { OnOk result (Continues world.now.regions running.old running.new) }
    ensures full { IfErr result (IsFull running.new.graph) }
{
    match item {
        TypedItem::Statement(statement) => execute_statement(world, statement, guard, running),
        TypedItem::Object(_) => Err(GraphFault::Memory),
    }
}
