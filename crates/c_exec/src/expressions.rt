//! Expressions under guards, from left to right (C11 6.5).
ghost use Rattle.std.specs.Prelude.{◌≡◌, ◌<◌, ◌∷◌, List, IfOk, IfErr, OnOk, map};
ghost use Rattle.hy_bits.specs.declared.width.Width.TheVariants.{W1};
ghost use Rattle.word_nodes.specs.Nodes.{Stands, IsFull};
ghost use Rattle.c_meaning.specs.Expressions as expressions;
ghost use Rattle.c_meaning.specs.ExpressionFolds.{evaluates, operand_evaluates};
ghost use Rattle.c_meaning.specs.Rules.{IsTypedExpr};
ghost use Rattle.c_meaning.specs.TypeRules.{type_of};
ghost use Rattle.exec_state.specs.Operands.{holding};
ghost use Rattle.exec_values.specs.Views.{ValueStands};
ghost use Rattle.exec_steps.specs.Running.{Continues, FollowsValue, IsRunning};
ghost use Rattle.c_exec.specs.Expressions.{AreTypedOperands, Completes, FollowsTruth, IsTypedOperand, ValueFits, left_of_all, scope_of, world_as};

use crate::world::World;
use c_meaning::{Conversion, LogicalOperand, TypedExpr};
use exec_steps::{Running, both, converted, negated, signed, tested, truth_value};
use exec_values::WordValue;
use word_graph::{GraphFault, Node};

/// The value of an expression, under the guard.
#[cycle(run)]
pub fn evaluate(
    world: &World,
    expr: &TypedExpr,
    guard: Node,
    running: &mut Running,
) -> Result<WordValue, GraphFault>
    requires typed { IsTypedExpr (scope_of world.now) expr.now }
    requires running { IsRunning running.old }
    requires guard { Stands running.old.graph W1 guard }
    requires region { world.now.region < world.now.regions }
    ensures stands { IfOk result (ValueStands running.new.graph) }
    ensures fits { IfOk result (ValueFits running.new.graph (type_of (scope_of world.now) expr.now)) }
    ensures follows { IfOk result (FollowsValue (evaluates (world_as world.now) expr.now) running.old running.new guard) }
    ensures continues { OnOk result (Continues world.now.regions running.old running.new) }
    ensures full { IfErr result (IsFull running.new.graph) }
{
    match expr {
        TypedExpr::Converted {
            conversion,
            operand,
        } => {
            let value = evaluate(world, operand.get(), guard, running)?;
            converted(world.alloc, *conversion, &value, running, world.region)
        }
        TypedExpr::Cast {
            from,
            to,
            operand,
            ..
        } => {
            let value = evaluate(world, operand.get(), guard, running)?;
            let conversion = Conversion::Integer {
                from: *from,
                to: *to,
            };
            converted(world.alloc, conversion, &value, running, world.region)
        }
        TypedExpr::Unary {
            place,
            operator,
            scalar,
            operand,
        } => {
            let value = evaluate(world, operand.get(), guard, running)?;
            signed(*place, *operator, *scalar, &value, running, world.region)
        }
        TypedExpr::Not { operand, .. } => {
            let value = evaluate(world, operand.get(), guard, running)?;
            negated(&value, running, world.region)
        }
        TypedExpr::LogicalAnd { first, rest } => {
            let truth = all_hold(world, first.get(), rest.as_slice(), guard, running)?;
            truth_value(truth, running, world.region)
        }
        _ => Err(GraphFault::Memory),
    }
}

/// Whether the value of an expression holds, under the guard.
#[cycle(run)]
fn condition(
    world: &World,
    expr: &TypedExpr,
    guard: Node,
    running: &mut Running,
) -> Result<Node, GraphFault>
    requires typed { IsTypedExpr (scope_of world.now) expr.now }
    requires running { IsRunning running.old }
    requires guard { Stands running.old.graph W1 guard }
    requires region { world.now.region < world.now.regions }
    ensures stands { IfOk result (Stands running.new.graph W1) }
    ensures follows { IfOk result (FollowsTruth (holding (evaluates (world_as world.now) expr.now)) running.old running.new guard) }
    ensures continues { OnOk result (Continues world.now.regions running.old running.new) }
    ensures full { IfErr result (IsFull running.new.graph) }
{
    let value = evaluate(world, expr, guard, running)?;
    tested(&value, running, world.region)
}

/// Whether all operands hold, each evaluated under the guard where those before it hold.
#[cycle(run)]
fn all_hold(
    world: &World,
    first: &TypedExpr,
    rest: &[LogicalOperand],
    guard: Node,
    running: &mut Running,
) -> Result<Node, GraphFault>
    requires typed { IsTypedExpr (scope_of world.now) first.now }
    requires operands { AreTypedOperands (scope_of world.now) rest.now }
    requires running { IsRunning running.old }
    requires guard { Stands running.old.graph W1 guard }
    requires region { world.now.region < world.now.regions }
    ensures stands { IfOk result (Stands running.new.graph W1) }
    ensures follows { IfOk result (FollowsTruth (expressions.all_hold (evaluates (world_as world.now) first.now ∷ map (operand_evaluates (world_as world.now)) rest.now)) running.old running.new guard) }
    ensures continues { OnOk result (Continues world.now.regions running.old running.new) }
    ensures full { IfErr result (IsFull running.new.graph) }
{
    let mut all = condition(world, first, guard, running)?;
    for operand in rest {
        all = both_hold(world, operand, all, guard, running)?;
    }
    // For the proof: this is a graph.
    let _entries = running.graph.entries();
    Ok(all)
}

/// Whether an operand and those before it hold, evaluated under the guard where those before it hold.
#[cycle(run)]
fn both_hold(
    world: &World,
    operand: &LogicalOperand,
    before: Node,
    guard: Node,
    running: &mut Running,
) -> Result<Node, GraphFault>
    requires typed { IsTypedOperand (scope_of world.now) operand.now }
    requires running { IsRunning running.old }
    requires before { Stands running.old.graph W1 before }
    requires guard { Stands running.old.graph W1 guard }
    requires region { world.now.region < world.now.regions }
    ensures stands { IfOk result (Stands running.new.graph W1) }
    ensures follows { IfOk result (λ n. (operands : List expressions.Eval) → Completes running.old running.new guard (left_of_all running.new n operands) (left_of_all running.old before (operand_evaluates (world_as world.now) operand.now ∷ operands))) }
    ensures continues { OnOk result (Continues world.now.regions running.old running.new) }
    ensures full { IfErr result (IsFull running.new.graph) }
{
    // For the proof: this is a graph.
    let _entries = running.graph.entries();
    let under = both(guard, before, running, world.region)?;
    let holds = condition(world, &operand.operand, under, running)?;
    both(before, holds, running, world.region)
}
