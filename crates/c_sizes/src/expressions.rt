//! The sizes of expressions and lvalues, each part of them counted once. `counters` are the objects that count the loops around.

ghost use Rattle.std.specs.Prelude.{◌≡◌, ◌&&◌, true, false, if◌then◌else◌, None, map};
ghost use Rattle.std.specs.List.{list_all};
ghost use Rattle.c_meaning.specs.Sizes as sizes;
ghost use Rattle.c_meaning.specs.SizeFolds.{size_of_expr, size_of_lvalue, effect_size};
ghost use Rattle.c_sizes.specs.Totals.{totals_of, joined};
ghost use Rattle.c_sizes.specs.Views.{measure_as, kinds_as, IsKept, size_of_step, size_of_operand};

use crate::measure::{
    Around, Located, Measured, access, branch, function_size, integer_gates, is_array, is_steady,
    moved_size, not_cost, operation_cost, parameters, sign_gates, whole_parameter,
};
use crate::totals::{Totals, gates_alone, nothing, plus, times};
use c_meaning::{ChainStep, LogicalOperand, Lvalue, TypedEffect, TypedExpr};

/// Whether the object is among the counters.
fn is_among(object: u32, counters: &[u32]) -> bool
    ensures { result ≡ sizes.is_among object counters.now }
{
    counters.iter().any(|counter| object == *counter)
}

/// An operand with what its operator costs.
fn with_cost(operand: Measured, cost: Totals) -> Measured
    ensures total { result.total ≡ joined operand.total cost }
    ensures number { result.is_number ≡ operand.is_number }
    ensures row { result.is_row ≡ false }
{
    Measured {
        total: plus(operand.total, cost),
        is_number: operand.is_number,
        is_row: false,
    }
}

/// Two operands together.
fn both(first: Measured, second: Measured) -> Measured
    ensures total { result.total ≡ joined first.total second.total }
    ensures number { result.is_number ≡ (first.is_number && second.is_number) }
    ensures row { result.is_row ≡ false }
{
    Measured {
        total: plus(first.total, second.total),
        is_number: first.is_number && second.is_number,
        is_row: false,
    }
}

/// What is neither a number nor an array.
fn plain(total: Totals) -> Measured
    ensures total { result.total ≡ total }
    ensures number { result.is_number ≡ false }
    ensures row { result.is_row ≡ false }
{
    Measured {
        total,
        is_number: false,
        is_row: false,
    }
}

/// A constant, or no operands.
fn constant() -> Measured
    ensures total { result.total ≡ totals_of sizes.nothing }
    ensures number { result.is_number ≡ true }
    ensures row { result.is_row ≡ false }
{
    Measured {
        total: nothing(),
        is_number: true,
        is_row: false,
    }
}

/// Whether a name is that of a counter.
fn names_counter(named: Option<u32>, counters: &[u32]) -> bool
    ensures { result ≡ sizes.names (λ k. sizes.is_among k counters.now) named }
{
    match named {
        Some(object) => is_among(object, counters),
        None => false,
    }
}

/// Whether a name is that of a parameter that always points to the first element of its array.
fn names_steady(m: &Around, named: Option<u32>) -> bool
    requires { IsKept m.now }
    ensures { result ≡ sizes.names (measure_as m.now).is_steady named }
{
    match named {
        Some(object) => is_steady(m, object),
        None => false,
    }
}

/// The size of an lvalue, with the object that it names and whether it is fixed.
#[cycle(expressions)]
#[tactic(auto, using(crate::proofs::Saturation::joined_totals))]
pub fn locate(m: &Around, lvalue: &Lvalue, counters: &[u32]) -> Located
    requires { IsKept m.now }
    ensures named { result.named ≡ (size_of_lvalue (measure_as m.now) lvalue.now).named }
    ensures fixed { result.is_fixed ≡ (size_of_lvalue (measure_as m.now) lvalue.now).is_fixed counters.now }
    ensures total { result.total ≡ totals_of ((size_of_lvalue (measure_as m.now) lvalue.now).size counters.now) }
{
    match lvalue {
        Lvalue::Object { object, .. } => Located {
            named: Some(*object),
            is_fixed: is_array(m, *object),
            total: nothing(),
        },
        Lvalue::Indirection { pointer, .. } => Located {
            named: None,
            is_fixed: false,
            total: plus(measure(m, pointer.get(), counters).total, access(m)),
        },
        Lvalue::Subscript { pointer, index, .. } => {
            let pointer = measure(m, pointer.get(), counters);
            let index = measure(m, index.get(), counters);
            subscript(m, pointer, index)
        }
        Lvalue::Member { of, .. } => {
            let of = locate(m, of.get(), counters);
            Located {
                named: None,
                is_fixed: of.is_fixed,
                total: of.total,
            }
        }
        Lvalue::Arrow { pointer, .. } => Located {
            named: None,
            is_fixed: false,
            total: plus(measure(m, pointer.get(), counters).total, access(m)),
        },
    }
}

/// The size of an expression, with whether it is a number and whether it points to the first element of a fixed array.
#[cycle(expressions)]
#[tactic(auto, using(crate::proofs::Saturation::joined_totals, crate::proofs::Saturation::operands_joined))]
pub fn measure(m: &Around, expr: &TypedExpr, counters: &[u32]) -> Measured
    requires { IsKept m.now }
    ensures total { result.total ≡ totals_of ((size_of_expr (measure_as m.now) expr.now).size counters.now) }
    ensures number { result.is_number ≡ (size_of_expr (measure_as m.now) expr.now).is_number counters.now }
    ensures row { result.is_row ≡ (size_of_expr (measure_as m.now) expr.now).is_row counters.now }
{
    match expr {
        TypedExpr::Constant { .. } => constant(),
        TypedExpr::Load { from, .. } => {
            let from = locate(m, from.get(), counters);
            Measured {
                total: from.total,
                is_number: names_counter(from.named, counters),
                is_row: names_steady(m, from.named),
            }
        }
        TypedExpr::Decay { from, .. } => {
            let from = locate(m, from.get(), counters);
            Measured {
                total: from.total,
                is_number: false,
                is_row: from.is_fixed,
            }
        }
        TypedExpr::Address { of, .. } => plain(locate(m, of.get(), counters).total),
        TypedExpr::Converted { operand, .. } => {
            with_cost(measure(m, operand.get(), counters), nothing())
        }
        TypedExpr::Cast { operand, .. } => with_cost(
            measure(m, operand.get(), counters),
            nothing(),
        ),
        TypedExpr::Unary {
            operator,
            scalar,
            operand,
            ..
        } => {
            let cost = gates_alone(sign_gates(*operator, scalar.width()));
            with_cost(measure(m, operand.get(), counters), cost)
        }
        TypedExpr::Not { kind, operand, .. } => {
            with_cost(measure(m, operand.get(), counters), not_cost(*kind))
        }
        TypedExpr::Chain { first, steps } => {
            let first = measure(m, first.get(), counters);
            both(first, steps_measured(m, steps.as_slice(), counters))
        }
        TypedExpr::LogicalAnd { first, rest } => {
            let first = measure(m, first.get(), counters);
            both(first, operands_measured(m, rest.as_slice(), counters))
        }
        TypedExpr::LogicalOr { first, rest } => {
            let first = measure(m, first.get(), counters);
            both(first, operands_measured(m, rest.as_slice(), counters))
        }
        TypedExpr::Conditional {
            condition,
            kind,
            second,
            third,
            ..
        } => {
            let condition = measure(m, condition.get(), counters);
            let second = measure(m, second.get(), counters);
            let third = measure(m, third.get(), counters);
            conditional(condition, second, third, moved_size(m, *kind))
        }
        TypedExpr::Call {
            function,
            arguments,
            ..
        } => {
            let called = plus(branch(m), function_size(m, *function));
            let params = parameters(m, *function);
            plain(plus(
                called,
                arguments_size(m, params, arguments.as_slice(), counters),
            ))
        }
    }
}

/// The size of steps of a chain together.
#[cycle(expressions)]
fn steps_measured(m: &Around, steps: &[ChainStep], counters: &[u32]) -> Measured
    requires { IsKept m.now }
    ensures total { result.total ≡ totals_of (sizes.total (map (λ (e : sizes.ExprSize). e.size counters.now) (map (size_of_step (measure_as m.now)) steps.now))) }
    ensures number { result.is_number ≡ list_all (λ (e : sizes.ExprSize). e.is_number counters.now) (map (size_of_step (measure_as m.now)) steps.now) }
{
    let mut all = constant();
    for step in steps {
        all = both(all, step_measured(m, step, counters));
    }
    all
}

/// The size of a step of a chain, with its operator.
#[cycle(expressions)]
#[tactic(auto, using(crate::proofs::Saturation::joined_totals))]
fn step_measured(m: &Around, step: &ChainStep, counters: &[u32]) -> Measured
    requires { IsKept m.now }
    ensures total { result.total ≡ totals_of ((size_of_step (measure_as m.now) step.now).size counters.now) }
    ensures number { result.is_number ≡ (size_of_step (measure_as m.now) step.now).is_number counters.now }
{
    with_cost(
        measure(m, &step.right, counters),
        operation_cost(m, step.operation),
    )
}

/// The size of operands of `&&` or `||` together.
#[cycle(expressions)]
fn operands_measured(m: &Around, operands: &[LogicalOperand], counters: &[u32]) -> Measured
    requires { IsKept m.now }
    ensures total { result.total ≡ totals_of (sizes.total (map (λ (e : sizes.ExprSize). e.size counters.now) (map (size_of_operand (measure_as m.now)) operands.now))) }
    ensures number { result.is_number ≡ list_all (λ (e : sizes.ExprSize). e.is_number counters.now) (map (size_of_operand (measure_as m.now)) operands.now) }
{
    let mut all = constant();
    for operand in operands {
        all = both(all, operand_measured(m, operand, counters));
    }
    all
}

/// The size of an operand of `&&` or `||`.
#[cycle(expressions)]
fn operand_measured(m: &Around, operand: &LogicalOperand, counters: &[u32]) -> Measured
    requires { IsKept m.now }
    ensures total { result.total ≡ totals_of ((size_of_operand (measure_as m.now) operand.now).size counters.now) }
    ensures number { result.is_number ≡ (size_of_operand (measure_as m.now) operand.now).is_number counters.now }
{
    measure(m, &operand.operand, counters)
}

/// The size of arguments for parameters.
#[cycle(expressions)]
fn arguments_size(m: &Around, params: &[u32], arguments: &[TypedExpr], counters: &[u32]) -> Totals
    requires { IsKept m.now }
    ensures { result ≡ totals_of (sizes.arguments_size (measure_as m.now) (map (kinds_as m.now) params.now) (map (size_of_expr (measure_as m.now)) arguments.now) counters.now) }
{
    let mut total = nothing();
    for (number, argument) in arguments.iter().enumerate() {
        let value = measure(m, argument, counters).total;
        total = plus(total, plus(value, whole_parameter(m, params, number)));
    }
    total
}

/// An element by a pointer and an index.
#[tactic(auto, using(crate::proofs::Saturation::joined_totals))]
fn subscript(m: &Around, pointer: Measured, index: Measured) -> Located
    ensures named { result.named ≡ None }
    ensures fixed { result.is_fixed ≡ (index.is_number && pointer.is_row) }
    ensures total { result.total ≡ joined (joined pointer.total index.total) (totals_of (if index.is_number && pointer.is_row then sizes.nothing else sizes.access (measure_as m.now))) }
{
    let is_fixed = index.is_number && pointer.is_row;
    let cost = if is_fixed { nothing() } else { access(m) };
    Located {
        named: None,
        is_fixed,
        total: plus(plus(pointer.total, index.total), cost),
    }
}

/// The three parts of `?:`, and what it costs itself.
fn conditional(condition: Measured, second: Measured, third: Measured, cost: Totals) -> Measured
    ensures total { result.total ≡ joined (joined condition.total (joined second.total third.total)) cost }
    ensures number { result.is_number ≡ (condition.is_number && (second.is_number && third.is_number)) }
    ensures row { result.is_row ≡ false }
{
    with_cost(both(condition, both(second, third)), cost)
}

/// The size of an expression statement's expression.
#[tactic(auto, using(crate::proofs::Saturation::joined_totals, crate::proofs::Saturation::repeated_totals))]
pub fn effect_size(m: &Around, effect: &TypedEffect, counters: &[u32]) -> Totals
    requires { IsKept m.now }
    ensures { result ≡ totals_of (effect_size (measure_as m.now) effect.now counters.now) }
{
    match effect {
        TypedEffect::Assignment {
            target,
            kind,
            value,
            ..
        } => {
            let sides = plus(
                locate(m, target, counters).total,
                measure(m, value, counters).total,
            );
            plus(sides, moved_size(m, *kind))
        }
        TypedEffect::Compound {
            target,
            operation,
            value,
            ..
        } => {
            let sides = plus(
                locate(m, target, counters).total,
                measure(m, value, counters).total,
            );
            plus(sides, gates_alone(integer_gates(*operation)))
        }
        TypedEffect::Advance { target, value, .. } => {
            let sides = plus(
                locate(m, target, counters).total,
                measure(m, value, counters).total,
            );
            plus(sides, times(2, access(m)))
        }
        TypedEffect::Call(call) => measure(m, call, counters).total,
    }
}
