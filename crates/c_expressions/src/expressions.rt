//! Expressions, from left to right (C11 6.5).

ghost use Rattle.std.specs.Prelude.{◌≡◌, map};
ghost use Rattle.c_typing.specs.Walks.{Tells, along, each};
ghost use Rattle.c_typing.specs.Expressions as rules;
ghost use Rattle.c_expressions.specs.Typing as spec;

use crate::types::specifiers;
use c_conversions::{TypeFault, TypeKind};
use c_meaning::ArithmeticSign;
use c_tree::{Expr, Identifier, Operand, Place, Suffix, UnaryOperator};
use c_typing::{
    Environment, Form, Left, TypedValue, Typing, address_typing, arrow_typing, calls, cast_from,
    choose, combine, entity, indirection_typing, is_recursive, literal_typing, member_typing,
    name_typing, not_typing, sign_typing, subscript, value,
};
use std::alloc::Global;
use std::collections::VecDeque;

/// What an expression is.
///
/// # Errors
///
/// The first rule that is broken, at its place, or memory ran out. What is declared is then no longer of use.
#[cycle(typing)]
pub fn expression(alloc: Global, env: &mut Environment, expr: &Expr) -> Result<Typing, TypeFault>
    ensures { Tells result env.new ((spec.types_expr expr.now).walk env.old) }
{
    match expr {
        Expr::Name(name) => name_typing(alloc, env, name),
        Expr::Literal(place, literal) => Ok(literal_typing(*place, *literal)),
        Expr::Call {
            function,
            bracket,
            arguments,
        } => call(alloc, env, function, *bracket, arguments.as_slice()),
        Expr::Parenthesized(_, inner) => expression(alloc, env, inner.get()),
        Expr::Postfix(first, suffixes) => {
            let base = expression(alloc, env, first.get())?;
            along_suffixes(alloc, env, suffixes.as_slice(), base)
        }
        Expr::Unary {
            place,
            operator,
            operand,
        } => unary(alloc, env, *place, *operator, operand.get()),
        Expr::Cast {
            place,
            specs,
            operand,
        } => {
            let target = specifiers(alloc, env, specs.get())?;
            let value = value_of(alloc, env, operand.get())?;
            cast_from(alloc, env, *place, &target.ctype, value)
        }
        Expr::BinaryChain(first, operands) => {
            let first = expression(alloc, env, first.get())?;
            chain(alloc, env, operands.as_slice(), first)
        }
        Expr::Conditional {
            condition,
            place,
            second,
            third,
        } => {
            let condition = value_of(alloc, env, condition.get())?;
            let second = value_of(alloc, env, second.get())?;
            let third = value_of(alloc, env, third.get())?;
            choose(alloc, env, *place, condition, second, third)
        }
    }
}

/// The value of an expression.
///
/// # Errors
///
/// As of [`expression`].
#[cycle(typing)]
pub fn value_of(alloc: Global, env: &mut Environment, expr: &Expr) -> Result<TypedValue, TypeFault>
    ensures { Tells result env.new (rules.valued (spec.types_expr expr.now) env.old) }
{
    let typing = expression(alloc, env, expr)?;
    Ok(value(alloc, env.structs.as_slice(), typing)?)
}

/// Subscripts and members after an expression.
#[cycle(typing)]
fn along_suffixes(
    alloc: Global,
    env: &mut Environment,
    suffixes: &[Suffix],
    base: Typing,
) -> Result<Typing, TypeFault>
    ensures { Tells result env.new (along (map spec.types_suffix suffixes.now) base env.old) }
{
    let mut typing = base;
    for next in suffixes {
        typing = suffix(alloc, env, next, typing)?;
    }
    Ok(typing)
}

/// A subscript or a member after an expression.
#[cycle(typing)]
fn suffix(
    alloc: Global,
    env: &mut Environment,
    next: &Suffix,
    base: Typing,
) -> Result<Typing, TypeFault>
    ensures { Tells result env.new (spec.types_suffix next.now base env.old) }
{
    match next {
        Suffix::Index(place, index) => {
            let index = value_of(alloc, env, index)?;
            let pointer = value(alloc, env.structs.as_slice(), base)?;
            subscript(alloc, env, *place, pointer, index)
        }
        Suffix::Member(place, name) => member_typing(alloc, env, *place, name, base),
        Suffix::Arrow(place, name) => arrow_typing(alloc, env, *place, name, base),
    }
}

/// A unary operator.
#[cycle(typing)]
fn unary(
    alloc: Global,
    env: &mut Environment,
    place: Place,
    operator: UnaryOperator,
    operand: &Expr,
) -> Result<Typing, TypeFault>
    ensures { Tells result env.new (rules.unary_typing place operator (spec.types_expr operand.now) env.old) }
{
    if operator == UnaryOperator::Address {
        let operand = expression(alloc, env, operand)?;
        return address_typing(alloc, env, place, operand);
    }
    let value = value_of(alloc, env, operand)?;
    match operator {
        UnaryOperator::Plus => sign_typing(alloc, env, place, ArithmeticSign::Plus, value),
        UnaryOperator::Minus => sign_typing(alloc, env, place, ArithmeticSign::Minus, value),
        UnaryOperator::Complement => {
            sign_typing(alloc, env, place, ArithmeticSign::Complement, value)
        }
        UnaryOperator::Not => not_typing(alloc, env, place, value),
        _ => indirection_typing(alloc, env, place, value),
    }
}

/// Operands of one level of binary operators after the first.
#[cycle(typing)]
fn chain(
    alloc: Global,
    env: &mut Environment,
    operands: &[Operand],
    first: Typing,
) -> Result<Typing, TypeFault>
    ensures { Tells result env.new (spec.chained first (map spec.types_operand operands.now) env.old) }
{
    let mut left = Left {
        value: value(alloc, env.structs.as_slice(), first)?,
        form: Form::Operand,
    };
    for next in operands {
        left = operand(alloc, env, next, left)?;
    }
    Ok(Typing::Gives(left.value))
}

/// An operand with the operator before it.
#[cycle(typing)]
fn operand(
    alloc: Global,
    env: &mut Environment,
    next: &Operand,
    left: Left,
) -> Result<Left, TypeFault>
    ensures { Tells result env.new (spec.types_operand next.now left env.old) }
{
    let right = value_of(alloc, env, &next.value)?;
    combine(alloc, env, next.place, next.operator, left, right)
}

/// A call.
#[cycle(typing)]
fn call(
    alloc: Global,
    env: &mut Environment,
    name: &Identifier,
    bracket: Place,
    arguments: &[Expr],
) -> Result<Typing, TypeFault>
    ensures { Tells result env.new (rules.call_typing name.now bracket (map spec.types_expr arguments.now) env.old) }
{
    let Some(found) = entity(env, name.text.as_bytes()) else {
        return Err(TypeFault::new(TypeKind::Unknown, name.place));
    };
    if is_recursive(env, found) {
        return Err(TypeFault::new(TypeKind::Recursion, name.place));
    }
    let values = each_value(alloc, env, arguments)?;
    calls(alloc, env, name.place, bracket, found, values)
}

/// The values of arguments.
#[cycle(typing)]
fn each_value(
    alloc: Global,
    env: &mut Environment,
    arguments: &[Expr],
) -> Result<VecDeque<TypedValue>, TypeFault>
    ensures { Tells (spec.items_of result) env.new (each (map rules.valued (map spec.types_expr arguments.now)) env.old) }
{
    let mut values = VecDeque::new(alloc);
    for argument in arguments {
        values.push_back(value_of(alloc, env, argument)?)?;
    }
    Ok(values)
}
