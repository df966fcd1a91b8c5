//! The values of initializers, in the order of the text.

ghost use Rattle.std.specs.Prelude.{◌≡◌, map};
ghost use Rattle.c_typing.specs.Walks.{Tells, along};
ghost use Rattle.c_expressions.specs.Typing as typing;
ghost use Rattle.c_objects.specs.Initializers as spec;

use crate::initializers::Storage;
use c_constants::constant_word;
use c_conversions::{TypeFault, TypeKind};
use c_expressions::{expr_place, value_of};
use c_tree::{Expr, Initializer, Place};
use c_typing::{Environment, TypedValue, scalar};
use std::alloc::Global;
use std::collections::VecDeque;

/// Whether a value is an integer constant expression.
fn is_constant(value: &TypedValue) -> bool
    ensures { result ≡ spec.is_constant value.now }
{
    scalar(&value.ctype).is_some() && constant_word(&value.expr).is_some()
}

/// A value that an object may begin with.
fn start_value(
    env: &Environment,
    storage: Storage,
    place: Place,
    value: TypedValue,
) -> Result<TypedValue, TypeFault>
    ensures { Tells result env.now (spec.start_value storage place value env.now) }
{
    match storage {
        Storage::Automatic => Ok(value),
        Storage::Static => {
            if is_constant(&value) {
                Ok(value)
            } else {
                Err(TypeFault::new(TypeKind::NotConstant, place))
            }
        }
    }
}

/// The values so far, with that of an expression.
fn add_value(
    alloc: Global,
    env: &mut Environment,
    storage: Storage,
    expr: &Expr,
    mut values: VecDeque<TypedValue>,
) -> Result<VecDeque<TypedValue>, TypeFault>
    ensures { Tells (typing.items_of result) env.new (spec.value_walk storage (typing.types_expr expr.now) values.items env.old) }
{
    let value = value_of(alloc, env, expr)?;
    let value = start_value(env, storage, expr_place(expr), value)?;
    values.push_back(value)?;
    Ok(values)
}

/// The values so far, with those of an initializer.
#[cycle(values)]
pub fn add_values(
    alloc: Global,
    env: &mut Environment,
    storage: Storage,
    start: &Initializer,
    values: VecDeque<TypedValue>,
) -> Result<VecDeque<TypedValue>, TypeFault>
    ensures { Tells (typing.items_of result) env.new (spec.values_of storage start.now values.items env.old) }
{
    match start {
        Initializer::Expression(expr) => add_value(alloc, env, storage, expr, values),
        Initializer::List { parts, .. } => {
            add_all(alloc, env, storage, parts.as_slice(), values)
        }
    }
}

/// The values so far, with those of initializers.
#[cycle(values)]
fn add_all(
    alloc: Global,
    env: &mut Environment,
    storage: Storage,
    parts: &[Initializer],
    values: VecDeque<TypedValue>,
) -> Result<VecDeque<TypedValue>, TypeFault>
    ensures { Tells (typing.items_of result) env.new (along (map (spec.values_of storage) parts.now) values.items env.old) }
{
    let mut all = values;
    for next in parts {
        all = add_values(alloc, env, storage, next, all)?;
    }
    Ok(all)
}
