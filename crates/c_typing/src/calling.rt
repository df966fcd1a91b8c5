//! Calls (C11 6.5.2.2), on arguments that are walked.

ghost use Rattle.std.specs.Prelude.{◌≡◌};
ghost use Rattle.c_typing.specs.Walks.{Tells};
ghost use Rattle.c_typing.specs.Expressions as spec;

use crate::environment::{Entity, Environment};
use crate::names::assigned_to;
use crate::values::{TypedValue, Typing};
use c_conversions::{TypeFault, TypeKind, copy, kind};
use c_meaning::{TypedExpr, TypedFunction};
use c_tree::Place;
use sqlite_items::Items;
use std::alloc::Global;
use std::collections::VecDeque;

/// Whether a call of this entity is one of the function whose body is walked, or of `mpc_main`.
pub fn is_recursive(env: &Environment, entity: Entity) -> bool
    ensures { result ≡ spec.is_recursive env.now entity }
{
    match entity {
        Entity::Function(number) => {
            env.functions.get(number as usize).is_none() || env.main_function == Some(number)
        }
        _ => false,
    }
}

/// A value as the argument for the parameter that is the object of the number.
fn argument(
    alloc: Global,
    env: &Environment,
    bracket: Place,
    parameter: u32,
    value: TypedValue,
) -> Result<TypedExpr, TypeFault>
    ensures { Tells result env.now (spec.argument_typing bracket parameter value env.now) }
{
    match env.objects.get(parameter as usize) {
        Some(object) => assigned_to(alloc, env, bracket, &object.ctype, value),
        None => Err(TypeFault::new(TypeKind::Mismatch, bracket)),
    }
}

/// The arguments for these parameters.
fn arguments(
    alloc: Global,
    env: &Environment,
    bracket: Place,
    parameters: &[u32],
    mut values: VecDeque<TypedValue>,
) -> Result<Items<TypedExpr>, TypeFault>
    ensures { Tells result env.now (spec.arguments_typing bracket parameters.now values.items env.now) }
{
    let mut found = Items::new(alloc);
    for parameter in parameters {
        let Some(value) = values.pop_front() else {
            return Err(TypeFault::new(TypeKind::Mismatch, bracket));
        };
        found.push(argument(alloc, env, bracket, *parameter, value)?)?;
    }
    match values.pop_front() {
        None => Ok(found),
        Some(_) => Err(TypeFault::new(TypeKind::Mismatch, bracket)),
    }
}

/// A call of a function that is complete.
fn with_arguments(
    alloc: Global,
    env: &Environment,
    name: Place,
    bracket: Place,
    number: u32,
    function: &TypedFunction,
    values: VecDeque<TypedValue>,
) -> Result<Typing, TypeFault>
    ensures { Tells result env.now (spec.with_arguments name bracket number function.now values.items env.now) }
{
    let parameters = function.params.as_slice();
    if parameters.len() != values.len() {
        return Err(TypeFault::new(TypeKind::Mismatch, bracket));
    }
    let arguments = arguments(alloc, env, bracket, parameters, values)?;
    let expr = TypedExpr::Call {
        place: name,
        function: number,
        kind: kind(&function.result),
        arguments,
    };
    let ctype = copy(alloc, &function.result)?;
    Ok(Typing::Gives(TypedValue { expr, ctype }))
}

/// A call of what a name stands for, with the values of its arguments.
///
/// # Errors
///
/// `Mismatch` at the bracket: it is no function, the number of the arguments isn't that of its parameters, or one of them doesn't fit.
/// `PointerForm` there: one is a pointer for a `_Bool`; or memory ran out.
pub fn calls(
    alloc: Global,
    env: &Environment,
    name: Place,
    bracket: Place,
    entity: Entity,
    values: VecDeque<TypedValue>,
) -> Result<Typing, TypeFault>
    ensures { Tells result env.now (spec.calls name bracket entity values.items env.now) }
{
    let Entity::Function(number) = entity else {
        return Err(TypeFault::new(TypeKind::Mismatch, bracket));
    };
    match env.functions.get(number as usize) {
        Some(function) => { with_arguments(alloc, env, name, bracket, number, function, values) }
        None => Err(TypeFault::new(TypeKind::Mismatch, bracket)),
    }
}
