//! Function definitions (C11 6.9.1).

ghost use Rattle.std.specs.Prelude.{◌≡◌, OnOk, IfOk};
ghost use Rattle.c_typing.specs.Walks.{Tells};
ghost use Rattle.c_programs.specs.Programs as spec;

use crate::parameters::{Head, head_of};
use c_addresses::addressed_in;
use c_bodies::{Around, block};
use c_conversions::{TypeFault, TypeKind, copy, kind};
use c_expressions::{specifiers, specs_place};
use c_heads::{Body, close, open};
use c_meaning::{CType, TypedBlock, TypedFunction, ValueKind};
use c_objects::free_name;
use c_tree::{Function, Identifier, Specifiers};
use c_typing::{Entity, Environment, declare_entity};
use hy_bits::{Memory, Port, Text};
use sqlite_items::Items;
use std::alloc::Global;

/// The parameters of a function, and its body.
#[derive(Drop)]
pub struct Whole {
    pub head: Head,
    pub body: TypedBlock,
}

/// Whether a function is the entry.
fn is_entry(name: &Identifier) -> bool
    ensures { result ≡ spec.is_entry name.now }
{
    name.text.as_bytes() == b"mpc_main".as_slice()
}

/// The type of a function's result, which is no array.
fn result_type(alloc: Global, env: &mut Environment, specs: &Specifiers) -> Result<CType, TypeFault>
    ensures { Tells result env.new (spec.result_type specs.now env.old) }
{
    let found = specifiers(alloc, env, specs)?;
    match &found.ctype {
        CType::Array(_, _) => Err(TypeFault::new(TypeKind::Mismatch, specs_place(specs))),
        _ => Ok(found.ctype),
    }
}

/// That the result of `mpc_main` isn't void.
fn entry_result(env: &Environment, name: &Identifier, ctype: &CType) -> Result<(), TypeFault>
    ensures { Tells result env.now (spec.entry_result name.now ctype.now env.now) }
{
    match kind(ctype) {
        ValueKind::Void => {
            if is_entry(name) {
                Err(TypeFault::new(TypeKind::NoEntry, name.place))
            } else {
                Ok(())
            }
        }
        ValueKind::Integer(_) | ValueKind::Pointer | ValueKind::Struct(_) => Ok(()),
    }
}

/// Declares a function by its name.
fn begin(alloc: Global, env: &mut Environment, name: &Identifier) -> Result<(), Memory>
    ensures { OnOk result (env.new ≡ spec.begun name.now env.old) }
{
    let number = u32::try_from(env.functions.len()).map_err(|_| Memory)?;
    declare_entity(alloc, env, name.text.as_bytes(), Entity::Function(number))?;
    if is_entry(name) {
        env.main_function = Some(number);
    }
    Ok(())
}

/// The parameters and the body of a function, in the scope that is open.
fn whole_of(
    alloc: Global,
    env: &mut Environment,
    of: &Function,
    body: &Body,
) -> Result<Whole, TypeFault>
    ensures { Tells result env.new (spec.whole_walk of.now body.now env.old) }
{
    let head = head_of(alloc, env, is_entry(&of.name), &of.parameters)?;
    let around = Around {
        breaks: false,
        continues: false,
    };
    let body = block(alloc, env, body, around, &of.body)?;
    Ok(Whole { head, body })
}

/// The parameters and the body of a function, in a scope of their own.
fn scoped_whole(
    alloc: Global,
    env: &mut Environment,
    of: &Function,
    body: &Body,
) -> Result<Whole, TypeFault>
    ensures { Tells result env.new (spec.scoped_whole of.now body.now env.old) }
{
    open(env)?;
    let whole = whole_of(alloc, env, of, body)?;
    close(env);
    Ok(whole)
}

/// Where the statements of a function's body stand.
fn body_of(
    alloc: Global,
    env: &Environment,
    bound: Option<u32>,
    of: &Function,
    ctype: &CType,
) -> Result<Body, Memory>
    ensures { IfOk result (λ body. body ≡ spec.body_of bound of.now ctype.now env.now) }
{
    Ok(Body {
        result: copy(alloc, ctype)?,
        bound,
        base: u32::try_from(env.entities.len()).map_err(|_| Memory)?,
        addressed: addressed_in(alloc, of)?,
    })
}

/// A function whose name is declared. `ports` are those of the entry, if it stands before.
fn function_rest(
    alloc: Global,
    env: &mut Environment,
    bound: Option<u32>,
    of: &Function,
    result_type: CType,
    ports: Option<Items<Port>>,
) -> Result<Option<Items<Port>>, TypeFault>
    ensures { Tells result env.new (spec.function_rest bound of.now result_type ports env.old) }
{
    let body = body_of(alloc, env, bound, of, &result_type)?;
    let whole = scoped_whole(alloc, env, of, &body)?;
    let Whole { head, body } = whole;
    let Head {
        parameters,
        ports: own,
    } = head;
    env.functions.push(TypedFunction {
        name: Text::copy_of(alloc, of.name.text.as_bytes())?,
        place: of.name.place,
        result: result_type,
        params: parameters,
        body,
    })?;
    if is_entry(&of.name) {
        Ok(Some(own))
    } else {
        Ok(ports)
    }
}

/// A function definition. `ports` are those of the entry, if it stands before.
///
/// # Errors
///
/// The first rule that is broken, at its place, or memory ran out. What is declared is then no longer of use.
pub fn function_of(
    alloc: Global,
    env: &mut Environment,
    bound: Option<u32>,
    of: &Function,
    ports: Option<Items<Port>>,
) -> Result<Option<Items<Port>>, TypeFault>
    ensures { Tells result env.new (spec.function_walk bound of.now ports env.old) }
{
    let ctype = result_type(alloc, env, &of.specs)?;
    free_name(env, &of.name)?;
    entry_result(env, &of.name, &ctype)?;
    begin(alloc, env, &of.name)?;
    function_rest(alloc, env, bound, of, ctype, ports)
}
