//! Parameters of functions, and the ports of `mpc_main` (C11 6.7.6.3).

ghost use Rattle.std.specs.Prelude.{◌≡◌, IfOk, None, map};
ghost use Rattle.c_typing.specs.Walks.{Tells, along};
ghost use Rattle.c_meaning.specs.StatementRules as rules;
ghost use Rattle.c_objects.specs.Objects as objects;
ghost use Rattle.c_programs.specs.Parameters as spec;

use c_conversions::{MAX_CELLS, TypeFault, TypeKind, cells, copy};
use c_expressions::{specifiers, specs_place};
use c_meaning::{CType, Object, Qualifier};
use c_objects::{count_more, dimensioned, free_name, new_object, pointed, pointer_form};
use c_shapes::shape_of;
use c_tree::{Dimension, Identifier, Parameter, Parameters, Pointer};
use c_typing::{Environment, QualifiedType, object_type};
use hy_bits::{Memory, Port, Role, Text};
use sqlite_items::{Boxed, Items};
use std::alloc::Global;

/// The parameters of a function by the numbers of their objects, and, of `mpc_main`, their ports.
#[derive(Drop)]
pub struct Head {
    pub parameters: Items<u32>,
    pub ports: Items<Port>,
}

/// That a type has few cells.
///
/// # Errors
///
/// `Cells` at the name: it has more than 2^16.
pub fn few_cells(env: &Environment, name: &Identifier, ctype: &CType) -> Result<(), TypeFault>
    ensures { Tells result env.now (spec.few_cells name.now ctype.now env.now) }
{
    if cells(env.structs.as_slice(), ctype) <= MAX_CELLS {
        Ok(())
    } else {
        Err(TypeFault::new(TypeKind::Cells, name.place))
    }
}

/// The type of a parameter by the type that is written.
fn adjusted(
    alloc: Global,
    env: &Environment,
    name: &Identifier,
    pointer: &Option<Pointer>,
    ctype: CType,
    qualifier: Qualifier,
) -> Result<QualifiedType, TypeFault>
    ensures { Tells result env.now (spec.adjusted name.now pointer.now ctype qualifier env.now) }
{
    if pointer.is_some() {
        return Ok(pointed(alloc, pointer, ctype, qualifier)?);
    }
    match ctype {
        CType::Array(_, element) => {
            few_cells(env, name, element.get())?;
            Ok(QualifiedType {
                ctype: CType::Pointer(qualifier, element),
                qualifier: Qualifier::Unqualified,
            })
        }
        ctype => Ok(QualifiedType { ctype, qualifier }),
    }
}

/// Whose a parameter of the name is.
fn party_of(name: &[u8]) -> Option<Role>
    ensures { result ≡ rules.party_of name.now }
{
    if name.starts_with(b"INPUT_A") {
        Some(Role::P0)
    } else if name.starts_with(b"INPUT_B") {
        Some(Role::P1)
    } else {
        None
    }
}

/// Whether the first dimension is empty.
fn is_open(list: &[Dimension]) -> bool
    ensures { result ≡ spec.is_open list.now }
{
    match list {
        [] => false,
        [first, ..] => first.size.is_none(),
    }
}

/// Whose a parameter of `mpc_main` is, whose form is allowed.
fn entry_role(
    env: &Environment,
    name: &Identifier,
    pointer: &Option<Pointer>,
    list: &[Dimension],
) -> Result<Role, TypeFault>
    ensures { Tells result env.now (spec.entry_role name.now pointer.now list.now env.now) }
{
    let fault = TypeFault::new(TypeKind::NoEntry, name.place);
    if pointer.is_some() || is_open(list) {
        return Err(fault);
    }
    match party_of(name.text.as_bytes()) {
        Some(role) => Ok(role),
        None => Err(fault),
    }
}

/// The port of a parameter of the type that is written.
fn port_of(
    alloc: Global,
    env: &Environment,
    name: &Identifier,
    role: Role,
    ctype: &CType,
) -> Result<Port, TypeFault>
    ensures { Tells result env.now (spec.port_of name.now role ctype.now env.now) }
{
    match shape_of(alloc, env.structs.as_slice(), ctype)? {
        Some(shape) => {
            let name = Text::copy_of(alloc, name.text.as_bytes())?;
            Ok(Port { role, name, shape })
        }
        None => Err(TypeFault::new(TypeKind::NoEntry, name.place)),
    }
}

/// An object of the type and the qualifier.
fn object_of(
    alloc: Global,
    name: &Identifier,
    ctype: CType,
    qualifier: Qualifier,
    cells: u32,
) -> Result<Object, Memory>
    ensures { IfOk result (λ object. object ≡ objects.object_of name.now (record { ctype = ctype; qualifier = qualifier }) cells None) }
{
    Ok(Object {
        name: Text::copy_of(alloc, name.text.as_bytes())?,
        place: name.place,
        qualifier,
        ctype,
        cells,
        start: None,
    })
}

/// One more object, for which no name stands.
fn nameless(
    alloc: Global,
    env: &mut Environment,
    name: &Identifier,
    ctype: CType,
    qualifier: Qualifier,
) -> Result<(), TypeFault>
    ensures { Tells result env.new (spec.nameless name.now ctype qualifier env.old) }
{
    let cells = cells(env.structs.as_slice(), &ctype);
    let object = object_of(alloc, name, ctype, qualifier, cells)?;
    env.objects.push(object)?;
    count_more(env, name, cells)
}

/// The object of its own that an array is which a parameter of `mpc_main` points to.
fn own_array(
    alloc: Global,
    env: &mut Environment,
    name: &Identifier,
    ctype: CType,
    qualifier: Qualifier,
) -> Result<(), TypeFault>
    ensures { Tells result env.new (spec.own_array name.now ctype qualifier env.old) }
{
    match ctype {
        CType::Array(_, _) => nameless(alloc, env, name, ctype, qualifier),
        _ => Ok(()),
    }
}

/// A parameter of the type that is written, after those before it.
fn plain_parameter(
    alloc: Global,
    env: &mut Environment,
    of: &Parameter,
    qualifier: Qualifier,
    full: CType,
    mut head: Head,
) -> Result<Head, TypeFault>
    ensures { Tells result env.new (spec.plain_parameter of.now qualifier full head env.old) }
{
    let own = adjusted(alloc, env, &of.name, &of.pointer, full, qualifier)?;
    let number = new_object(alloc, env, &of.name, &own)?;
    head.parameters.push(number)?;
    Ok(head)
}

/// A parameter of `mpc_main` of the type that is written, after those before it.
fn entry_parameter(
    alloc: Global,
    env: &mut Environment,
    of: &Parameter,
    qualifier: Qualifier,
    full: CType,
    head: Head,
) -> Result<Head, TypeFault>
    ensures { Tells result env.new (spec.entry_parameter of.now qualifier full head env.old) }
{
    let name = &of.name;
    let role = entry_role(env, name, &of.pointer, of.dimensions.as_slice())?;
    let written = copy(alloc, &full)?;
    let mut more = plain_parameter(alloc, env, of, qualifier, written, head)?;
    let port = port_of(alloc, env, name, role, &full)?;
    own_array(alloc, env, name, full, qualifier)?;
    more.ports.push(port)?;
    Ok(more)
}

/// A parameter, after those before it.
fn parameter_of(
    alloc: Global,
    env: &mut Environment,
    is_entry: bool,
    of: &Parameter,
    head: Head,
) -> Result<Head, TypeFault>
    ensures { Tells result env.new (spec.parameter_of is_entry of.now head env.old) }
{
    let found = specifiers(alloc, env, &of.specs)?;
    let QualifiedType { ctype, qualifier } = object_type(env, specs_place(&of.specs), found)?;
    let dimensions = of.dimensions.as_slice();
    pointer_form(env, &of.pointer, dimensions)?;
    free_name(env, &of.name)?;
    let full = dimensioned(alloc, env, Some(1), dimensions, ctype)?;
    if is_entry {
        entry_parameter(alloc, env, of, qualifier, full, head)
    } else {
        plain_parameter(alloc, env, of, qualifier, full, head)
    }
}

/// Parameters, one after another.
fn parameters_of(
    alloc: Global,
    env: &mut Environment,
    is_entry: bool,
    list: &[Parameter],
) -> Result<Head, TypeFault>
    ensures { Tells result env.new (along (map (spec.parameter_of is_entry) list.now) spec.no_parameters env.old) }
{
    let mut head = Head {
        parameters: Items::new(alloc),
        ports: Items::new(alloc),
    };
    for next in list {
        head = parameter_of(alloc, env, is_entry, next, head)?;
    }
    Ok(head)
}

/// What stands between the brackets of a function's head, of `mpc_main` or of another.
///
/// # Errors
///
/// The first rule that is broken, at its place, or memory ran out. What is declared is then no longer of use.
pub fn head_of(
    alloc: Global,
    env: &mut Environment,
    is_entry: bool,
    of: &Parameters,
) -> Result<Head, TypeFault>
    ensures { Tells result env.new (spec.head_of is_entry of.now env.old) }
{
    match of {
        Parameters::Nothing | Parameters::Void(_) => Ok(Head {
            parameters: Items::new(alloc),
            ports: Items::new(alloc),
        }),
        Parameters::List(list) => parameters_of(alloc, env, is_entry, list.as_slice()),
    }
}
