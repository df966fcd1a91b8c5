//! Whole programs (C11 6.9).

ghost use Rattle.std.specs.Prelude.{◌≡◌, OnOk, map};
ghost use Rattle.c_typing.specs.Walks.{Tells, along};
ghost use Rattle.c_programs.specs.Programs as spec;

use crate::functions::function_of;
use crate::parameters::few_cells;
use c_conversions::{TypeFault, TypeKind};
use c_expressions::{specifiers, specs_place};
use c_heads::tag_alone;
use c_meaning::{CType, Qualifier, TypedParts};
use c_objects::{Storage, declarators, dimensioned, free_name, object_specs};
use c_scopes::Scopes;
use c_shapes::shape_of;
use c_sizes::program_size;
use c_tree::{Declaration, Dimension, ExternalDeclaration, Identifier, Place, Program, Specifiers};
use c_typing::{Entity, Environment, QualifiedType, declare_entity, object_type};
use hy_bits::{Memory, Port, Shape};
use sqlite_items::Items;
use std::alloc::Global;

/// The most statements that a run visits.
const MAX_VISITS: u64 = 1 << 20;

/// Declares a `typedef` of the type.
fn declare_typedef(
    alloc: Global,
    env: &mut Environment,
    name: &Identifier,
    of: QualifiedType,
) -> Result<(), Memory>
    ensures { OnOk result (env.new ≡ spec.with_typedef name.now of env.old) }
{
    let number = u32::try_from(env.typedefs.len()).map_err(|_| Memory)?;
    declare_entity(alloc, env, name.text.as_bytes(), Entity::TypeName(number))?;
    env.typedefs.push(of)?;
    Ok(())
}

/// A `typedef`.
fn typedef_of(
    alloc: Global,
    env: &mut Environment,
    specs: &Specifiers,
    name: &Identifier,
    dimensions: &[Dimension],
) -> Result<(), TypeFault>
    ensures { Tells result env.new (spec.typedef_walk specs.now name.now dimensions.now env.old) }
{
    let found = specifiers(alloc, env, specs)?;
    let QualifiedType { ctype, qualifier } = object_type(env, specs_place(specs), found)?;
    free_name(env, name)?;
    let ctype = dimensioned(alloc, env, None, dimensions, ctype)?;
    few_cells(env, name, &ctype)?;
    declare_typedef(alloc, env, name, QualifiedType { ctype, qualifier })?;
    Ok(())
}

/// A declaration of objects of file scope.
fn objects_of(alloc: Global, env: &mut Environment, of: &Declaration) -> Result<(), TypeFault>
    ensures { Tells result env.new (spec.objects_walk of.now env.old) }
{
    let found = object_specs(alloc, env, of)?;
    declarators(
        alloc,
        env,
        Storage::Static,
        &found,
        of.declarators.as_slice(),
    )?;
    Ok(())
}

/// An external declaration. `ports` are those of the entry, if it stands before.
fn item_of(
    alloc: Global,
    env: &mut Environment,
    bound: Option<u32>,
    of: &ExternalDeclaration,
    ports: Option<Items<Port>>,
) -> Result<Option<Items<Port>>, TypeFault>
    ensures { Tells result env.new (spec.item_walk bound of.now ports env.old) }
{
    match of {
        ExternalDeclaration::Typedef {
            specs,
            name,
            dimensions,
            ..
        } => {
            typedef_of(alloc, env, specs.get(), name, dimensions.as_slice())?;
            Ok(ports)
        }
        ExternalDeclaration::TagSpecifier(tag) => {
            tag_alone(alloc, env, tag.get())?;
            Ok(ports)
        }
        ExternalDeclaration::Declaration(_, declaration) => {
            objects_of(alloc, env, declaration.get())?;
            Ok(ports)
        }
        ExternalDeclaration::Function(function) => {
            function_of(alloc, env, bound, function.get(), ports)
        }
    }
}

/// External declarations, one after another.
fn items_of(
    alloc: Global,
    env: &mut Environment,
    bound: Option<u32>,
    items: &[ExternalDeclaration],
) -> Result<Option<Items<Port>>, TypeFault>
    ensures { Tells result env.new (along (map (spec.item_walk bound) items.now) None env.old) }
{
    let mut ports = None;
    for next in items {
        ports = item_of(alloc, env, bound, next, ports)?;
    }
    Ok(ports)
}

/// What is declared before a program.
fn nothing_declared(alloc: Global) -> Environment
    ensures { result ≡ spec.nothing_declared }
{
    Environment {
        names: Scopes::new(alloc),
        entities: Items::new(alloc),
        tag_names: Scopes::new(alloc),
        tags: Items::new(alloc),
        typedefs: Items::new(alloc),
        structs: Items::new(alloc),
        member_names: Items::new(alloc),
        objects: Items::new(alloc),
        functions: Items::new(alloc),
        main_function: None,
        cells: 0,
    }
}

/// The parts with their sizes, where a run visits few statements.
fn sized(alloc: Global, place: Place, mut parts: TypedParts) -> Result<TypedParts, TypeFault>
    ensures { spec.tells_parts result (spec.few_visits place (spec.sized parts)) }
{
    let total = program_size(alloc, &parts)?;
    if total.visits > MAX_VISITS {
        return Err(TypeFault::new(TypeKind::Unroll, place));
    }
    parts.visits = total.visits;
    parts.nodes = total.nodes;
    parts.gates = total.gates;
    Ok(parts)
}

/// The parts of a program whose entry stands at the place, by the shape of its result, if it has one.
fn shaped(
    alloc: Global,
    place: Place,
    env: Environment,
    main: u32,
    ports: Items<Port>,
    shape: Option<Shape>,
) -> Result<TypedParts, TypeFault>
    ensures { spec.tells_parts result (spec.shaped place env main ports shape) }
{
    match shape {
        Some(shape) => sized(alloc, place, unsized_parts(env, main, ports, shape)),
        None => Err(TypeFault::new(TypeKind::NoEntry, place)),
    }
}

/// The parts of a program whose declarations are these, with those of the entry.
fn entered(
    alloc: Global,
    end: Place,
    env: Environment,
    ports: Option<Items<Port>>,
) -> Result<TypedParts, TypeFault>
    ensures { spec.tells_parts result (spec.entered end env env.main_function ports) }
{
    let missing = TypeFault::new(TypeKind::NoEntry, end);
    let (Some(main), Some(ports)) = (env.main_function, ports) else {
        return Err(missing);
    };
    let Some(function) = env.functions.get(main as usize) else {
        return Err(missing);
    };
    let place = function.place;
    let shape = shape_of(alloc, env.structs.as_slice(), &function.result)?;
    shaped(alloc, place, env, main, ports, shape)
}

/// The parts without their sizes.
fn unsized_parts(env: Environment, main: u32, ports: Items<Port>, shape: Shape) -> TypedParts
    ensures { result ≡ spec.unsized env main ports shape }
{
    let Environment {
        structs,
        objects,
        functions,
        cells,
        ..
    } = env;
    TypedParts {
        structs,
        objects,
        functions,
        main_function: main,
        ports,
        result: shape,
        cells,
        visits: 0,
        nodes: 0,
        gates: 0,
    }
}

/// The typed parts of a program. `bound` is the bound of loops that have none of their own. The time is linear in the program's tokens, but for
/// what it counts: a turn of each loop that counts, the statements of such loops once for each such loop around them, and each object once for each
/// such loop; the stack is as deep as the program is nested.
///
/// # Errors
///
/// The first rule of types that the program breaks, at its place, or memory ran out.
#[tactic(auto, using(crate::proofs::Endings::tells_finished))]
pub fn program_parts(
    alloc: Global,
    program: &Program,
    bound: Option<u32>,
) -> Result<TypedParts, TypeFault>
    ensures { spec.tells_parts result (spec.typing_of program.now bound) }
{
    let mut env = nothing_declared(alloc);
    let ports = items_of(alloc, &mut env, bound, program.items())?;
    entered(alloc, program.end(), env, ports)
}
