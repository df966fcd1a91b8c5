//! The integers in the cells of types.

ghost use Rattle.std.specs.Prelude.{◌≡◌, ◌++◌, OnOk, IfOk, [], take, get_or};
ghost use Rattle.c_meaning.specs.Types as types;

use c_meaning::{CType, StructType};
use hy_bits::{Memory, Scalar};
use sqlite_items::{Items, at};
use std::alloc::Global;

/// The type of each cell of a type whose structs are these, each by those before it. A pointer and `void` have none, and neither has a struct
/// that isn't among these. It takes time linear in the cells.
///
/// # Errors
///
/// Memory ran out.
#[tactic(auto, using(crate::proofs::ScalarLaws::all_scalars))]
pub fn scalars_of(
    alloc: Global,
    structs: &[StructType],
    ctype: &CType,
) -> Result<Items<Scalar>, Memory>
    ensures { IfOk result (λ scalars. scalars ≡ types.scalars_of (types.struct_scalars structs.now) ctype.now) }
{
    let mut scalars = Items::new(alloc);
    add_scalars(structs, structs.len(), ctype, &mut scalars)?;
    Ok(scalars)
}

/// Adds the types of the cells of a type by the first `below` structs alone.
#[cycle(scalars)]
fn add_scalars(
    structs: &[StructType],
    below: usize,
    ctype: &CType,
    scalars: &mut Items<Scalar>,
) -> Result<(), Memory>
    ensures { OnOk result (scalars.new ≡ scalars.old ++ types.scalars_of (take below (types.struct_scalars structs.now)) ctype.now) }
{
    match ctype {
        CType::Void | CType::Pointer(_, _) => Ok(()),
        CType::Int(scalar) => Ok(scalars.push(*scalar)?),
        CType::Array(count, element) => {
            add_repeated(structs, below, *count, element.get(), scalars)
        }
        CType::Struct(number) => add_numbered(structs, below, *number as usize, scalars),
    }
}

/// Adds the types of the cells of so many elements by the first `below` structs alone.
#[cycle(scalars)]
#[tactic(auto, using(crate::proofs::ScalarLaws::one_more))]
fn add_repeated(
    structs: &[StructType],
    below: usize,
    count: u32,
    element: &CType,
    scalars: &mut Items<Scalar>,
) -> Result<(), Memory>
    ensures { OnOk result (scalars.new ≡ scalars.old ++ types.repeated count (types.scalars_of (take below (types.struct_scalars structs.now)) element.now)) }
{
    for done in 0..count {
        add_scalars(structs, below, element, scalars)?;
    }
    Ok(())
}

/// Adds the types of the cells of the struct of the number, where it is one of the first `below`.
#[cycle(scalars)]
fn add_numbered(
    structs: &[StructType],
    below: usize,
    number: usize,
    scalars: &mut Items<Scalar>,
) -> Result<(), Memory>
    ensures { OnOk result (scalars.new ≡ scalars.old ++ get_or (take below (types.struct_scalars structs.now)) number []) }
{
    if number >= below {
        return Ok(());
    }
    match at(structs, number) {
        Some(found) => add_members(structs, number, found, scalars),
        None => Ok(()),
    }
}

/// Adds the types of the cells of a struct by the first `below` structs alone.
#[cycle(scalars)]
#[tactic(auto, using(crate::proofs::ScalarLaws::member_next, crate::proofs::ScalarLaws::members_done))]
fn add_members(
    structs: &[StructType],
    below: usize,
    of: &StructType,
    scalars: &mut Items<Scalar>,
) -> Result<(), Memory>
    ensures { OnOk result (scalars.new ≡ scalars.old ++ types.member_scalars (take below (types.struct_scalars structs.now)) of.now.members) }
{
    for member in of.members.as_slice() {
        add_scalars(structs, below, &member.ctype, scalars)?;
    }
    Ok(())
}
