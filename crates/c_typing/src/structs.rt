//! Structs (C11 6.7.2.1).

ghost use Rattle.std.specs.Prelude.{◌≡◌, IfOk};
ghost use Rattle.c_typing.specs.Walks.{Tells};
ghost use Rattle.c_typing.specs.Specifiers as spec;

use crate::environment::{Environment, Tag};
use c_conversions::{MAX_CELLS, TypeFault, TypeKind, cells};
use c_meaning::{CType, Member, StructType};
use c_scopes::Scopes;
use c_tree::Identifier;
use hy_bits::{Memory, Text};
use sqlite_items::Items;
use std::alloc::Global;

/// The members of a struct that are declared so far: their names, each bound to the number of its member, and the number of their cells.
#[derive(Drop)]
pub struct Members {
    pub names: Scopes,
    pub members: Items<Member>,
    pub cells: u32,
}

impl Members {
    ghost use Rattle.std.specs.Prelude.{◌≡◌};
    ghost use Rattle.c_typing.specs.Specifiers as spec;

    /// No members.
    pub fn new(alloc: Global) -> Members
        ensures { result ≡ spec.no_members }
    {
        Members {
            names: Scopes::new(alloc),
            members: Items::new(alloc),
            cells: 0,
        }
    }

    /// Whether a member has the name.
    pub fn has(&self, name: &[u8]) -> bool
        ensures { result ≡ spec.is_member self.now name.now }
    {
        self.names.found(name).is_some()
    }
}

/// One more member of the type, whose name no member has.
///
/// # Errors
///
/// `Cells` at the name: the members have more than 2^16 cells; or memory ran out.
pub fn add_member(
    alloc: Global,
    env: &Environment,
    mut members: Members,
    name: &Identifier,
    ctype: CType,
) -> Result<Members, TypeFault>
    ensures { Tells result env.now (spec.add_member name.now ctype members env.now) }
{
    let more = cells(env.structs.as_slice(), &ctype);
    let offset = members.cells;
    let Some(all) = offset.checked_add(more) else {
        return Err(TypeFault::new(TypeKind::Cells, name.place));
    };
    if all > MAX_CELLS {
        return Err(TypeFault::new(TypeKind::Cells, name.place));
    }
    let number = u32::try_from(members.members.len()).map_err(|_| Memory)?;
    members.names.declare(alloc, name.text.as_bytes(), number)?;
    members.members.push(Member {
        name: Text::copy_of(alloc, name.text.as_bytes())?,
        ctype,
        offset,
        cells: more,
    })?;
    members.cells = all;
    Ok(members)
}
