//! How long objects live, and initializers as the parts of objects.

ghost use Rattle.std.specs.Prelude.{◌≡◌};
ghost use Rattle.c_typing.specs.Walks.{Tells};
ghost use Rattle.c_objects.specs.Initializers as spec;

use crate::filling::{Filled, fill};
use crate::values::add_values;
use c_conversions::TypeFault;
use c_meaning::{CType, Part};
use c_tree::{Initializer, Place};
use c_typing::Environment;
use sqlite_items::Items;
use std::alloc::Global;
use std::collections::VecDeque;

/// How long an object lives (C11 6.2.4): as long as the program runs, or from its declaration to the end of its block.
#[derive(Clone, Copy, Debug, PartialEq, Eq)]
pub enum Storage {
    Static,
    Automatic,
}

/// An initializer of an object of the type, as its parts in the order of cells. `place` is that of its `=`.
///
/// # Errors
///
/// The first rule that is broken, at its place, or memory ran out.
pub fn initial_parts(
    alloc: Global,
    env: &mut Environment,
    storage: Storage,
    place: Place,
    start: &Initializer,
    ctype: &CType,
) -> Result<Items<Part>, TypeFault>
    ensures { Tells result env.new (spec.initial_parts storage place start.now ctype.now env.old) }
{
    let values = add_values(alloc, env, storage, start, VecDeque::new(alloc))?;
    let filled = fill(alloc, env, place, start, ctype, Filled::new(alloc, values))?;
    Ok(filled.into_parts())
}
