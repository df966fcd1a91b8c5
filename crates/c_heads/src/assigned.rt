//! Whether a statement assigns to an object by its name.

ghost use Rattle.std.specs.Prelude.{◌≡◌, IfOk};
ghost use Rattle.c_heads.specs.Loops as spec;

use c_meaning::TypedStatement;
use c_uses::mark_assigned_in;
use hy_bits::Memory;
use std::alloc::Global;

/// Whether a statement assigns to the object by its name. It takes time linear in the statement and in the number of the object.
///
/// # Errors
///
/// Memory ran out.
pub fn assigns(alloc: Global, statement: &TypedStatement, object: u32) -> Result<bool, Memory>
    ensures { IfOk result (λ found. found ≡ spec.assigns statement.now object) }
{
    let mut marks = vec![in alloc; false; object as usize + 1]?;
    mark_assigned_in(statement, marks.as_mut_slice());
    match marks.get(object as usize) {
        Some(found) => Ok(*found),
        None => Ok(false),
    }
}
