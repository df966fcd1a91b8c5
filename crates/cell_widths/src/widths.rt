//! Types as lists of widths.

ghost use Rattle.std.specs.Prelude.{◌≡◌, IfOk, map};
ghost use Rattle.hy_bits.specs.Scalar.{scalar_width};
ghost use Rattle.cell_widths.specs.Widths as spec;

use c_meaning::{CType, StructType};
use c_shapes::scalars_of;
use hy_bits::{Memory, Scalar, Width};
use std::alloc::Global;

/// The width of each of these types.
#[tactic(auto, using(crate::proofs::More::one_more, crate::proofs::More::no_more))]
fn widths_in(alloc: Global, scalars: &[Scalar]) -> Result<Vec<Width>, Memory>
    ensures { IfOk result (λ widths. widths.items ≡ map scalar_width scalars.now) }
{
    let mut widths = Vec::with_capacity(alloc, scalars.len())?;
    for scalar in scalars {
        widths.push(scalar.width())?;
    }
    Ok(widths)
}

/// The width of each cell of a type whose structs are `structs`, each by those before it. A pointer and `void` have none, and neither has a
/// struct that isn't among them. It takes time linear in the widths and in the types that are walked for them.
///
/// # Errors
///
/// Memory ran out.
pub fn widths_of(alloc: Global, structs: &[StructType], ctype: &CType) -> Result<Vec<Width>, Memory>
    ensures { IfOk result (λ widths. widths.items ≡ spec.widths_of structs.now ctype.now) }
{
    let scalars = scalars_of(alloc, structs, ctype)?;
    widths_in(alloc, scalars.as_slice())
}
