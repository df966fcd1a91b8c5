ghost use Rattle.std.specs.Prelude.{◌≡◌, ◌≤◌, IfOk};
ghost use Rattle.std.specs.String.{string_bytes};
ghost use Rattle.work_gen.specs.Source.{source_of, work_limit};
ghost use Rattle.work_gen.specs.Texts.{a_of, b_of};
ghost use Rattle.work_gen.specs.Costs.{table_text};

use crate::points::points_text;
use crate::texts::{QUERY, SOURCE_HEAD, SOURCE_TAIL, TABLE, Work};
use hy_bits::Memory;
use std::alloc::Global;

/// The work of `number`, with eight times as many points. Its time grows with the number.
///
/// # Errors
///
/// Memory ran out.
#[tactic(auto, using(crate::proofs::Fixed::query_is, crate::proofs::Fixed::table_is))]
pub fn work(alloc: Global, number: u32) -> Result<Work, Memory>
    requires least { 1 ≤ number }
    requires most { number ≤ work_limit }
    ensures source { IfOk result (λ work. work.source.items ≡ source_of number) }
    ensures a { IfOk result (λ work. work.a.items ≡ a_of number) }
    ensures b { IfOk result (λ work. work.b.items ≡ b_of) }
    ensures table { IfOk result (λ work. work.table.items ≡ table_text) }
{
    Ok(Work {
        source: source_text(alloc, number)?.into_bytes(),
        a: points_text(alloc, number)?.into_bytes(),
        b: Vec::from_slice(alloc, QUERY.as_bytes())?,
        table: Vec::from_slice(alloc, TABLE.as_bytes())?,
    })
}

/// The program with its number of points.
fn source_text(alloc: Global, number: u32) -> Result<String, Memory>
    requires { number ≤ work_limit }
    ensures { IfOk result (λ text. string_bytes text ≡ source_of number) }
{
    let points = 8 * number;
    Ok(format!(in alloc; "{SOURCE_HEAD}{points}{SOURCE_TAIL}")?)
}
