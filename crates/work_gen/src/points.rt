ghost use Rattle.std.specs.Prelude.{◌≡◌, ◌≤◌, ◌++◌, IfOk, OnOk};
ghost use Rattle.std.specs.String.{string_bytes};
ghost use Rattle.work_gen.specs.Source.{points_of, work_limit};
ghost use Rattle.work_gen.specs.Texts.{a_of, coordinate, point_text};

use hy_bits::Memory;
use std::alloc::Global;

/// The points of the first party, of which the work of `number` has eight times as many.
///
/// # Errors
///
/// Memory ran out.
pub fn points_text(alloc: Global, number: u32) -> Result<String, Memory>
    requires least { 1 ≤ number }
    requires most { number ≤ work_limit }
    ensures { IfOk result (λ text. string_bytes text ≡ a_of number) }
{
    let mut text = String::from_str(alloc, "{\"INPUT_A_p\":[")?;
    push_point(&mut text, number, 0)?;
    for i in 1..8 * number {
        text.push_str(",")?;
        push_point(&mut text, number, i)?;
    }
    text.push_str("]}\n")?;
    Ok(text)
}

/// Writes the point `i` to the end of `text`.
///
/// # Errors
///
/// Memory ran out, and the end of `text` may have a part of the point.
fn push_point(text: &mut String, number: u32, i: u32) -> Result<(), Memory>
    requires few { number ≤ work_limit }
    requires early { i ≤ points_of work_limit }
    ensures { OnOk result (string_bytes text.new ≡ string_bytes text.old ++ point_text number i) }
{
    let first = coordinate(number, i, 0);
    let second = coordinate(number, i, 1);
    let third = coordinate(number, i, 2);
    let fourth = coordinate(number, i, 3);
    Ok(write!(text, "[{first},{second},{third},{fourth}]")?)
}

/// The coordinate `j` of the point `i`.
fn coordinate(number: u32, i: u32, j: u32) -> u32
    requires few { number ≤ work_limit }
    requires early { i ≤ points_of work_limit }
    requires place { j ≤ 3 }
    ensures { result ≡ coordinate number i j }
{
    (37 * i + 101 * j + number) % 1000
}
