//! Nets over two words, and the words that literals spell in them.
ghost use Rattle.std.specs.Prelude.{◌≡◌, ◌+◌, ◌*◌, ◌≤◌, ◌<◌, length, IfOk};
ghost use Rattle.hy_bits.specs.Words.{bits, IsWord};
ghost use Rattle.gate_net.specs.Spelled.{AllStand};

use gate_net::{GateFault, Lit, Net};
use hy_bits::Width;
use std::alloc::Global;

/// The edges of the widths 8 and 64, and some between. At width 8 the lowest eight bits count.
pub const WORDS: [u64; 9] = [0, 1, 3, 6, 0x7f, 0x80, u64::MAX >> 1, 1 << 63, u64::MAX];

/// A net whose inputs are two words.
pub fn two_words(alloc: Global, width: u32) -> Result<(Net, Vec<Lit>, Vec<Lit>), GateFault>
    requires { width ≤ 64 }
    ensures ins { IfOk result (λ r. r.0.ins ≡ 2 * width) }
    ensures first { IfOk result (λ r. AllStand r.0 r.1.items) }
    ensures second { IfOk result (λ r. AllStand r.0 r.2.items) }
    ensures first_length { IfOk result (λ r. length r.1.items ≡ width) }
    ensures second_length { IfOk result (λ r. length r.2.items ≡ width) }
{
    let net = Net::new(alloc, 2 * width, 1 << 20);
    let mut first = Vec::new(alloc);
    let mut second = Vec::new(alloc);
    for place in 0..width {
        first.push(Lit::of_variable(place))?;
        second.push(Lit::of_variable(width + place))?;
    }
    Ok((net, first, second))
}

/// The bit of a literal, over the bits of the variables.
fn bit_of(variables: &[bool], l: Lit) -> bool
    requires { l.code < 2 * (1 + length variables.now) }
{
    let wire = l.code as usize / 2;
    let bit = wire > 0 && variables[wire - 1];
    bit != l.is_complement()
}

/// The number that the literals spell where the inputs are two words.
pub fn number_of(
    alloc: Global,
    net: &Net,
    ls: &[Lit],
    width: Width,
    a: u64,
    b: u64,
) -> Result<u64, GateFault>
    requires ins { net.now.ins ≡ 2 * bits width }
    requires stand { AllStand net.now ls.now }
    requires few { length ls.now ≤ 64 }
    requires first { IsWord width a }
    requires second { IsWord width b }
{
    let places = width.bits() as usize;
    let mut ins = vec![in alloc; false; 2 * places]?;
    hy_bits::bits_of(width, a, &mut ins[..places]);
    hy_bits::bits_of(width, b, &mut ins[places..]);
    let mut variables = vec![in alloc; false; ins.len() + net.gates().len()]?;
    net.value(&ins, &mut variables);
    let mut spelled = Vec::new(alloc);
    for l in ls {
        spelled.push(bit_of(&variables, *l))?;
    }
    Ok(hy_bits::word_of(&spelled))
}
