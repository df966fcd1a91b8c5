ghost use Rattle.std.specs.Prelude.{◌≡◌, ◌+◌, ◌≤◌, ◌++◌, length, take, drop};
ghost use Rattle.share_core.specs.Garbled.{IsLabel, code_label, hash, label_bytes, label_for, label_if, label_of, label_xor, low_bit, zero_label};

use hy_bits::Role;
use sha2::{Digest, Sha256};
use share_core::{Label, Offset, read_number, write_number};

/// The xor of the labels `a` and `b`: a free XOR.
pub fn label_xor(a: Label, b: Label) -> Label
    ensures value { result ≡ label_xor a b }
    ensures label { IsLabel result }
{
    Label {
        low: a.low ^ b.low,
        high: a.high ^ b.high,
    }
}

/// The label `a` where `bit` is 1, and else the label of zeros.
pub(crate) fn label_if(bit: bool, a: Label) -> Label
    ensures value { result ≡ label_if bit a }
    ensures label { IsLabel result }
{
    if bit { a } else { Label::ZERO }
}

/// The label of `bit` on the wire with the zero label `zero`.
pub fn label_for(offset: Offset, zero: Label, bit: bool) -> Label
    ensures value { result ≡ label_for offset zero bit }
    ensures label { IsLabel result }
{
    let shift = Label {
        low: offset.low,
        high: offset.high,
    };
    label_xor(zero, label_if(bit, shift))
}

/// The permute bit of the label `a`: its lowest bit, bit 0 of its first byte.
pub fn low_bit(a: Label) -> bool
    ensures { result ≡ low_bit a }
{
    a.low % 2 == 1
}

/// The label that `role` has of the bit that `code` means, from its label `label` in the code's slot. Codes 0 and 1 are the
/// constants, whose slot isn't looked at; slot s has the code 2 * s + 2, and an odd code is the complement of the code below
/// it. P0 alone takes the offset, for a complement or the constant 1; P1's label of a constant is zero.
pub fn code_label(role: Role, offset: Offset, code: u32, label: Label) -> Label
    ensures value { result ≡ code_label role offset code label }
    ensures label { IsLabel result }
{
    let named = label_if(code >= 2, label);
    let complemented = match role {
        Role::P0 => code % 2 == 1,
        Role::P1 => false,
    };
    label_for(offset, named, complemented)
}

/// The label whose 16 bytes `bytes` begins with: two words, each lowest byte first.
pub fn read_label(bytes: &[u8]) -> Label
    requires { 16 ≤ length bytes.now }
    ensures value { result ≡ label_of bytes.now }
    ensures label { IsLabel result }
{
    Label {
        low: read_number(&bytes[..8]),
        high: read_number(&bytes[8..16]),
    }
}

/// Writes `label` into the 16 bytes of `out`: its two words, each lowest byte first.
pub fn write_label(label: Label, out: &mut [u8])
    requires { length out.old ≡ 16 }
    ensures { out.new ≡ label_bytes label }
{
    let (first, second) = out.split_at_mut(8);
    write_number(label.low, first);
    write_number(label.high, second);
}

/// Writes `label` into the 16 bytes of `out` from place `at` on, and leaves the others.
pub fn put_label(label: Label, out: &mut [u8], at: usize)
    requires { at + 16 ≤ length out.old }
    ensures { out.new ≡ take at out.old ++ (label_bytes label ++ drop (at + 16) out.old) }
{
    let (_, rest) = out.split_at_mut(at);
    let (place, _) = rest.split_at_mut(16);
    write_label(label, place);
}

/// The hash of the label `key` and a number: the first 16 bytes of SHA-256 of the label's 16 bytes and the number's 8, by one
/// compression.
pub(crate) fn hash(key: Label, number: u64) -> Label
    ensures value { result ≡ hash key number }
    ensures label { IsLabel result }
{
    let mut message = [0; 24];
    let (first, second) = message.split_at_mut(16);
    write_label(key, first);
    write_number(number, second);
    read_label(&Sha256::digest(message.as_slice()))
}
