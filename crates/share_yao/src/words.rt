ghost use Rattle.std.specs.Prelude.{◌≡◌, ◌≢◌, ◌+◌, ◌*◌, ◌<◌, ◌≤◌, ℕ, length};
ghost use Rattle.hy_bits.specs.Words.{bits, modulus, IsWord};
ghost use Rattle.hy_bits.specs.declared.turns.Role.TheVariants.{P0};
ghost use Rattle.share_core.specs.Boolean.{bit_of};
ghost use Rattle.share_core.specs.Bytes.{byte_count};
ghost use Rattle.share_core.specs.Garbled.{IsLabel, dealt_label, input_label, input_message_Y, low_word, open_message_Y, opened_Y, sent_Y, wire, zero_label};
ghost use Rattle.share_core.specs.Roles.{other};
ghost use Rattle.share_core.specs.declared.instr.InstrKind.TheVariants.{InYP0};

use crate::labels::{label_for, low_bit, put_label, read_label};
use hy_bits::{Role, Width, truncate};
use share_core::{Half, Instr, InstrKind, Label, Offset, byte_count, read_number, write_number};

/// A party's labels of a word: for each bit one, the lowest bit's first, and zeros after them.
#[derive(Clone, Copy)]
pub struct Labels {
    pub list: [Label; 64],
}

impl Labels {
    /// The labels of zeros alone.
    pub fn zero() -> Labels
        ensures { (i : ℕ) → wire result.list i ≡ zero_label }
    {
        Labels {
            list: [Label::ZERO; 64],
        }
    }

    /// Sets the label of bit `i` to `label`.
    pub fn set(&mut self, i: usize, label: Label)
        requires { i < 64 }
        ensures here { wire self.new.list i ≡ label }
        ensures others { (k : ℕ) → k ≢ i → wire self.new.list k ≡ wire self.old.list k }
    {
        self.list[i] = label;
    }
}

/// The number of bytes that the role sends for an instruction at Y, or for one gate of a level: 16 for each label.
pub fn instr_sent(instr: &Instr, role: Role) -> usize
    ensures { result ≡ sent_Y instr.now.kind instr.now.width role }
{
    match (instr.kind, role) {
        (InstrKind::InYP0, Role::P0) => 16 * instr.width.bits() as usize,
        (InstrKind::AndY, Role::P0) => 32,
        (InstrKind::OpenY, _) => byte_count(instr.width),
        _ => 0,
    }
}

/// Writes P0's message for its input `x` into `out`: for each bit the bit's label on the wire whose zero label `half` deals.
pub fn input_send(w: Width, x: u64, offset: Offset, half: &Half, out: &mut [u8])
    requires { length out.old ≡ 16 * bits w }
    ensures { out.new ≡ input_message_Y w offset x half.now.words }
{
    for i in 0..w.bits() as usize {
        let zero = dealt_label(half, 2 * i);
        put_label(label_for(offset, zero, bit_of(x, i)), out, 16 * i);
    }
}

/// The labels that `role` has of an input of P0: P0's are dealt in `half`, P1's are received in `inbox`.
pub fn input_labels(w: Width, role: Role, half: &Half, inbox: &[u8]) -> Labels
    requires { length inbox.now ≡ sent_Y InYP0 w (other role) }
    ensures labels { (i : ℕ) → i < bits w →
        wire result.list i ≡ input_label role half.now.words inbox.now i }
    ensures rest { (i : ℕ) → bits w ≤ i → wire result.list i ≡ zero_label }
{
    let mut labels = Labels::zero();
    for i in 0..w.bits() as usize {
        labels.set(i, input_label(w, role, half, inbox, i));
    }
    labels
}

/// The role's label for bit i of an input of P0.
fn input_label(w: Width, role: Role, half: &Half, inbox: &[u8], i: usize) -> Label
    requires sent { length inbox.now ≡ sent_Y InYP0 w (other role) }
    requires within { i < bits w }
    ensures value { result ≡ input_label role half.now.words inbox.now i }
    ensures label { IsLabel result }
{
    match role {
        Role::P0 => dealt_label(half, 2 * i),
        Role::P1 => read_label(&inbox[16 * i..]),
    }
}

/// The word of the permute bits of a word's labels, which are the party's shares at B of the same word, lowest bit first.
pub fn low_bits(w: Width, labels: &Labels) -> u64
    ensures value { result ≡ low_word w (wire labels.now.list) }
    ensures word { IsWord w result }
{
    let mut word = 0;
    for i in 0..w.bits() as usize {
        word += u64::from(low_bit(labels.list[i])) << i;
    }
    word
}

/// Writes what a party sends for an opening at Y into `out`: the permute bits of `labels`.
pub fn open_send(w: Width, labels: &Labels, out: &mut [u8])
    requires { length out.old ≡ byte_count w }
    ensures { out.new ≡ open_message_Y w (wire labels.now.list) }
{
    write_number(low_bits(w, labels), out);
}

/// The word that an opening at Y gives, from the party's `labels` and the other's message `inbox`.
pub fn opened(w: Width, labels: &Labels, inbox: &[u8]) -> u64
    requires { length inbox.now ≡ byte_count w }
    ensures value { result ≡ opened_Y w (wire labels.now.list) inbox.now }
    ensures word { IsWord w result }
{
    truncate(w, low_bits(w, labels) ^ read_number(inbox))
}

/// The label in places `at` and `at + 1` of `half`.
pub fn dealt_label(half: &Half, at: usize) -> Label
    requires { at + 1 < 512 }
    ensures value { result ≡ dealt_label half.now.words at }
    ensures label { IsLabel result }
{
    Label {
        low: half.words[at],
        high: half.words[at + 1],
    }
}

/// Bit `i` of `x`.
pub fn bit_of(x: u64, i: usize) -> bool
    requires { i < 64 }
    ensures { result ≡ bit_of x i }
{
    (x >> i) % 2 == 1
}
