ghost use Rattle.std.specs.Prelude.{◌≡◌, ◌+◌, ◌*◌, ◌<◌, ◌≤◌, ℕ, true, [], drop, length};
ghost use Rattle.share_core.specs.Boolean.{bit_of};
ghost use Rattle.hy_bits.specs.Words.{bits};
ghost use Rattle.hy_bits.specs.declared.turns.Role.TheVariants.{P0, P1};
ghost use Rattle.share_core.specs.Conversions.{answer_label, answer_message, answer_sent, own_label, pair_message, pair_piece, pair_place, pairs_begin, pick, picked_label, share_piece};
ghost use Rattle.share_core.specs.Garbled.{IsLabel, dealt_label, joined, label_of, wire, zero_label};
ghost use Rattle.share_convert.specs.Answers.{is_of_shares, own_share};

use crate::choice::Chosen;
use hy_bits::Width;
use share_core::{Half, Label, Offset};
use share_yao::{
    Labels, bit_of, dealt_label, label_for, label_xor, put_label, read_label, write_label,
};

/// A party's labels of the two words of a conversion to Y: those of P0's share in `a`, and those of P1's word in `b`. For an
/// input of P1 those in `a` are all zero.
#[derive(Clone, Copy)]
pub struct Wires {
    pub a: Labels,
    pub b: Labels,
}

/// Writes P0's answer in labels to `chosen` into `out`, by oblivious transfers: for shares first the labels of P0's own share `own`, then
/// for each bit the two labels of the wire, masked. It gives P0's own zero labels. For an input of P1 `own` is None.
pub fn answer_y_send(
    w: Width,
    chosen: Chosen,
    own: Option<u64>,
    offset: Offset,
    dealt: &Half,
    out: &mut [u8],
) -> Wires
    requires { length out.old ≡ answer_sent (is_of_shares own) w }
    ensures message { let half = dealt.now.words in
        out.new ≡ answer_message (is_of_shares own) w offset (own_share own) chosen.bits half }
    ensures a { (i : ℕ) → i < bits w →
        wire result.a.list i ≡ own_label P0 (is_of_shares own) dealt.now.words [] i }
    ensures b { (i : ℕ) → i < bits w →
        wire result.b.list i ≡ answer_label P0 (is_of_shares own) w 0 dealt.now.words [] i }
    ensures rest { (i : ℕ) → bits w ≤ i →
        (wire result.a.list i ≡ zero_label) × (wire result.b.list i ≡ zero_label) }
{
    match own {
        None => {
            pairs_send(w, false, chosen.bits, offset, dealt, out);
            Wires {
                a: Labels::zero(),
                b: pair_wires(w, false, dealt),
            }
        }
        Some(own) => {
            let (first, second) = out.split_at_mut(16 * w.bits() as usize);
            own_send(w, own, offset, dealt, first);
            pairs_send(w, true, chosen.bits, offset, dealt, second);
            Wires {
                a: own_wires(w, dealt),
                b: pair_wires(w, true, dealt),
            }
        }
    }
}

/// P1's labels from P0's answer `inbox` in labels: where `shares` is true those of P0's share, as they are sent, and those of P1's own
/// word, each from the pair for its bit.
pub fn answer_y_finish(w: Width, chosen: Chosen, shares: bool, dealt: &Half, inbox: &[u8]) -> Wires
    requires { length inbox.now ≡ answer_sent shares w }
    ensures a { (i : ℕ) → i < bits w →
        wire result.a.list i ≡ own_label P1 shares dealt.now.words inbox.now i }
    ensures b { (i : ℕ) → i < bits w →
        wire result.b.list i ≡ answer_label P1 shares w chosen.bits dealt.now.words inbox.now i }
    ensures rest { (i : ℕ) → bits w ≤ i →
        (wire result.a.list i ≡ zero_label) × (wire result.b.list i ≡ zero_label) }
{
    if shares {
        Wires {
            a: sent_labels(w, inbox),
            b: picked_labels(w, chosen.bits, dealt, &inbox[16 * w.bits() as usize..]),
        }
    } else {
        Wires {
            a: Labels::zero(),
            b: picked_labels(w, chosen.bits, dealt, inbox),
        }
    }
}

/// Writes the labels of P0's own share, one for each bit.
fn own_send(w: Width, own: u64, offset: Offset, half: &Half, out: &mut [u8])
    requires { length out.old ≡ 16 * bits w }
    ensures { out.new ≡ joined (bits w) (λ i. share_piece offset own half.now.words i) }
{
    for i in 0..w.bits() as usize {
        let zero = dealt_label(half, 8 * i);
        put_label(label_for(offset, zero, bit_of(own, i)), out, 16 * i);
    }
}

/// Writes for each bit the pair of labels for P1's word.
fn pairs_send(w: Width, shares: bool, d: u64, offset: Offset, half: &Half, out: &mut [u8])
    requires { length out.old ≡ 32 * bits w }
    ensures { out.new ≡ joined (bits w) (λ i. pair_piece shares offset d half.now.words i) }
{
    for i in 0..w.bits() as usize {
        let (_, rest) = out.split_at_mut(32 * i);
        let (pair, _) = rest.split_at_mut(32);
        pair_send(shares, d, offset, half, i, pair);
    }
}

/// Writes the pair of bit i: the label for 0 masked by r0 and the one for 1 by r1, or the other way about where the choice's
/// bit is 1.
fn pair_send(shares: bool, d: u64, offset: Offset, half: &Half, i: usize, out: &mut [u8])
    requires within { i < 64 }
    requires room { length out.old ≡ 32 }
    ensures { out.new ≡ pair_piece shares offset d half.now.words i }
{
    let place = pair_place(shares, i);
    let zero = dealt_label(half, place);
    let first_mask = dealt_label(half, place + 2);
    let second_mask = dealt_label(half, place + 4);
    let turned = bit_of(d, i);
    let (first, second) = out.split_at_mut(16);
    let for_zero = label_xor(zero, pick(turned, first_mask, second_mask));
    let one = label_for(offset, zero, true);
    let for_one = label_xor(one, pick(turned, second_mask, first_mask));
    write_label(for_zero, first);
    write_label(for_one, second);
}

/// The one of two labels that the bit picks.
fn pick(bit: bool, none: Label, one: Label) -> Label
    ensures { result ≡ pick bit none one }
{
    if bit { one } else { none }
}

/// The place of a wire's zero label in P0's half; its two masks stand after it.
fn pair_place(shares: bool, i: usize) -> usize
    requires { i < 64 }
    ensures place { result ≡ pair_place shares i }
    ensures within { result + 5 < 512 }
{
    if shares { 8 * i + 2 } else { 6 * i }
}

/// P0's labels of its own share: the dealt zero labels.
fn own_wires(w: Width, half: &Half) -> Labels
    ensures labels { (i : ℕ) → i < bits w →
        wire result.list i ≡ own_label P0 true half.now.words [] i }
    ensures rest { (i : ℕ) → bits w ≤ i → wire result.list i ≡ zero_label }
{
    let mut labels = Labels::zero();
    for i in 0..w.bits() as usize {
        labels.set(i, dealt_label(half, 8 * i));
    }
    labels
}

/// P0's labels of P1's word: the dealt zero labels.
fn pair_wires(w: Width, shares: bool, half: &Half) -> Labels
    ensures labels { (i : ℕ) → i < bits w →
        wire result.list i ≡ answer_label P0 shares w 0 half.now.words [] i }
    ensures rest { (i : ℕ) → bits w ≤ i → wire result.list i ≡ zero_label }
{
    let mut labels = Labels::zero();
    for i in 0..w.bits() as usize {
        labels.set(i, dealt_label(half, pair_place(shares, i)));
    }
    labels
}

/// P1's labels of P0's share, as they are sent.
fn sent_labels(w: Width, inbox: &[u8]) -> Labels
    requires { 16 * bits w ≤ length inbox.now }
    ensures labels { (i : ℕ) → i < bits w → wire result.list i ≡ label_of (drop (16 * i) inbox.now) }
    ensures rest { (i : ℕ) → bits w ≤ i → wire result.list i ≡ zero_label }
{
    let mut labels = Labels::zero();
    for i in 0..w.bits() as usize {
        labels.set(i, read_label(&inbox[16 * i..]));
    }
    labels
}

/// P1's labels of its own word, each from the pair for its bit.
fn picked_labels(w: Width, x: u64, half: &Half, pairs: &[u8]) -> Labels
    requires { length pairs.now ≡ 32 * bits w }
    ensures labels { (i : ℕ) → i < bits w →
        wire result.list i ≡ picked_label (bit_of x i) (dealt_label half.now.words (2 * i)) (drop (32 * i) pairs.now) }
    ensures rest { (i : ℕ) → bits w ≤ i → wire result.list i ≡ zero_label }
{
    let mut labels = Labels::zero();
    for i in 0..w.bits() as usize {
        labels.set(
            i,
            picked_label(bit_of(x, i), dealt_label(half, 2 * i), &pairs[32 * i..]),
        );
    }
    labels
}

/// The label of a pair that the bit picks, unmasked.
fn picked_label(x: bool, mask: Label, pair: &[u8]) -> Label
    requires { 32 ≤ length pair.now }
    ensures value { result ≡ picked_label x mask pair.now }
    ensures label { IsLabel result }
{
    let cipher = pick(x, read_label(pair), read_label(&pair[16..]));
    label_xor(cipher, mask)
}
