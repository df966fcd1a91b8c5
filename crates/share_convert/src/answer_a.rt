ghost use Rattle.std.specs.Prelude.{◌≡◌, ◌+◌, ◌*◌, ◌%◌, ◌<◌, ◌≤◌, ℕ, [], drop, length, slice_index};
ghost use Rattle.hy_bits.specs.Words.{bits, modulus, IsWord};
ghost use Rattle.hy_bits.specs.declared.turns.Role.TheVariants.{P0, P1};
ghost use Rattle.share_core.specs.Boolean.{bit_of, xor_of};
ghost use Rattle.share_core.specs.Bytes.{byte_count};
ghost use Rattle.share_core.specs.Conversions.{answer_message_A, answer_sent_A, answer_share_A, picked_word, sum_over, word_piece, worth};

use crate::choice::Chosen;
use hy_bits::{Width, add, sub, truncate};
use share_core::{Half, byte_count, read_number, write_number};
use share_yao::bit_of;

/// Writes P0's answer in words to `chosen` into `out`, by oblivious transfers: for each bit two words, masked, of which P1 gets one.
/// It gives P0's share at A, the sum of what it kept.
pub fn answer_a_send(w: Width, chosen: Chosen, own: u64, dealt: &Half, out: &mut [u8]) -> u64
    requires { length out.old ≡ answer_sent_A w }
    ensures message { out.new ≡ answer_message_A w own chosen.bits dealt.now.words }
    ensures value { result ≡ answer_share_A P0 w 0 dealt.now.words [] }
    ensures word { IsWord w result }
{
    let size = 2 * byte_count(w);
    for i in 0..w.bits() as usize {
        let (_, rest) = out.split_at_mut(size * i);
        let (pair, _) = rest.split_at_mut(size);
        pair_send(w, own, chosen.bits, dealt, i, pair);
    }
    kept(w, dealt)
}

/// P1's share at A from P0's answer `inbox` in words: the sum of the words for its bits, unmasked.
pub fn answer_a_finish(w: Width, chosen: Chosen, dealt: &Half, inbox: &[u8]) -> u64
    requires { length inbox.now ≡ answer_sent_A w }
    ensures value { result ≡ answer_share_A P1 w chosen.bits dealt.now.words inbox.now }
    ensures word { IsWord w result }
{
    let size = 2 * byte_count(w);
    let mut sum = 0;
    for i in 0..w.bits() as usize {
        let pair = &inbox[size * i..];
        sum = add(
            w,
            sum,
            picked_word(w, bit_of(chosen.bits, i), dealt.words[i], pair),
        );
    }
    sum
}

/// Writes the pair of bit i: the word for 0 masked by t0 and the one for 1 by t1, or the other way about where the choice's bit
/// is 1.
fn pair_send(w: Width, own: u64, d: u64, half: &Half, i: usize, out: &mut [u8])
    requires within { i < 64 }
    requires room { length out.old ≡ 2 * byte_count w }
    ensures { out.new ≡ word_piece w own d half.now.words i }
{
    let kept = half.words[3 * i];
    let masks = (half.words[3 * i + 1], half.words[3 * i + 2]);
    let (for_zero, for_one) = if bit_of(d, i) {
        (masks.1, masks.0)
    } else {
        masks
    };
    let (first, second) = out.split_at_mut(byte_count(w));
    write_number(truncate(w, worth(w, own, kept, i, false) ^ for_zero), first);
    write_number(truncate(w, worth(w, own, kept, i, true) ^ for_one), second);
}

/// What P1 is to get for bit i where its bit is `bit`: the bit that the shares stand for, worth two to i, less what P0 keeps.
fn worth(w: Width, own: u64, kept: u64, i: usize, bit: bool) -> u64
    requires { i < 64 }
    ensures value { result ≡ worth w own kept i bit }
    ensures word { IsWord w result }
{
    let whole = u64::from(bit_of(own, i) ^ bit) << i;
    sub(w, truncate(w, whole), truncate(w, kept))
}

/// The word of a pair that the bit picks, unmasked.
fn picked_word(w: Width, x: bool, mask: u64, pair: &[u8]) -> u64
    requires { 2 * byte_count w ≤ length pair.now }
    ensures value { result ≡ picked_word w x mask pair.now }
    ensures word { IsWord w result }
{
    let size = byte_count(w);
    let masked = if x { &pair[size..] } else { pair };
    truncate(w, read_number(&masked[..size]) ^ mask)
}

/// The sum of what P0 keeps for each bit.
fn kept(w: Width, half: &Half) -> u64
    ensures value { result ≡ answer_share_A P0 w 0 half.now.words [] }
    ensures word { IsWord w result }
{
    let mut sum = 0;
    for i in 0..w.bits() as usize {
        sum = add(w, sum, truncate(w, half.words[3 * i]));
    }
    sum
}
