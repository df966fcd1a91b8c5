ghost use Rattle.std.specs.Prelude.{◌≡◌, ◌*◌, ◌%◌, ◌<◌, if◌then◌else◌, length, map};
ghost use Rattle.hy_bits.specs.Words.{bits, modulus};
ghost use Rattle.share_core.specs.Boolean.{bit_of};
ghost use Rattle.share_core.specs.Dealing.{dealt_masks, dealt_masks_A};
ghost use Rattle.dealer.specs.Drawing.{label_mask, word_mask};

use hy_bits::{Width, truncate};
use share_core::Label;

/// Writes P1's masks of an answer at Y: for each bit the one of r0 and r1 that the choice's word picks.
pub(crate) fn label_masks(w: Width, shares: bool, chosen: u64, words: &[u64], out: &mut [u64])
    requires words { length words.now ≡ (if shares then 8 else 6) * bits w }
    requires room { length out.old ≡ 2 * bits w }
    ensures { out.new ≡ dealt_masks shares w chosen words.now }
{
    for i in 0..w.bits() as usize {
        let mask = label_mask(w, shares, chosen, words, i);
        out[2 * i] = mask.low;
        out[2 * i + 1] = mask.high;
    }
}

/// P1's mask for bit i of an answer at Y.
fn label_mask(w: Width, shares: bool, chosen: u64, words: &[u64], i: usize) -> Label
    requires words { length words.now ≡ (if shares then 8 else 6) * bits w }
    requires within { i < bits w }
    ensures { result ≡ label_mask shares chosen words.now i }
{
    let zero_mask = if shares { 8 * i + 4 } else { 6 * i + 2 };
    let place = if bit_of(chosen, i) {
        zero_mask + 2
    } else {
        zero_mask
    };
    Label {
        low: words[place],
        high: words[place + 1],
    }
}

/// Writes P1's masks of an answer at A: for each bit the one of t0 and t1 that the choice's word picks, as a word.
pub(crate) fn word_masks(w: Width, chosen: u64, words: &[u64], out: &mut [u64])
    requires words { length words.now ≡ 3 * bits w }
    requires room { length out.old ≡ bits w }
    ensures { out.new ≡ dealt_masks_A w chosen words.now }
{
    for i in 0..w.bits() as usize {
        out[i] = word_mask(w, chosen, words, i);
    }
}

/// P1's mask for bit i of an answer at A.
fn word_mask(w: Width, chosen: u64, words: &[u64], i: usize) -> u64
    requires words { length words.now ≡ 3 * bits w }
    requires within { i < bits w }
    ensures { result ≡ word_mask w chosen words.now i }
{
    let place = if bit_of(chosen, i) {
        3 * i + 2
    } else {
        3 * i + 1
    };
    truncate(w, words[place])
}

/// Writes each word cut to the width.
pub(crate) fn cut(w: Width, words: &[u64], out: &mut [u64])
    requires { length out.old ≡ length words.now }
    ensures { out.new ≡ map (λ u. u % modulus w) words.now }
{
    for (place, word) in words.iter().enumerate() {
        out[place] = truncate(w, *word);
    }
}

/// Bit i of a number.
fn bit_of(x: u64, i: usize) -> bool
    requires { i < 64 }
    ensures { result ≡ bit_of x i }
{
    (x >> i) % 2 == 1
}
