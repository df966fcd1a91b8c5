//! Reads and writes at a place of a list that stands in two pieces, `high` before `low`.
ghost use Rattle.std.specs.Prelude.{◌≡◌, ◌+◌, ◌≤◌, ◌++◌, length, take, drop};
ghost use Rattle.word_queue.specs.Ring.{rotated};

/// Writes `words` into `out` from place `at` on, and leaves the others.
fn write_at(out: &mut [u64], at: usize, words: &[u64])
    requires { at + length words.now ≤ length out.old }
    ensures { out.new ≡ take at out.old ++ (words.now ++ drop (at + length words.now) out.old) }
{
    let (_, rest) = out.split_at_mut(at);
    let (place, _) = rest.split_at_mut(words.len());
    place.copy_from_slice(words);
}

/// Writes `words` from place `at` on into `high` and, past its end, into `low`.
#[tactic(auto, using(crate::proofs::Inside::across_low, crate::proofs::Inside::across_both))]
fn write_across(high: &mut [u64], low: &mut [u64], at: usize, words: &[u64])
    requires { at + length words.now ≤ length high.old + length low.old }
    ensures { let all = high.old ++ low.old in
        high.new ++ low.new ≡ take at all ++ (words.now ++ drop (at + length words.now) all) }
{
    if at >= high.len() {
        write_at(low, at - high.len(), words);
    } else if words.len() <= high.len() - at {
        write_at(high, at, words);
    } else {
        let (first, second) = words.split_at(high.len() - at);
        write_at(high, at, first);
        write_at(low, 0, second);
    }
}

/// Writes `words` into a ring whose front stands at `first`, from place `at` on, counted from the front.
pub(crate) fn write_ring(ring: &mut [u64], first: usize, at: usize, words: &[u64])
    requires front { first ≤ length ring.old }
    requires room { at + length words.now ≤ length ring.old }
    ensures { let all = rotated first ring.old in
        rotated first ring.new ≡ take at all ++ (words.now ++ drop (at + length words.now) all) }
{
    let (low, high) = ring.split_at_mut(first);
    write_across(high, low, at, words);
}

/// Copies the words from place `at` on, of `high` and past its end of `low`, into `out`, as many as it has room for.
pub(crate) fn read_across(high: &[u64], low: &[u64], at: usize, out: &mut [u64])
    requires { at + length out.old ≤ length high.now + length low.now }
    ensures { out.new ≡ take (length out.old) (drop at (high.now ++ low.now)) }
{
    let wanted = out.len();
    if at >= high.len() {
        let from = at - high.len();
        out.copy_from_slice(&low[from..from + wanted]);
    } else if wanted <= high.len() - at {
        out.copy_from_slice(&high[at..at + wanted]);
    } else {
        let (first, second) = out.split_at_mut(high.len() - at);
        first.copy_from_slice(&high[at..]);
        second.copy_from_slice(&low[..wanted - (high.len() - at)]);
    }
}
