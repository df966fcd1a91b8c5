ghost use Rattle.std.specs.Prelude.{◌≡◌, length};
ghost use Rattle.hy_bits.specs.declared.turns.Role.TheVariants.{P0, P1};
ghost use Rattle.rand_core.specs.Stream.{next_u64};
ghost use Rattle.share_core.specs.Dealing.{choice_after, dealt, drawn};
ghost use Rattle.share_core.specs.Garbled.{no_offset};
ghost use Rattle.share_core.specs.Instructions.{half_of};
ghost use Rattle.dealer.specs.Drawing.{left, offset_after, taken};

use crate::halves::{choice_after, half_of, offset_after, words_of};
use hy_bits::Role;
use rand_core::Rng;
use share_core::{Half, Instr, Offset};

/// A dealer of correlated randomness over a source of words. It keeps the run's free-XOR offset, which is `Offset::NONE` until it is
/// dealt, and the word of P1's last choice.
#[derive(Drop)]
pub struct Dealer<R> {
    pub source: R,
    pub offset: Offset,
    pub chosen: u64,
}

impl<R: Rng + Drop> Dealer<R> {
    /// A dealer over `source` that has dealt nothing.
    pub fn new(source: R) -> Dealer<R>
        ensures source { result.source ≡ source }
        ensures offset { result.offset ≡ no_offset }
        ensures chosen { result.chosen ≡ 0 }
    {
        Dealer {
            source,
            offset: Offset::NONE,
            chosen: 0,
        }
    }

    /// The next word of the source.
    pub fn draw(&mut self) -> u64
        ensures word { result ≡ (next_u64 (R.stream self.old.source)).0 }
        ensures source { R.stream self.new.source ≡ (next_u64 (R.stream self.old.source)).1 }
        ensures offset { self.new.offset ≡ self.old.offset }
        ensures chosen { self.new.chosen ≡ self.old.chosen }
    {
        self.source.next_u64()
    }

    /// Draws the words of `instr`, or of it as one gate of a level, and gives P0's half and P1's.
    pub fn next(&mut self, instr: &Instr) -> (Half, Half)
        ensures halves { let i = instr.now in
            let words = taken (drawn i.kind i.width) (R.stream self.old.source) in
            (result.0.words ≡ half_of (dealt i.kind i.width P0 self.old.chosen words)) × (result.1.words ≡ half_of (dealt i.kind i.width P1 self.old.chosen words)) }
        ensures source { let count = drawn instr.now.kind instr.now.width in
            R.stream self.new.source ≡ left count (R.stream self.old.source) }
        ensures offset { let i = instr.now in
            let words = taken (drawn i.kind i.width) (R.stream self.old.source) in
            self.new.offset ≡ offset_after i.kind words self.old.offset }
        ensures chosen { let i = instr.now in
            let words = taken (drawn i.kind i.width) (R.stream self.old.source) in
            self.new.chosen ≡ choice_after i.kind i.width self.old.chosen words }
    {
        let mut buffer = [0; 512];
        let words = &mut buffer[..words_of(instr) as usize];
        self.fill(words);
        let halves = (
            half_of(instr, Role::P0, self.chosen, words),
            half_of(instr, Role::P1, self.chosen, words),
        );
        self.offset = offset_after(instr, self.offset, words);
        self.chosen = choice_after(instr, self.chosen, words);
        halves
    }

    /// Draws as many words as `words` has room for.
    fn fill(&mut self, words: &mut [u64])
        ensures words { words.new ≡ taken (length words.old) (R.stream self.old.source) }
        ensures source { R.stream self.new.source ≡ left (length words.old) (R.stream self.old.source) }
        ensures offset { self.new.offset ≡ self.old.offset }
        ensures chosen { self.new.chosen ≡ self.old.chosen }
    {
        for word in words.iter_mut() {
            *word = self.draw();
        }
    }
}
