//! Halves made of kept words.
ghost use Rattle.std.specs.Prelude.{◌≡◌, ◌+◌, ◌*◌, ◌≤◌, ◌<◌, ◌^◌, true, [], length, drop, take, slice_get};
ghost use Rattle.share_core.specs.Dealing.{choice_after, dealt, drawn};
ghost use Rattle.share_core.specs.Instructions.{half_of};
ghost use Rattle.share_core.specs.Levels.{gates_of, is_level};
ghost use Rattle.run_words.specs.Views.{count_drawn, gate_half, gate_kind, gate_words, half_by};

use dealer::half_of;
use hy_bits::{Role, truncate};
use share_core::{Half, Halves, Instr, InstrKind};
use word_queue::WordQueue;

/// The halves of one instruction of a plan with these `gates`. Its words stand in `words` from place `at` on, and `chosen` is the word
/// of P1's last choice.
#[derive(Clone, Copy)]
pub struct DealtAt<'a> {
    pub words: &'a WordQueue,
    pub at: usize,
    pub instr: Instr,
    pub gates: &'a [Instr],
    pub chosen: u64,
    ghost whole: { at + count_drawn instr gates.now ≤ length words.now.items },
}

/// The gates of a level.
fn gates_of<'g>(level: &Instr, gates: &'g [Instr]) -> &'g [Instr]
    ensures { result.now ≡ gates_of level.now gates.now }
{
    let left = level.left as usize;
    let right = level.right as usize;
    if gates.len() <= left {
        &[]
    } else if gates.len() - left <= right {
        &gates[left..]
    } else {
        &gates[left..left + right]
    }
}

/// Whether an instruction is a level.
fn is_level(kind: InstrKind) -> bool
    ensures { result ≡ is_level kind }
{
    match kind {
        InstrKind::LevelA | InstrKind::LevelB | InstrKind::LevelY => true,
        _ => false,
    }
}

/// The kind of the gates of a level.
fn gate_kind(level: InstrKind) -> InstrKind
    ensures { result ≡ gate_kind level }
{
    match level {
        InstrKind::LevelA => InstrKind::MulA,
        InstrKind::LevelB => InstrKind::AndB,
        _ => InstrKind::AndY,
    }
}

/// How many words are drawn for a gate of a level.
fn gate_words(level: InstrKind) -> usize
    ensures value { result ≡ gate_words level }
    ensures few { result ≤ 5 }
{
    match level {
        InstrKind::LevelA => 5,
        InstrKind::LevelB => 1,
        _ => 0,
    }
}

/// How many words are drawn for an instruction.
pub fn words_drawn(instr: &Instr, gates: &[Instr]) -> usize
    ensures { result ≡ count_drawn instr.now gates.now }
{
    if is_level(instr.kind) {
        let count = gates_of(instr, gates).len();
        match instr.kind {
            InstrKind::LevelA => 5 * count,
            InstrKind::LevelB => count,
            _ => 0,
        }
    } else {
        dealer::words_of(instr) as usize
    }
}

/// The word of P1's last choice after an instruction whose words stand in `words` from place `at` on.
pub fn choice_after(instr: &Instr, chosen: u64, words: &WordQueue, at: usize) -> u64
    requires { at + drawn instr.now.kind instr.now.width ≤ length words.now.items }
    ensures { result ≡ choice_after instr.now.kind instr.now.width chosen (drop at words.now.items) }
{
    match instr.kind {
        InstrKind::ChooseIn | InstrKind::ChooseA | InstrKind::ChooseB => {
            truncate(instr.width, words.word(at))
        }
        _ => chosen,
    }
}

impl DealtAt<'_> {
    /// The half of an instruction whose words stand from a place on.
    fn half_at(&self, instr: &Instr, role: Role, chosen: u64, at: usize) -> Half
        requires { at + drawn instr.now.kind instr.now.width ≤ length self.now.words.now.items }
        ensures { let words = take (drawn instr.now.kind instr.now.width) (drop at self.now.words.now.items) in
            result.words ≡ half_of (dealt instr.now.kind instr.now.width role chosen words) }
    {
        let mut buffer = [0; 512];
        let words = &mut buffer[..dealer::words_of(instr) as usize];
        self.words.copy(at, words);
        half_of(instr, role, chosen, words)
    }

    /// Where the words of the gate `k` of a level stand.
    fn gate_place(&self, k: usize) -> usize
        requires level { is_level self.now.instr.kind ≡ true }
        requires within { k < length (gates_of self.now.instr self.now.gates.now) }
        ensures place { result ≡ self.now.at + k * gate_words self.now.instr.kind }
        ensures whole { result + gate_words self.now.instr.kind ≤ length self.now.words.now.items }
    {
        // For the proof: so many words stand, and their number fits.
        let _count = self.words.len();
        match self.instr.kind {
            InstrKind::LevelA => self.at + k * 5,
            InstrKind::LevelB => self.at + k,
            _ => self.at,
        }
    }

    /// The half of the gate `gate` of a level, which has the number `k`.
    fn half_of_gate(&self, role: Role, gate: &Instr, k: usize) -> Half
        requires level { is_level self.now.instr.kind ≡ true }
        requires within { k < length (gates_of self.now.instr self.now.gates.now) }
        ensures { result.words ≡ gate_half role self.now.instr.kind (Some gate.now) (drop self.now.at self.now.words.now.items) k }
    {
        let kind = gate_kind(self.instr.kind);
        let at = self.gate_place(k);
        self.half_at(&Instr { kind, ..*gate }, role, 0, at)
    }

    /// The half of the gate `k` of a level.
    fn gate_half(&self, role: Role, k: usize) -> Half
        requires { is_level self.now.instr.kind ≡ true }
        ensures { result.words ≡ gate_half role self.now.instr.kind (slice_get (gates_of self.now.instr self.now.gates.now) k) (drop self.now.at self.now.words.now.items) k }
    {
        match gates_of(&self.instr, self.gates).get(k) {
            Some(gate) => self.half_of_gate(role, gate, k),
            None => no_half(),
        }
    }
}

/// A half with no word.
fn no_half() -> Half
    ensures { result.words ≡ half_of [] }
{
    Half { words: [0; 512] }
}

impl Halves for DealtAt<'_> {
    ghost use Rattle.std.specs.Prelude.{drop};
    ghost use Rattle.run_words.specs.Views.{half_by};

    ghost meant = { λ d role k. record { words = half_by role d.instr d.gates.now d.chosen (drop d.at d.words.now.items) k } };

    fn half(&self, role: Role, k: u32) -> Half {
        if is_level(self.instr.kind) {
            self.gate_half(role, k as usize)
        } else {
            self.half_at(&self.instr, role, self.chosen, self.at)
        }
    }
}
