//! One half of an instruction of one party.
ghost use Rattle.std.specs.Prelude.{◌≡◌, ◌+◌, ◌≤◌, ◌<◌, ◌^◌, ◌++◌, [], ◌∷◌, length, slice_get, IfSome};
ghost use Rattle.std.specs.Bool.{OnTrue};
ghost use Rattle.run_words.specs.Views.{count_drawn};
ghost use Rattle.share_core.specs.Roles as roles;
ghost use Rattle.rand_core.specs.Stream.{next_u64};
ghost use Rattle.dealer.specs.Drawing.{left, taken};
ghost use Rattle.word_queue.specs.Ring.{spare};

use byte_queue::Queue;
use dealer::Dealer;
use hy_bits::Role;
use hybrid_plan::Plan;
use party::{Party, Turn};
use rand_core::Rng;
use run_words::{DealtAt, choice_after, words_drawn};
use share_core::Instr;
use word_queue::WordQueue;

/// Where a party stands: at which instruction, whether at its receive half, where the instruction's words begin among those that are
/// kept, and the word of P1's last choice.
#[derive(Clone, Copy)]
pub struct Cursor {
    pub place: usize,
    pub receiving: bool,
    pub at: usize,
    pub chosen: u64,
}

/// The words of the instructions that one party has begun and not both have ended, and how many instructions were begun.
#[derive(Drop)]
pub struct Kept {
    pub words: WordQueue,
    pub begun: usize,
}

/// The other party.
pub fn other(role: Role) -> Role
    ensures { result ≡ roles.other role }
{
    match role {
        Role::P0 => Role::P1,
        Role::P1 => Role::P0,
    }
}

/// The instruction in a place.
fn instr_at(instrs: &[Instr], place: usize) -> Option<Instr>
    ensures value { result ≡ slice_get instrs.now place }
    ensures within { IfSome result (λ instr. place < 2 ^ 62) }
{
    instrs.get(place).copied()
}

/// Draws a word.
fn draw_one<R: Rng + Drop>(words: &mut WordQueue, dealer: &mut Dealer<R>)
    requires { 1 ≤ spare words.old }
    ensures words { words.new.items ≡ words.old.items ++ (next_u64 (R.stream dealer.old.source)).0 ∷ [] }
    ensures source { R.stream dealer.new.source ≡ (next_u64 (R.stream dealer.old.source)).1 }
    ensures room { words.new.room ≡ words.old.room }
{
    let word = dealer.draw();
    words.put(&[word]);
}

/// Draws so many words.
fn draw<R: Rng + Drop>(words: &mut WordQueue, count: usize, dealer: &mut Dealer<R>)
    requires { count ≤ spare words.old }
    ensures words { words.new.items ≡ words.old.items ++ taken count (R.stream dealer.old.source) }
    ensures source { R.stream dealer.new.source ≡ left count (R.stream dealer.old.source) }
    ensures room { words.new.room ≡ words.old.room }
{
    for i in 0..count {
        draw_one(words, dealer);
    }
}

/// Draws the words of the instruction at `place`, where no party has begun it and there is room for them.
fn begin<R: Rng + Drop>(kept: &mut Kept, place: usize, count: usize, dealer: &mut Dealer<R>)
    requires { place < 2 ^ 62 }
    ensures drawn { place ≡ kept.old.begun → count ≤ spare kept.old.words →
        kept.new.words.items ≡ kept.old.words.items ++ taken count (R.stream dealer.old.source) }
    ensures source { place ≡ kept.old.begun → count ≤ spare kept.old.words →
        R.stream dealer.new.source ≡ left count (R.stream dealer.old.source) }
    ensures begun { place ≡ kept.old.begun → count ≤ spare kept.old.words → kept.new.begun ≡ place + 1 }
{
    if place == kept.begun && count <= kept.words.spare() {
        draw(&mut kept.words, count, dealer);
        kept.begun = place + 1;
    }
}

/// Whether so many words stand from a place on.
fn stand(words: &WordQueue, at: usize, count: usize) -> bool
    ensures { OnTrue result (at + count ≤ length words.now.items) }
{
    at <= words.len() && count <= words.len() - at
}

/// Goes on to the next instruction, and gives up the words that no party needs any more.
fn advance(own: &mut Cursor, others: &mut Cursor, kept: &mut Kept, instr: &Instr, gates: &[Instr])
    requires place { own.old.place < 2 ^ 62 }
    requires words { own.old.at + count_drawn instr.now gates.now ≤ length kept.old.words.items }
{
    let count = words_drawn(instr, gates);
    // For the proof: so many words stand, and their number fits.
    let _stand = kept.words.len();
    own.chosen = choice_after(instr, own.chosen, &kept.words, own.at);
    own.receiving = false;
    own.place += 1;
    if own.place <= others.place {
        kept.words.take(count);
        others.at = others.at.saturating_sub(count);
    } else {
        own.at += count;
    }
}

/// The party's next half of an instruction. It never takes memory.
pub fn half_turn<R: Rng + Drop>(
    role: Role,
    plan: &Plan,
    party: &mut Party,
    own: &mut Cursor,
    others: &mut Cursor,
    inbox: &mut Queue,
    outbox: &mut Queue,
    kept: &mut Kept,
    dealer: &mut Dealer<R>,
) -> Turn {
    let instrs = plan.instrs();
    let gates = plan.gates();
    let Some(instr) = instr_at(instrs, own.place) else {
        return Turn::Done;
    };
    let count = words_drawn(&instr, gates);
    begin(kept, own.place, count, dealer);
    if !stand(&kept.words, own.at, count) || !party.is_ready(instrs, gates, inbox, outbox) {
        return Turn::Waits;
    }
    let halves = DealtAt {
        words: &kept.words,
        at: own.at,
        instr,
        gates,
        chosen: own.chosen,
    };
    let answer = party.turn(instrs, gates, plan.codes(), &halves, inbox, outbox);
    if answer == Turn::Moved {
        if !own.receiving && instr.kind.has_frame(other(role)) {
            own.receiving = true;
        } else {
            advance(own, others, kept, &instr, gates);
        }
    }
    answer
}
