//! Runs of two parties.
ghost use Rattle.std.specs.Prelude.{◌≡◌, ◌+◌, ◌*◌, ◌<◌, ◌≤◌, length, slice_get, slice_index, IfOk};
ghost use Rattle.hy_bits.specs.declared.turns.Role.TheVariants.{P0, P1};
ghost use Rattle.hy_bits.specs.Ports.{own_of, owners};
ghost use Rattle.share_core.specs.Roles as roles;
ghost use Rattle.share_plan.specs.Answers.{answers_of};
ghost use Rattle.share_plan.specs.Planned.{script_of};
ghost use Rattle.hybrid_plan.specs.Plans.{IsPlanOf};
ghost use Rattle.frame_digests.specs.Fed.{Bytes, Fed, digests_of, nothing};
ghost use Rattle.pair_run.specs.Runs.{Begins, party_of, word_by};

use crate::halves::other;
use crate::inputs::own_words;
use crate::owners::owners_of;
use crate::pairs::Pair;
use bundle_core::Bundle;
use dealer::Dealer;
use frame_digests::Digests;
use hy_bits::{Inputs, Memory, Role, Sequence, Turns};
use hybrid_plan::plan;
use party::{Party, Turn};
use rand_core::Rng;
use share_plan::{Answer, answers_of};
use std::alloc::Global;

/// Two parties that run the plan of a bundle, over the dealer's words.
#[derive(Drop)]
pub struct PairRun<R> {
    pair: Pair,
    answers: Sequence<Answer>,
    digests: Digests,
    /// How many halves of instructions the plan has.
    moves: u64,
    dealer: Dealer<R>,
}

/// What a run has sent: how many halves of instructions were done, the bytes of each party, and the SHA-256 digests of P0's frames, of P1's, and
/// of all frames in the order in which they were sent.
#[derive(Clone, Copy, PartialEq, Eq, Debug)]
pub struct Opened {
    pub moves: u64,
    pub sent: [u64; 2],
    pub digests: [[u8; 32]; 3],
}

/// How many halves of instructions there are: a send half of each for each party, and a receive half of each frame.
///
/// # Errors
///
/// 64 bits don't hold the number.
fn halves_of(instrs: usize, receives: u64) -> Result<u64, Memory>
    ensures { IfOk result (λ n. n ≡ 2 * instrs + receives) }
{
    let sends = (instrs as u64).checked_mul(2).ok_or(Memory)?;
    sends.checked_add(receives).ok_or(Memory)
}

/// The role whose turn the k-th one is.
fn role_at(roles: &[Role], k: usize) -> Role
    requires { 1 ≤ length roles.now }
{
    roles[k % roles.len()]
}

/// The word that an opening gave; 0 where the party has not ended it.
fn word_opened(party: &Party, opening: u32) -> u64
    ensures { opening < party.now.openings → result ≡ slice_index party.now.words opening }
{
    if (opening as usize) < party.openings() {
        party.opened(opening)
    } else {
        0
    }
}

impl<R: Rng + Drop> PairRun<R> {
    /// Both parties before the first instruction of the bundle's plan, with their words of `inputs`, which fit the bundle's ports. It takes
    /// all memory that the run needs, in time linear in the bundle.
    ///
    /// # Errors
    ///
    /// Memory ran out.
    pub fn new(
        alloc: Global,
        bundle: &Bundle,
        inputs: &Inputs,
        dealer: Dealer<R>,
    ) -> Result<PairRun<R>, Memory>
        ensures plan { IfOk result (λ run. IsPlanOf (script_of bundle.now.parts bundle.now.choices) run.pair.plan) }
        ensures begins { IfOk result (λ run.
            Begins run.pair.plan (own_of P0 (owners bundle.now.parts.ports) inputs.now) (own_of P1 (owners bundle.now.parts.ports) inputs.now) run.pair) }
        ensures answers { IfOk result (λ run. run.answers ≡ answers_of bundle.now.parts.graph bundle.now.parts.results) }
        ensures digests { IfOk result (λ run. Fed run.digests nothing) }
        ensures dealer { IfOk result (λ run. run.dealer ≡ dealer) }
    {
        let parts = bundle.parts();
        let owners = owners_of(alloc, parts.ports.as_slice())?;
        let first = own_words(alloc, Role::P0, owners.as_slice(), inputs.words())?;
        let second = own_words(alloc, Role::P1, owners.as_slice(), inputs.words())?;
        let answers = answers_of(alloc, parts.graph.entries(), parts.results.as_slice())?;
        let plan = plan(alloc, bundle)?;
        let moves = halves_of(plan.instrs().len(), plan.figures().receives)?;
        let pair = Pair::new(alloc, plan, &first, &second)?;
        Ok(PairRun {
            pair,
            moves,
            answers: Sequence::new(answers),
            digests: Digests::new(),
            dealer,
        })
    }

    /// The party's next half of an instruction: `Moved`, or `Waits` where the party waits for a frame, or `Done`. The other party stays as it
    /// was. It takes time linear in the gates of a level and in the bytes that are sent, and else constant time.
    pub fn step(&mut self, role: Role) -> Turn
        ensures other { party_of (roles.other role) self.new.pair ≡ party_of (roles.other role) self.old.pair }
        ensures plan { self.new.pair.plan ≡ self.old.pair.plan }
        ensures moves { self.new.moves ≡ self.old.moves }
        ensures answers { self.new.answers ≡ self.old.answers }
    {
        let before = self.pair.outbox(role).len();
        let answer = self.pair.step(role, &mut self.dealer);
        self.digests.note(role, self.pair.outbox(role), before);
        answer
    }

    /// A step of the role, or of the other where the role can't move.
    fn turn(&mut self, role: Role)
        ensures plan { self.new.pair.plan ≡ self.old.pair.plan }
        ensures moves { self.new.moves ≡ self.old.moves }
    {
        if self.step(role) != Turn::Moved {
            self.step(other(role));
        }
    }

    /// Steps by the list of turns until both parties have ended: whose turn it is moves where it can, else the other. A second call answers
    /// the same.
    pub fn finish(&mut self, turns: &Turns) -> Opened
        ensures moves { result.moves ≡ self.old.moves }
        ensures sent { result.sent ≡ self.old.pair.plan.figures.bytes }
        ensures digests { (b : Bytes) → Fed self.new.digests b → result.digests ≡ digests_of b }
    {
        let roles = turns.roles();
        for k in 0..self.moves as usize {
            self.turn(role_at(roles, k));
        }
        let figures = self.pair.plan().figures();
        let sent = figures.bytes;
        let digests = self.digests.ends();
        Opened {
            moves: self.moves,
            sent,
            digests,
        }
    }

    /// How many words are kept: those of the instructions that one party has begun and not both have ended.
    pub fn kept(&self) -> u64
        ensures { result ≡ length self.now.pair.kept.words.items }
    {
        self.pair.kept()
    }

    /// Whether both parties have ended.
    pub fn done(&self) -> bool {
        self.pair.done()
    }

    /// The word of the result `k`, counted from 0, after both parties have ended.
    pub fn word(&self, k: u32) -> u64 {
        match self.answers.as_slice().get(k as usize) {
            Some(Answer::Known(number)) => *number,
            Some(Answer::Opening(opening)) => word_opened(self.pair.party(), *opening),
            None => 0,
        }
    }
}
