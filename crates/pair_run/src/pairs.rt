//! Both parties of a plan.
ghost use Rattle.std.specs.Prelude.{◌≡◌, false, length, IfOk};
ghost use Rattle.share_core.specs.Roles as roles;
ghost use Rattle.pair_run.specs.Runs.{Begins, party_of};

use crate::halves::{Cursor, Kept, half_turn};
use byte_queue::Queue;
use dealer::Dealer;
use hy_bits::{Inputs, Memory, Role};
use hybrid_plan::Plan;
use party::{Party, Turn};
use rand_core::Rng;
use std::alloc::Global;
use word_queue::WordQueue;

/// Two parties of a plan, the queues between them, and the words that are kept.
#[derive(Drop)]
pub struct Pair {
    plan: Plan,
    first: Party,
    second: Party,
    first_at: Cursor,
    second_at: Cursor,
    from_first: Queue,
    from_second: Queue,
    kept: Kept,
}

/// Before the first instruction.
fn cursor() -> Cursor
    ensures { result ≡ record { place = 0; receiving = false; at = 0; chosen = 0 } }
{
    Cursor {
        place: 0,
        receiving: false,
        at: 0,
        chosen: 0,
    }
}

impl Pair {
    /// Two parties that have done nothing, with these words of their own. It takes time linear in the plan.
    ///
    /// # Errors
    ///
    /// Memory ran out.
    pub fn new(alloc: Global, plan: Plan, first: &Inputs, second: &Inputs) -> Result<Pair, Memory>
        ensures { IfOk result (Begins plan first.now second.now) }
    {
        let instrs = plan.instrs();
        let gates = plan.gates();
        let figures = plan.figures();
        let first = Party::new(alloc, Role::P0, instrs, gates, plan.shares(), first)?;
        let second = Party::new(alloc, Role::P1, instrs, gates, plan.shares(), second)?;
        let from_first = Queue::new(alloc, figures.stretch_bytes[0] as usize)?;
        let from_second = Queue::new(alloc, figures.stretch_bytes[1] as usize)?;
        let words = WordQueue::new(alloc, figures.stretch_words as usize)?;
        Ok(Pair {
            plan,
            first,
            second,
            first_at: cursor(),
            second_at: cursor(),
            from_first,
            from_second,
            kept: Kept { words, begun: 0 },
        })
    }

    /// The plan.
    pub fn plan(&self) -> &Plan
        ensures { result.now ≡ self.now.plan }
    {
        &self.plan
    }

    /// The first party.
    pub fn party(&self) -> &Party
        ensures { result.now ≡ self.now.first }
    {
        &self.first
    }

    /// The bytes that the party has sent and the other has not taken.
    pub fn outbox(&self, role: Role) -> &Queue {
        match role {
            Role::P0 => &self.from_first,
            Role::P1 => &self.from_second,
        }
    }

    /// How many words are kept.
    pub fn kept(&self) -> u64
        ensures { result ≡ length self.now.kept.words.items }
    {
        self.kept.words.len() as u64
    }

    /// Whether both parties have ended the plan.
    pub fn done(&self) -> bool {
        let count = self.plan.instrs().len();
        self.first_at.place >= count && self.second_at.place >= count
    }

    /// The party's next half of an instruction. The other party stays as it was.
    pub fn step<R: Rng + Drop>(&mut self, role: Role, dealer: &mut Dealer<R>) -> Turn
        ensures other { party_of (roles.other role) self.new ≡ party_of (roles.other role) self.old }
        ensures plan { self.new.plan ≡ self.old.plan }
    {
        match role {
            Role::P0 => half_turn(
                role,
                &self.plan,
                &mut self.first,
                &mut self.first_at,
                &mut self.second_at,
                &mut self.from_second,
                &mut self.from_first,
                &mut self.kept,
                dealer,
            ),
            Role::P1 => half_turn(
                role,
                &self.plan,
                &mut self.second,
                &mut self.second_at,
                &mut self.first_at,
                &mut self.from_first,
                &mut self.from_second,
                &mut self.kept,
                dealer,
            ),
        }
    }
}
