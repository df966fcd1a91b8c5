//! Slots that are held, free or new.
ghost use Rattle.std.specs.Prelude.{◌≡◌, ◌-◌, length, map, slice_set, take, IfOk, OnOk};
ghost use Rattle.plan_slots.specs.Allocation.{count_after, life_at, next_slot, slot_in};

use hy_bits::Memory;
use plan_script::sum;
use std::alloc::Global;
use std::marker::Model;

/// The life of a share: it has no slot yet, it holds one, or it is used no more and its slot was given back.
#[derive(Clone, Copy)]
pub enum Life {
    Unmade,
    Held(u32),
    Ended(u32),
}

/// The life of a share. One that isn't counted is never given a slot.
fn life_at(lives: &[Life], share: u32) -> Life
    ensures { result ≡ life_at lives.now share }
{
    match lives.get(share as usize) {
        Some(life) => *life,
        None => Life::Ended(0),
    }
}

/// Sets the life of a share.
fn set_life(lives: &mut [Life], share: u32, life: Life)
    ensures { lives.new ≡ slice_set lives.old share life }
{
    let place = share as usize;
    if place < lives.len() {
        lives[place] = life;
    }
}

/// Takes the last free slot, or the next new one.
fn take_slot(free: &mut Vec<u32>, count: &mut u32) -> Result<u32, Memory>
    ensures slot { IfOk result (λ slot. slot ≡ next_slot free.old.items count.old) }
    ensures free { OnOk result (free.new.items ≡ take (length free.old.items - 1) free.old.items) }
    ensures count { OnOk result (count.new ≡ count_after free.old.items count.old) }
{
    match free.pop() {
        Some(slot) => Ok(slot),
        None => {
            let slot = *count;
            *count = sum(slot, 1)?;
            Ok(slot)
        }
    }
}

/// The lives of shares, the slots that are free, and how many slots there are.
#[derive(Drop)]
pub struct Allocation {
    lives: Vec<Life>,
    free: Vec<u32>,
    count: u32,
}

impl Model for Allocation {
    ghost use Rattle.plan_slots.specs.Allocation.{Allocation};

    ghost Value = { Allocation };

    ghost view = { λ a. record { lives = a.lives.items; free = a.free.items; count = a.count } };
}

impl Allocation {
    ghost use Rattle.plan_slots.specs.Allocation.{hold, no_slots, release};

    /// No slots, for so many shares.
    pub fn new(alloc: Global, shares: u32) -> Result<Allocation, Memory>
        ensures { IfOk result (λ a. a ≡ no_slots shares) }
    {
        Ok(Allocation {
            lives: vec![in alloc; Life::Unmade; shares as usize]?,
            free: Vec::new(alloc),
            count: 0,
        })
    }

    /// Gives a share a slot that is made.
    #[tactic(auto, unfolding(crate::specs::Allocation::hold))]
    pub fn hold(&mut self, share: u32) -> Result<(), Memory>
        ensures { OnOk result (self.new ≡ hold self.old share) }
    {
        if let Life::Unmade = life_at(&self.lives, share) {
            let slot = take_slot(&mut self.free, &mut self.count)?;
            set_life(&mut self.lives, share, Life::Held(slot));
        }
        Ok(())
    }

    /// Gives the slot of a share back.
    #[tactic(auto, unfolding(crate::specs::Allocation::release))]
    pub fn release(&mut self, share: u32) -> Result<(), Memory>
        ensures { OnOk result (self.new ≡ release self.old share) }
    {
        if let Life::Held(slot) = life_at(&self.lives, share) {
            self.free.push(slot)?;
            set_life(&mut self.lives, share, Life::Ended(slot));
        }
        Ok(())
    }

    /// How many slots there are.
    pub fn count(&self) -> u32
        ensures { result ≡ self.now.count }
    {
        self.count
    }

    /// The slots of all shares. One that had none is told 0.
    pub fn slots(&self, alloc: Global) -> Result<Vec<u32>, Memory>
        ensures { IfOk result (λ slots. slots.items ≡ map slot_in self.now.lives) }
    {
        let mut slots = Vec::with_capacity(alloc, self.lives.len())?;
        for life in &self.lives {
            slots.push(slot_in(*life))?;
        }
        Ok(slots)
    }
}

/// The slot of a share that had one.
fn slot_in(life: Life) -> u32
    ensures { result ≡ slot_in life }
{
    match life {
        Life::Unmade => 0,
        Life::Held(slot) => slot,
        Life::Ended(slot) => slot,
    }
}
