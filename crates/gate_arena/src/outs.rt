//! Outputs, and for each wire the outputs that hold it.
ghost use Rattle.std.specs.Prelude.{◌≡◌, ◌≢◌, ◌==◌, ◌+◌, ◌-◌, ◌<◌, ◌≤◌, if◌then◌else◌, None, false, filter, length, map, replicate, IfErr, IfOk, OnErr, OnOk};
ghost use Rattle.std.specs.List.{All};
ghost use Rattle.gate_net.specs.Literal.{wire_of};
ghost use Rattle.gate_arena.specs.Change.{replaced_lit};

use crate::wires::{moved, wire_of};
use gate_net::{GateFault, Lit};
use std::alloc::Global;
use std::marker::Model;

/// Outputs. Those that hold one wire are chained: `first` has the first place of each wire, and `next` the place that follows
/// each place.
#[derive(Drop)]
pub struct Outs {
    lits: Vec<Lit>,
    first: Vec<Option<usize>>,
    next: Vec<Option<usize>>,
}

impl Model for Outs {
    ghost use Rattle.std.specs.Prelude.{length};
    ghost use Rattle.gate_arena.specs.Inside.{AreChained, OutList};

    ghost Value = { OutList };

    ghost view = { λ o. record { lits = o.lits.items; wires = length o.first.items } };

    ghost invariant = { λ o. AreChained o.lits.items o.first.items o.next.items };
}

/// A list of so many places with nothing in them.
pub fn nothing(alloc: Global, count: usize) -> Result<Vec<Option<usize>>, GateFault>
    ensures items { IfOk result (λ list. list.items ≡ replicate count None) }
    ensures memory { IfErr result (λ e. e ≡ GateFault.Memory) }
{
    let mut list = Vec::with_capacity(alloc, count)?;
    for _ in 0..count {
        list.push(None)?;
    }
    Ok(list)
}

impl Outs {
    /// These outputs, where there are so many wires. Time grows with the numbers of both.
    pub fn new(alloc: Global, wires: usize, lits: Vec<Lit>) -> Result<Outs, GateFault>
        requires { All (λ l. wire_of l < wires) lits.items }
        ensures ok { IfOk result (λ o. o ≡ record { lits = lits.items; wires = wires }) }
        ensures memory { IfErr result (λ e. e ≡ GateFault.Memory) }
    {
        let mut first = nothing(alloc, wires)?;
        let mut next = Vec::with_capacity(alloc, lits.len())?;
        for (place, lit) in lits.iter().enumerate() {
            let wire = wire_of(*lit) as usize;
            next.push(first[wire])?;
            first[wire] = Some(place);
        }
        Ok(Outs { lits, first, next })
    }

    /// The outputs, in order.
    pub fn as_slice(&self) -> &[Lit]
        ensures { result.now ≡ self.now.lits }
    {
        &self.lits
    }

    /// One wire more, which no output holds.
    pub fn add_wire(&mut self) -> Result<(), GateFault>
        ensures ok { OnOk result (self.new ≡ record self.old { wires = self.old.wires + 1 }) }
        ensures err { OnErr result (self.new ≡ self.old) }
        ensures memory { IfErr result (λ e. e ≡ GateFault.Memory) }
    {
        self.first.push(None)?;
        Ok(())
    }

    /// One wire fewer: the last one, which no output holds.
    pub fn drop_wire(&mut self)
        requires { All (λ l. wire_of l + 1 < self.old.wires) self.old.lits }
        ensures { self.new ≡ record self.old { wires = self.old.wires - 1 } }
    {
        self.first.pop();
    }

    /// Lets the first output that holds the wire hold `by` instead, with its complement kept, if there is one.
    fn move_first(&mut self, wire: u32, by: Lit) -> bool
        requires stands { wire < self.old.wires }
        requires apart { wire_of by ≢ wire }
        requires by_stands { wire_of by < self.old.wires }
        ensures wires { self.new.wires ≡ self.old.wires }
        ensures lits { map (replaced_lit wire by) self.new.lits ≡ map (replaced_lit wire by) self.old.lits }
        ensures fewer { length (filter (λ l. wire_of l == wire) self.new.lits) + (if result then 1 else 0) ≤ length (filter (λ l. wire_of l == wire) self.old.lits) }
        ensures none { result ≡ false → map (replaced_lit wire by) self.new.lits ≡ self.new.lits }
    {
        let from = wire as usize;
        let to = wire_of(by) as usize;
        match self.first[from] {
            Some(place) => {
                self.first[from] = self.next[place];
                self.next[place] = self.first[to];
                self.first[to] = Some(place);
                self.lits[place] = moved(by, self.lits[place]);
                true
            }
            None => false,
        }
    }

    /// Lets each output that holds the wire hold `by` instead, with its complement kept. Time grows with the number of these.
    pub fn replace(&mut self, wire: u32, by: Lit)
        requires stands { wire < self.old.wires }
        requires apart { wire_of by ≢ wire }
        requires by_stands { wire_of by < self.old.wires }
        ensures { self.new ≡ record self.old { lits = map (replaced_lit wire by) self.old.lits } }
    {
        let mut more = true;
        while more {
            more = self.move_first(wire, by);
        }
    }
}
