//! Gates, and for each wire the input places that hold it.
ghost use Rattle.std.specs.Prelude.{◌≡◌, ◌≢◌, ◌+◌, ◌<◌, ◌≤◌, ◌^◌, ◌++◌, ◌∷◌, [], Some, get_or, length, map, slice_get, set, IfErr, IfOk, IfSome, MatchOption, OnErr, OnOk};
ghost use Rattle.std.specs.Option.{ForSome};
ghost use Rattle.std.specs.List.{Contains};
ghost use Rattle.hy_links.specs.Arena.{link_after, max_lists, max_nodes};
ghost use Rattle.gate_net.specs.Literal.{wire_of};
ghost use Rattle.gate_net.specs.Shape.{UsesBelow};
ghost use Rattle.gate_arena.specs.Wiring.{AreUses, input_of, wire_at};
ghost use Rattle.gate_arena.specs.Change.{moved, replaced_gate};
ghost use Rattle.gate_arena.specs.Inside.{with_input};

use gate_net::{Gate, GateFault, Lit};
use hy_links::{Link, Links};
use std::alloc::Global;
use std::marker::Model;

/// The wire of a literal: 0 is the constant, and `v + 1` is variable `v`.
pub fn wire_of(l: Lit) -> u32
    ensures { result ≡ wire_of l }
{
    l.code / 2
}

/// What a place that held `l` holds where `by` takes the place of its wire: the place keeps its complement.
pub fn moved(by: Lit, l: Lit) -> Lit
    ensures { result ≡ moved by l }
{
    if l.is_complement() {
        by.complement()
    } else {
        by
    }
}

/// An input of a gate: the left one is side 0.
pub fn input_of(gate: Gate, side: u8) -> Lit
    ensures { result ≡ input_of gate side }
{
    let (left, right) = match gate {
        Gate::And(a, b) | Gate::Xor(a, b) => (a, b),
    };
    if side == 0 { left } else { right }
}

/// The gate with another input.
fn with_input(gate: Gate, side: u8, input: Lit) -> Gate
    ensures { result ≡ with_input gate side input }
{
    match gate {
        Gate::And(a, b) => {
            if side == 0 {
                Gate::And(input, b)
            } else {
                Gate::And(a, input)
            }
        }
        Gate::Xor(a, b) => {
            if side == 0 {
                Gate::Xor(input, b)
            } else {
                Gate::Xor(a, input)
            }
        }
    }
}

/// Gates and the places that use each wire. The wires before those of the gates are the lists that the links are made with.
#[derive(Drop)]
pub struct Wires {
    gates: Vec<Gate>,
    links: Links,
}

impl Model for Wires {
    ghost use Rattle.gate_arena.specs.Inside.{IsMirror, Wired};

    ghost Value = { Wired };

    ghost view = { λ w. record { starts = w.links.lists; gates = w.gates.items; uses = w.links.chains } };

    ghost invariant = { λ w. IsMirror w.gates.items w.links };
}

impl Wires {
    /// No gates, over so many wires.
    pub fn new(alloc: Global, starts: u32) -> Result<Wires, GateFault>
        requires { starts ≤ max_lists }
        ensures starts { IfOk result (λ w. w.starts ≡ starts) }
        ensures gates { IfOk result (λ w. w.gates ≡ []) }
        ensures memory { IfErr result (λ e. e ≡ GateFault.Memory) }
    {
        match Links::new(alloc, starts) {
            Ok(links) => Ok(Wires {
                gates: Vec::new(alloc),
                links,
            }),
            Err(_) => Err(GateFault::Memory),
        }
    }

    /// The gates, in order.
    pub fn gates(&self) -> &[Gate]
        ensures { result.now ≡ self.now.gates }
    {
        &self.gates
    }

    /// A new gate. It makes the next wire.
    pub fn push(&mut self, gate: Gate) -> Result<(), GateFault>
        requires within { UsesBelow (self.old.starts + length self.old.gates) gate }
        requires room { length self.old.gates < max_nodes }
        ensures starts { self.new.starts ≡ self.old.starts }
        ensures gates { OnOk result (self.new.gates ≡ self.old.gates ++ gate ∷ []) }
        ensures err { OnErr result (self.new ≡ self.old) }
        ensures memory { IfErr result (λ e. e ≡ GateFault.Memory) }
    {
        self.gates.push(gate)?;
        self.links.is_linked_once();
        match self.links.make() {
            Ok(node) => {
                self.links
                    .push(wire_of(input_of(gate, 0)), Link { node, side: 0 });
                self.links
                    .push(wire_of(input_of(gate, 1)), Link { node, side: 1 });
                Ok(())
            }
            Err(_) => {
                self.gates.pop();
                Err(GateFault::Memory)
            }
        }
    }

    /// The first place that holds the wire, or the one after the given place.
    pub fn next_use(&self, wire: u32, after: Option<Link>) -> Option<Link>
        requires wire { wire < self.now.starts + length self.now.gates }
        requires place { ForSome after (λ link. wire_at self.now.gates link ≡ Some wire) }
        ensures walk { MatchOption after (result ≡ slice_get (get_or self.now.uses wire []) 0) (λ link. result ≡ link_after link (get_or self.now.uses wire [])) }
        ensures uses { AreUses self.now.gates wire (get_or self.now.uses wire []) }
        ensures next { IfSome result (λ link. wire_at self.now.gates link ≡ Some wire) }
    {
        self.links.is_linked_once();
        self.links.walk(wire, after)
    }

    /// Lets a place that holds the wire hold `by` instead, with its complement kept.
    fn move_use(&mut self, wire: u32, link: Link, by: Lit)
        requires place { wire_at self.old.gates link ≡ Some wire }
        requires apart { wire_of by ≢ wire }
        requires stands { wire_of by < self.old.starts + length self.old.gates }
        ensures starts { self.new.starts ≡ self.old.starts }
        ensures gates { map (replaced_gate wire by) self.new.gates ≡ map (replaced_gate wire by) self.old.gates }
        ensures fewer { length (get_or self.new.uses wire []) < length (get_or self.old.uses wire []) }
    {
        self.links.is_linked_once();
        let place = link.node as usize;
        let gate = self.gates[place];
        let input = moved(by, input_of(gate, link.side));
        self.gates[place] = with_input(gate, link.side, input);
        self.links.unlink(link);
        self.links.push(wire_of(by), link);
    }

    /// Lets each place that holds the wire hold `by` instead, with its complement kept. Time grows with the number of places.
    pub fn replace(&mut self, wire: u32, by: Lit)
        requires stands { wire < self.old.starts + length self.old.gates }
        requires apart { wire_of by ≢ wire }
        requires by_stands { wire_of by < self.old.starts + length self.old.gates }
        ensures starts { self.new.starts ≡ self.old.starts }
        ensures gates { self.new.gates ≡ map (replaced_gate wire by) self.old.gates }
    {
        while let Some(link) = self.next_use(wire, None) {
            self.move_use(wire, link, by);
        }
    }
}
