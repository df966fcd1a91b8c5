//! The depth-first walk from the outputs, and the net in its order.
ghost use Rattle.std.specs.Prelude.{◌≡◌, ◌+◌, ◌-◌, ◌^◌, ◌<◌, ◌≤◌, ◌++◌, ◌∷◌, [], ℕ, List, Some, length, map, slice_get, take, unwrap_or, IfErr, IfOk, OnOk};
ghost use Rattle.std.specs.List.{Contains};
ghost use Rattle.gate_net.specs.Literal.{wire_of};
ghost use Rattle.gate_net.specs.Circuit.{Stands, wire_count};
ghost use Rattle.hy_links.specs.Arena.{max_nodes};
ghost use Rattle.gate_net.specs.Shape.{UsesBelow};
ghost use Rattle.gate_arena.specs.Wiring.{left_of, right_of};
ghost use Rattle.gate_arena.specs.Values.{KeepsOutputs};
ghost use Rattle.gate_arena.specs.Order.{IsWalk, Visits, new_gate, new_gate_at, new_lit, ordered_net};
ghost use Rattle.gate_arena.specs.Inside.{IsAtRest, IsOnWay, OpenGate, OpenInput, distance, number_of};

use crate::arena::Arena;
use crate::outs::nothing;
use crate::wires::{input_of, wire_of};
use gate_net::{Gate, GateFault, Lit, Net};
use std::alloc::Global;
use std::marker::Model;

/// A walk under way: the gates that have been ended, in order, the number of each, and the gates on the way down to the
/// present one.
#[derive(Drop)]
pub struct Walk {
    order: Vec<u32>,
    numbers: Vec<Option<usize>>,
    stack: Vec<u32>,
}

impl Model for Walk {
    ghost use Rattle.std.specs.Prelude.{length};
    ghost use Rattle.gate_arena.specs.Inside.{AreNumbers, Walked};

    ghost Value = { Walked };

    ghost view = { λ w. record { count = length w.numbers.items; order = w.order.items; stack = w.stack.items } };

    ghost invariant = { λ w. AreNumbers w.order.items w.numbers.items };
}

impl Walk {
    /// A walk over so many gates that has not begun.
    fn new(alloc: Global, count: usize) -> Result<Walk, GateFault>
        ensures ok { IfOk result (λ w. w ≡ record { count = count; order = []; stack = [] }) }
        ensures memory { IfErr result (λ e. e ≡ GateFault.Memory) }
    {
        let numbers = nothing(alloc, count)?;
        Ok(Walk {
            order: Vec::new(alloc),
            numbers,
            stack: Vec::new(alloc),
        })
    }

    /// The gates that have been ended, in order.
    fn order(&self) -> &[u32]
        ensures { result.now ≡ self.now.order }
    {
        &self.order
    }

    /// The number of a gate that has been ended.
    fn number_of(&self, place: u32) -> Option<usize>
        requires { place < self.now.count }
        ensures { result ≡ number_of self.now.order place }
    {
        self.numbers[place as usize]
    }

    /// The gate that the walk has come to.
    fn last(&self) -> Option<u32>
        ensures { result ≡ slice_get self.now.stack (length self.now.stack - 1) }
    {
        self.stack.last().copied()
    }

    /// Goes down to a gate.
    fn enter(&mut self, place: u32) -> Result<(), GateFault>
        ensures ok { OnOk result (self.new ≡ record self.old { stack = self.old.stack ++ place ∷ [] }) }
        ensures memory { IfErr result (λ e. e ≡ GateFault.Memory) }
    {
        self.stack.push(place)?;
        Ok(())
    }

    /// Ends the gate that the walk has come to.
    fn end(&mut self, place: u32) -> Result<(), GateFault>
        requires low { place < self.old.count }
        requires ahead { ¬ Contains self.old.order place }
        ensures ok { OnOk result (self.new ≡ record self.old { order = self.old.order ++ place ∷ []; stack = take (length self.old.stack - 1) self.old.stack }) }
        ensures memory { IfErr result (λ e. e ≡ GateFault.Memory) }
    {
        let number = self.order.len();
        self.order.push(place)?;
        self.numbers[place as usize] = Some(number);
        self.stack.pop();
        Ok(())
    }

    /// The gate of a wire, if it has not been ended.
    fn open_gate(&self, arena: &Arena, wire: u32) -> Option<u32>
        requires count { self.now.count ≡ length arena.now.circuit.gates }
        requires wire { wire < 1 + arena.now.circuit.ins + length arena.now.circuit.gates }
        ensures { OpenGate arena.now.circuit self.now.order wire result }
    {
        let ins = arena.ins();
        if wire <= ins {
            return None;
        }
        let place = wire - ins - 1;
        match self.number_of(place) {
            Some(_) => None,
            None => Some(place),
        }
    }

    /// The gate of the first input that is of a gate which has not been ended.
    fn open_input(&self, arena: &Arena, gate: Gate) -> Option<u32>
        requires count { self.now.count ≡ length arena.now.circuit.gates }
        requires left { wire_of (left_of gate) < 1 + arena.now.circuit.ins + length arena.now.circuit.gates }
        requires right { wire_of (right_of gate) < 1 + arena.now.circuit.ins + length arena.now.circuit.gates }
        ensures { OpenInput arena.now.circuit self.now.order gate result }
    {
        match self.open_gate(arena, wire_of(input_of(gate, 0))) {
            Some(place) => Some(place),
            None => self.open_gate(arena, wire_of(input_of(gate, 1))),
        }
    }

    /// One step from the gate that the walk has come to: down to an input, or its end.
    fn step(&mut self, arena: &Arena, place: u32) -> Result<(), GateFault>
        requires count { self.old.count ≡ length arena.now.circuit.gates }
        requires last { slice_get self.old.stack (length self.old.stack - 1) ≡ Some place }
        requires low { place < self.old.count }
        requires ahead { ¬ Contains self.old.order place }
        ensures way { OnOk result ((begun : List ℕ) (wire : ℕ) → IsOnWay arena.now.circuit begun wire self.old → IsOnWay arena.now.circuit begun wire self.new) }
        ensures further { OnOk result (distance self.old < distance self.new) }
        ensures memory { IfErr result (λ e. e ≡ GateFault.Memory) }
    {
        arena.has_values();
        let gate = arena.gates()[place as usize];
        match self.open_input(arena, gate) {
            Some(input) => self.enter(input),
            None => self.end(place),
        }
    }

    /// Visits a wire, and ends the gates that it depends on and that have not been ended.
    fn visit(&mut self, arena: &Arena, wire: u32) -> Result<(), GateFault>
        requires rest { IsAtRest arena.now.circuit self.old }
        requires wire { wire < 1 + arena.now.circuit.ins + length arena.now.circuit.gates }
        ensures visits { OnOk result (Visits arena.now.circuit self.old.order wire self.new.order) }
        ensures rest { OnOk result (IsAtRest arena.now.circuit self.new) }
        ensures memory { IfErr result (λ e. e ≡ GateFault.Memory) }
    {
        if let Some(place) = self.open_gate(arena, wire) {
            self.enter(place)?;
        }
        while let Some(place) = self.last() {
            self.step(arena, place)?;
        }
        Ok(())
    }

    /// The walk from all outputs, in order. Time grows with the numbers of gates and of outputs.
    fn over(alloc: Global, arena: &Arena) -> Result<Walk, GateFault>
        ensures walk { IfOk result (λ w. IsWalk arena.now.circuit w.order) }
        ensures rest { IfOk result (IsAtRest arena.now.circuit) }
        ensures memory { IfErr result (λ e. e ≡ GateFault.Memory) }
    {
        arena.has_values();
        let mut walk = Walk::new(alloc, arena.gates().len())?;
        for out in arena.outs() {
            walk.visit(arena, wire_of(*out))?;
        }
        Ok(walk)
    }

    /// The number of a gate that has been ended, and 0 for any other.
    fn number(&self, arena: &Arena, place: u32) -> u32
        requires rest { IsAtRest arena.now.circuit self.now }
        requires place { place < self.now.count }
        ensures value { result ≡ unwrap_or (number_of self.now.order place) 0 }
        ensures low { result ≤ max_nodes }
    {
        arena.has_values();
        match self.number_of(place) {
            Some(number) => number as u32,
            None => 0,
        }
    }

    /// A literal by its new number.
    fn new_lit(&self, arena: &Arena, l: Lit) -> Lit
        requires rest { IsAtRest arena.now.circuit self.now }
        requires stands { Stands arena.now.circuit l }
        ensures { result ≡ new_lit arena.now.circuit self.now.order l }
    {
        arena.has_values();
        let ins = arena.ins();
        let wire = wire_of(l);
        if wire <= ins {
            return l;
        }
        let number = self.number(arena, wire - ins - 1);
        Lit {
            code: 2 * (1 + ins + number) + l.code % 2,
        }
    }

    /// A gate over new numbers.
    fn new_gate(&self, arena: &Arena, gate: Gate) -> Gate
        requires rest { IsAtRest arena.now.circuit self.now }
        requires stands { UsesBelow (wire_count arena.now.circuit) gate }
        ensures { result ≡ new_gate arena.now.circuit self.now.order gate }
    {
        match gate {
            Gate::And(a, b) => Gate::ordered_and(self.new_lit(arena, a), self.new_lit(arena, b)),
            Gate::Xor(a, b) => Gate::ordered_xor(self.new_lit(arena, a), self.new_lit(arena, b)),
        }
    }

    /// The gates that have been ended, in order, over new numbers.
    fn new_gates(&self, alloc: Global, arena: &Arena) -> Result<Vec<Gate>, GateFault>
        requires { IsAtRest arena.now.circuit self.now }
        ensures gates { IfOk result (λ gates. gates.items ≡ map (new_gate_at arena.now.circuit self.now.order) self.now.order) }
        ensures memory { IfErr result (λ e. e ≡ GateFault.Memory) }
    {
        arena.has_values();
        let old = arena.gates();
        let mut gates = Vec::with_capacity(alloc, self.order().len())?;
        for place in self.order() {
            gates.push(self.new_gate(arena, old[*place as usize]))?;
        }
        Ok(gates)
    }

    /// The outputs over new numbers.
    fn new_outs(&self, alloc: Global, arena: &Arena) -> Result<Vec<Lit>, GateFault>
        requires { IsAtRest arena.now.circuit self.now }
        ensures outs { IfOk result (λ outs. outs.items ≡ map (new_lit arena.now.circuit self.now.order) arena.now.circuit.outs) }
        ensures memory { IfErr result (λ e. e ≡ GateFault.Memory) }
    {
        arena.has_values();
        let old = arena.outs();
        let mut outs = Vec::with_capacity(alloc, old.len())?;
        for out in old {
            outs.push(self.new_lit(arena, *out))?;
        }
        Ok(outs)
    }
}

/// The net of the gates that reach an output, in the order of a depth-first walk.
pub fn net_of(alloc: Global, arena: &Arena) -> Result<Net, GateFault>
    ensures net { IfOk result (λ n. (order : List ℕ) × IsWalk arena.now.circuit order × (n ≡ ordered_net arena.now.circuit order)) }
    ensures values { IfOk result (KeepsOutputs arena.now.circuit) }
    ensures memory { IfErr result (λ e. e ≡ GateFault.Memory) }
{
    arena.has_values();
    let walk = Walk::over(alloc, arena)?;
    let gates = walk.new_gates(alloc, arena)?;
    let outs = walk.new_outs(alloc, arena)?;
    let budget = arena.budget().max(gates.len() as u32);
    Net::of(alloc, arena.ins(), gates, outs, budget)
}
