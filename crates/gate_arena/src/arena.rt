//! The arena.
ghost use Rattle.std.specs.Prelude.{◌≡◌, ◌+◌, ◌*◌, ◌<◌, ◌≤◌, ◌^◌, ℕ, Bool, List, Some, get_or, length, slice_get, IfErr, IfOk, IfSome, MatchOption, OnErr, OnOk};
ghost use Rattle.std.specs.Option.{ForSome};
ghost use Rattle.std.specs.List.{All};
ghost use Rattle.hy_links.specs.Arena.{link_after, max_lists, max_nodes};
ghost use Rattle.gate_net.specs.Literal.{wire_of};
ghost use Rattle.gate_net.specs.Circuit.{Stands, wire_count, with_gate};
ghost use Rattle.gate_net.specs.Meaning.{value};
ghost use Rattle.gate_net.specs.Shape.{AreOrdered, UsesBelow, gate_limit, variable_limit};
ghost use Rattle.gate_arena.specs.Wiring.{AreUses, HasVariable, gate_of, uses_of, wire_at};
ghost use Rattle.gate_arena.specs.Paths.{DependsOn, IsAcyclic};
ghost use Rattle.gate_arena.specs.Values.{HasValue, HasValuesOf, KeepsOutputs, KeepsValues};
ghost use Rattle.gate_arena.specs.Change.{replaced};
ghost use Rattle.gate_arena.specs.Order.{IsWalk, ordered_net};

use crate::outs::Outs;
use crate::walk::net_of;
use crate::wires::Wires;
use gate_net::{Gate, GateFault, Lit, Net};
use hy_links::Link;
use std::alloc::Global;
use std::marker::Model;

/// Gates that can be added and replaced, with the places that use each variable. A variable keeps its number, so after
/// replacements a gate may name later ones; no gate depends on itself.
#[derive(Drop)]
pub struct Arena {
    ins: u32,
    budget: u32,
    wires: Wires,
    outs: Outs,
}

impl Model for Arena {
    ghost use Rattle.gate_arena.specs.Wiring.{Wiring};
    ghost use Rattle.gate_arena.specs.Inside.{IsArena};

    ghost Value = { Wiring };

    ghost view = { λ a. record { circuit = record { ins = a.ins; gates = a.wires.gates; outs = a.outs.lits; budget = a.budget }; uses = a.wires.uses } };

    ghost invariant = { λ a. IsArena (record { ins = a.ins; gates = a.wires.gates; outs = a.outs.lits; budget = a.budget }) a.wires.starts a.outs.wires };
}

/// These gates, over so many wires before them.
fn wires_of(alloc: Global, starts: u32, gates: &[Gate]) -> Result<Wires, GateFault>
    requires few { starts ≤ max_lists }
    requires room { length gates.now ≤ gate_limit }
    requires ordered { AreOrdered starts gates.now }
    ensures starts { IfOk result (λ w. w.starts ≡ starts) }
    ensures gates { IfOk result (λ w. w.gates ≡ gates.now) }
    ensures memory { IfErr result (λ e. e ≡ GateFault.Memory) }
{
    let mut wires = Wires::new(alloc, starts)?;
    for gate in gates {
        wires.push(*gate)?;
    }
    Ok(wires)
}

impl Arena {
    /// The arena of a net of at most `GATE_LIMIT` gates. Time grows with the numbers of its inputs, gates and outputs.
    ///
    /// # Errors
    ///
    /// Memory ran out.
    pub fn of(alloc: Global, net: &Net) -> Result<Arena, GateFault>
        requires { length net.now.gates ≤ gate_limit }
        ensures circuit { IfOk result (λ a. a.circuit ≡ net.now) }

        // Each literal has the value that the net gives it.
        ensures values { IfOk result (λ a. (bits : List Bool) (l : Lit) → Stands net.now l → HasValue a.circuit bits l (value net.now bits l)) }
        ensures memory { IfErr result (λ e. e ≡ GateFault.Memory) }
    {
        let ins = net.ins();
        let gates = net.gates();
        let wires = wires_of(alloc, 1 + ins, gates)?;
        let count = 1 + ins as usize + gates.len();
        let lits = net.outs().to_vec(alloc)?;
        let outs = Outs::new(alloc, count, lits)?;
        Ok(Arena {
            ins,
            budget: net.budget(),
            wires,
            outs,
        })
    }

    /// How many inputs there are.
    pub fn ins(&self) -> u32
        ensures { result ≡ self.now.circuit.ins }
    {
        self.ins
    }

    /// How many gates have been made, at most `MAX_NODES`, whether they reach an output or not.
    pub fn nodes(&self) -> u32
        ensures value { result ≡ length self.now.circuit.gates }
        ensures few { result ≤ max_nodes }
    {
        self.wires.gates().len() as u32
    }

    /// The outputs, in order.
    pub fn outs(&self) -> &[Lit]
        ensures { result.now ≡ self.now.circuit.outs }
    {
        self.outs.as_slice()
    }

    /// The gates as they now stand, in the order in which they were made.
    pub(crate) fn gates(&self) -> &[Gate]
        ensures { result.now ≡ self.now.circuit.gates }
    {
        self.wires.gates()
    }

    /// The gate of a variable as it now stands; none where that is no gate that has been made.
    pub fn gate(&self, var: u32) -> Option<Gate>
        ensures { result ≡ gate_of self.now.circuit var }
    {
        if var < self.ins {
            return None;
        }
        let place = var - self.ins;
        self.wires.gates().get(place as usize).copied()
    }

    /// A new gate, which makes the next variable, where the arena has fewer than `MAX_NODES` gates. An equal gate is not looked for.
    ///
    /// # Errors
    ///
    /// Memory ran out, and the arena is as before.
    pub fn add(&mut self, gate: Gate) -> Result<Lit, GateFault>
        requires stand { UsesBelow (wire_count self.old.circuit) gate }
        requires room { length self.old.circuit.gates < max_nodes }
        ensures circuit { OnOk result (self.new.circuit ≡ with_gate self.old.circuit gate) }
        ensures answer { IfOk result (λ l. l.code ≡ 2 * (self.old.circuit.ins + length self.old.circuit.gates) + 2) }
        ensures values { OnOk result (KeepsValues self.old.circuit self.new.circuit) }
        ensures err { OnErr result (self.new ≡ self.old) }
        ensures memory { IfErr result (λ e. e ≡ GateFault.Memory) }
    {
        let variable = self.ins + self.wires.gates().len() as u32;
        self.outs.add_wire()?;
        match self.wires.push(gate) {
            Ok(_) => Ok(Lit::of_variable(variable)),
            Err(fault) => {
                self.outs.drop_wire();
                Err(fault)
            }
        }
    }

    /// The first input place that holds a variable, or the one after the given place. The link's node is the number of the
    /// gate, counted from 0, and its side is 0 for the left input and 1 for the right one.
    pub fn uses(&self, var: u32, after: Option<Link>) -> Option<Link>
        requires variable { HasVariable self.now.circuit var }
        requires place { ForSome after (λ link. wire_at self.now.circuit.gates link ≡ Some (1 + var)) }
        ensures walk { MatchOption after (result ≡ slice_get (uses_of self.now var) 0) (λ link. result ≡ link_after link (uses_of self.now var)) }
        ensures uses { AreUses self.now.circuit.gates (1 + var) (uses_of self.now var) }
        ensures next { IfSome result (λ link. wire_at self.now.circuit.gates link ≡ Some (1 + var)) }
    {
        self.wires.next_use(1 + var, after)
    }

    /// Lets each input place and each output that holds a variable hold `by` instead, with the complement of the place kept.
    /// Time grows with the number of these places.
    pub fn replace(&mut self, var: u32, by: Lit)
        requires variable { HasVariable self.old.circuit var }
        requires by_stands { Stands self.old.circuit by }
        requires free { ¬ DependsOn self.old.circuit (1 + var) (wire_of by) }
        ensures circuit { self.new.circuit ≡ replaced (1 + var) by self.old.circuit }

        // Where `by` has the variable's value for all inputs, everything keeps its value.
        ensures values { HasValuesOf self.old.circuit (record { code = 2 * var + 2 }) by → KeepsValues self.old.circuit self.new.circuit }
    {
        self.wires.replace(1 + var, by);
        self.outs.replace(1 + var, by);
    }

    /// The most gates that the net which it was made of may hold. The arena may have more.
    pub(crate) fn budget(&self) -> u32
        ensures { result ≡ self.now.circuit.budget }
    {
        self.budget
    }

    /// The net of the gates that reach an output, numbered as a depth-first walk from the outputs in order ends them, the left
    /// input first. The inputs of each gate ascend by their new codes, and complements stay with their places. The budget is
    /// that of the net which the arena was made of, or the number of gates where this is greater. Time grows with the numbers
    /// of gates and of outputs.
    pub fn net(&self, alloc: Global) -> Result<Net, GateFault>
        ensures net { IfOk result (λ n. (order : List ℕ) × IsWalk self.now.circuit order × (n ≡ ordered_net self.now.circuit order)) }

        // There is one such order.
        ensures one { (a b : List ℕ) → IsWalk self.now.circuit a → IsWalk self.now.circuit b → a ≡ b }

        // The outputs have the values that they have in the arena.
        ensures values { IfOk result (KeepsOutputs self.now.circuit) }
        ensures memory { IfErr result (λ e. e ≡ GateFault.Memory) }
    {
        net_of(alloc, self)
    }

    /// Of every arena: gates and outputs are over what stands, no gate depends on itself, each literal has exactly one value,
    /// for all inputs, and its parts are not too many.
    pub fn has_values(&self)
        ensures acyclic { IsAcyclic self.now.circuit }
        ensures some { (bits : List Bool) (l : Lit) → Stands self.now.circuit l → (b : Bool) × HasValue self.now.circuit bits l b }
        ensures one { (bits : List Bool) (l : Lit) (b c : Bool) → HasValue self.now.circuit bits l b → HasValue self.now.circuit bits l c → b ≡ c }
        ensures uses { (k : ℕ) (g : Gate) → slice_get self.now.circuit.gates k ≡ Some g → UsesBelow (wire_count self.now.circuit) g }
        ensures outs { All (Stands self.now.circuit) self.now.circuit.outs }
        ensures limits { (self.now.circuit.ins ≤ variable_limit) × (self.now.circuit.budget ≤ variable_limit) × (length self.now.circuit.gates ≤ max_nodes) }
    {
        let _ = &self.wires;
    }
}
