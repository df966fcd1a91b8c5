//! Nets: gate lists that share equal gates and fold constants as they grow.
ghost use Rattle.std.specs.Prelude.{◌≡◌, ◌+◌, ◌*◌, ◌%◌, ◌≤◌, ◌<◌, ◌^◌, [], ◌∷◌, false, length, slice_index, slice_index_or, max, ◌/◌, ◌&&◌, Bool, List, OnOk, OnErr, IfOk, IfErr, IfNone, IfSome};
ghost use Rattle.std.specs.List.{All, Contains};
ghost use Rattle.gate_net.specs.Literal.{AreApart, and_gate, plain_xor_gate, xor_gate};
ghost use Rattle.gate_net.specs.Circuit.{Circuit, Stands, wire_count};
ghost use Rattle.gate_net.specs.Meaning.{xor, as_bits, as_levels, reading, gate_reading, wires, value, level, and_count, depth_of};
ghost use Rattle.gate_net.specs.Shape.{IsCircuit, IsNormal, IsTableOf, UsesBelow, variable_limit};
ghost use Rattle.gate_net.specs.Growth.{Grows, StopsWithin};
ghost use Rattle.gate_net.specs.Answer.{Wants, AddsIfWanted, LimitIff, SharesOrAdds, IsOutputOf, FoldsAnd, FoldsXor};

use crate::literal::{Gate, Lit};
use indexmap::IndexMap;
use std::alloc::{AllocError, AllocFailed, Global};
use std::marker::Model;

/// The most inputs, and the most gates, of a net.
pub const VARIABLE_LIMIT: u32 = 1 << 29;

/// The most gates of a circuit that a program of hycc keeps.
pub const GATE_LIMIT: u32 = 1 << 22;

/// How a block is built: with few ANDs, or with few ANDs on every path.
#[derive(Clone, Copy, PartialEq, Eq, Debug)]
pub enum Form {
    Compact,
    Shallow,
}

/// Why a call made no gate: the net held as many gates as its budget, which is given, or memory ran out.
#[derive(Clone, Copy, PartialEq, Eq, Debug)]
pub enum GateFault {
    GateLimit(u32),
    Memory,
}

impl<T: Drop> From<AllocFailed<T>> for GateFault {
    ghost use Rattle.gate_net.specs.declared.netlist.GateFault.TheVariants.{Memory};

    ghost from_gives = { λ _ e. e ≡ Memory };

    fn from(_e: AllocFailed<T>) -> GateFault {
        GateFault::Memory
    }
}

impl From<AllocError> for GateFault {
    ghost use Rattle.gate_net.specs.declared.netlist.GateFault.TheVariants.{Memory};

    ghost from_gives = { λ _ e. e ≡ Memory };

    fn from(_e: AllocError) -> GateFault {
        GateFault::Memory
    }
}

/// A Boolean circuit.
#[derive(Drop)]
pub struct Net {
    ins: u32,
    gates: Vec<Gate>,
    outs: Vec<Lit>,
    budget: u32,
    table: IndexMap<Gate, u32>,
}

impl Model for Net {
    ghost use Rattle.gate_net.specs.Circuit.{Circuit};
    ghost use Rattle.gate_net.specs.Shape.{IsCircuit, IsTableOf};

    ghost Value = { Circuit };

    ghost view = { λ n. record { ins = n.ins; gates = n.gates.items; outs = n.outs.items; budget = n.budget } };

    ghost invariant = { λ n. IsCircuit (record { ins = n.ins; gates = n.gates.items; outs = n.outs.items; budget = n.budget }) × IsTableOf n.gates.items n.table.entries };
}

/// The And of two literals where it needs no gate: where one is constant, or both are of one variable.
fn folded_and(a: Lit, b: Lit) -> Option<Lit>
    ensures gate { IfNone result (AreApart a b) }
    ensures folded { IfSome result (FoldsAnd a b) }
{
    if a.code / 2 == b.code / 2 {
        Some(if a == b { a } else { Lit::FALSE })
    } else if a.code < 2 {
        Some(if a.code == 0 { Lit::FALSE } else { b })
    } else if b.code < 2 {
        Some(if b.code == 0 { Lit::FALSE } else { a })
    } else {
        None
    }
}

/// The Xor of two literals that are no complements, where it needs no gate.
fn folded_xor(a: Lit, b: Lit) -> Option<Lit>
    requires left { a.code % 2 ≡ 0 }
    requires right { b.code % 2 ≡ 0 }
    ensures gate { IfNone result (AreApart a b) }
    ensures folded { IfSome result (FoldsXor a b) }
{
    if a == b {
        Some(Lit::FALSE)
    } else if a == Lit::FALSE {
        Some(b)
    } else if b == Lit::FALSE {
        Some(a)
    } else {
        None
    }
}

/// The first place of each gate.
fn table_of(alloc: Global, gates: &[Gate]) -> Result<IndexMap<Gate, u32>, GateFault>
    requires { length gates.now ≤ variable_limit }
    ensures table { IfOk result (λ t. IsTableOf gates.now t.entries) }
    ensures memory { IfErr result (λ e. e ≡ GateFault.Memory) }
{
    let mut table = IndexMap::new(alloc);
    for (place, gate) in gates.iter().enumerate() {
        if !table.contains_key(gate) {
            table.insert(*gate, place as u32)?;
        }
    }
    Ok(table)
}

/// The bit of a wire, over the bits of the variables. Wire 0 is the constant.
fn wire_bit(variables: &[bool], wire: usize) -> bool
    requires { wire ≤ length variables.now }
    ensures { result ≡ slice_index_or (false ∷ variables.now) wire false }
{
    if wire == 0 {
        false
    } else {
        variables[wire - 1]
    }
}

/// The bit of a literal, over the bits of the variables.
fn literal_bit(variables: &[bool], l: Lit) -> bool
    requires { l.code < 2 * (1 + length variables.now) }
    ensures { result ≡ reading as_bits (false ∷ variables.now) l }
{
    let bit = wire_bit(variables, l.code as usize / 2);
    if l.is_complement() { !bit } else { bit }
}

/// The bit of a gate, over the bits of the variables before it.
#[tactic(auto, unfolding(crate::specs::Meaning::gate_reading))]
fn gate_bit(variables: &[bool], gate: Gate) -> bool
    requires { UsesBelow (1 + length variables.now) gate }
    ensures { result ≡ gate_reading as_bits (false ∷ variables.now) gate }
{
    match gate {
        Gate::And(a, b) => literal_bit(variables, a) && literal_bit(variables, b),
        Gate::Xor(a, b) => literal_bit(variables, a) != literal_bit(variables, b),
    }
}

/// The level of a literal, over the levels of the variables.
fn literal_level(variables: &[u32], l: Lit) -> u32
    requires { l.code < 2 * (1 + length variables.now) }
    ensures value { result ≡ reading as_levels (0 ∷ variables.now) l }
    ensures among { result ≡ slice_index (0 ∷ variables.now) (l.code / 2) }
{
    let wire = l.code as usize / 2;
    if wire == 0 { 0 } else { variables[wire - 1] }
}

/// The level of a gate, over the levels of the variables before it.
#[tactic(auto, unfolding(crate::specs::Meaning::gate_reading))]
fn gate_level(variables: &[u32], gate: Gate) -> u32
    requires within { UsesBelow (1 + length variables.now) gate }
    requires low { All (λ x. x < 2 ^ 31) variables.now }
    ensures { result ≡ gate_reading as_levels (0 ∷ variables.now) gate }
{
    match gate {
        Gate::And(a, b) => {
            let deeper = literal_level(variables, a).max(literal_level(variables, b));
            deeper + 1
        }
        Gate::Xor(a, b) => literal_level(variables, a).max(literal_level(variables, b)),
    }
}

impl Net {
    /// A net of `ins` inputs with no gates and no outputs.
    pub fn new(alloc: Global, ins: u32, budget: u32) -> Net
        requires few_ins { ins ≤ variable_limit }
        requires low_budget { budget ≤ variable_limit }
        ensures { result ≡ record { ins = ins; gates = []; outs = []; budget = budget } }
    {
        Net {
            ins,
            gates: Vec::new(alloc),
            outs: Vec::new(alloc),
            budget,
            table: IndexMap::new(alloc),
        }
    }

    /// The net of these parts, with nothing folded and nothing shared. Time grows with the number of gates.
    ///
    /// # Errors
    ///
    /// Memory ran out.
    pub fn of(
        alloc: Global,
        ins: u32,
        gates: Vec<Gate>,
        outs: Vec<Lit>,
        budget: u32,
    ) -> Result<Net, GateFault>
        requires { IsCircuit (record { ins = ins; gates = gates.items; outs = outs.items; budget = budget }) }
        ensures parts { IfOk result (λ n. n ≡ record { ins = ins; gates = gates.items; outs = outs.items; budget = budget }) }
        ensures memory { IfErr result (λ e. e ≡ GateFault.Memory) }
    {
        let table = table_of(alloc, &gates)?;
        Ok(Net {
            ins,
            gates,
            outs,
            budget,
            table,
        })
    }

    /// How many inputs there are.
    pub fn ins(&self) -> u32
        ensures value { result ≡ self.now.ins }
        ensures circuit { IsCircuit self.now }
    {
        self.ins
    }

    /// The gates in order. Gate `k` makes variable `ins + k`.
    pub fn gates(&self) -> &[Gate]
        ensures value { result.now ≡ self.now.gates }
        ensures circuit { IsCircuit self.now }
    {
        &self.gates
    }

    /// The outputs in order.
    pub fn outs(&self) -> &[Lit]
        ensures value { result.now ≡ self.now.outs }
        ensures circuit { IsCircuit self.now }
    {
        &self.outs
    }

    /// The most gates that the net may hold.
    pub fn budget(&self) -> u32
        ensures value { result ≡ self.now.budget }
        ensures circuit { IsCircuit self.now }
    {
        self.budget
    }

    /// Replaces the outputs by `outs`.
    pub fn set_outs(&mut self, outs: Vec<Lit>)
        requires { All (Stands self.old) outs.items }
        ensures { self.new ≡ record self.old { outs = outs.items } }
    {
        self.outs = outs;
    }

    /// The same net with the budget `budget`.
    pub fn with_budget(self, budget: u32) -> Net
        requires room { length self.gates ≤ budget }
        requires limit { budget ≤ variable_limit }
        ensures { result ≡ record self { budget = budget } }
    {
        let mut net = self;
        net.budget = budget;
        net
    }

    /// The And of two literals. A gate is made only where neither is constant, their variables differ
    /// and no equal gate stands; the answer is found by a look-up in constant time.
    ///
    /// # Errors
    ///
    /// `GateLimit` with the budget where it is reached and a new gate is wanted; `Memory`. The net is as before.
    pub fn and(&mut self, a: Lit, b: Lit) -> Result<Lit, GateFault>
        requires left { Stands self.old a }
        requires right { Stands self.old b }

        // The answer, for all inputs.
        ensures stands { IfOk result (Stands self.new) }
        ensures value { IfOk result (λ r. (bits : List Bool) → value self.new bits r ≡ (value self.old bits a && value self.old bits b)) }
        ensures level { IfOk result (λ r. level self.new r ≤ 1 + max (level self.old a) (level self.old b)) }

        // The gates: at most this one more, and what stood stays.
        ensures gates { OnOk result (AddsIfWanted self.old self.new a b (and_gate a b)) }
        ensures grows { Grows self.old self.new 1 1 }
        ensures normal { IsNormal self.old.gates → IsNormal self.new.gates }

        // The limit comes exactly where the budget's gates stand and a new one is wanted.
        ensures limit { LimitIff result self.old.budget (Wants self.old a b (and_gate a b) × (length self.old.gates ≡ self.old.budget)) }
        ensures stops { IfErr result (StopsWithin self.old self.new 1) }
        ensures err { OnErr result (self.new ≡ self.old) }
    {
        match folded_and(a, b) {
            Some(folded) => Ok(folded),
            None => {
                let made = self.shared(Gate::ordered_and(a, b))?;
                Ok(made)
            }
        }
    }

    /// The Xor of two literals that are no complements.
    fn xor_plain(&mut self, a: Lit, b: Lit) -> Result<Lit, GateFault>
        requires left { Stands self.old a }
        requires right { Stands self.old b }
        requires left_plain { a.code % 2 ≡ 0 }
        requires right_plain { b.code % 2 ≡ 0 }
        ensures stands { IfOk result (Stands self.new) }
        ensures value { IfOk result (λ r. (bits : List Bool) → value self.new bits r ≡ xor (value self.old bits a) (value self.old bits b)) }
        ensures level { IfOk result (λ r. level self.new r ≤ max (level self.old a) (level self.old b)) }
        ensures gates { OnOk result (AddsIfWanted self.old self.new a b (plain_xor_gate a b)) }
        ensures grows { Grows self.old self.new 1 0 }
        ensures normal { IsNormal self.old.gates → IsNormal self.new.gates }
        ensures limit { LimitIff result self.old.budget (Wants self.old a b (plain_xor_gate a b) × (length self.old.gates ≡ self.old.budget)) }
        ensures err { OnErr result (self.new ≡ self.old) }
    {
        match folded_xor(a, b) {
            Some(folded) => Ok(folded),
            None => {
                let made = self.shared(Gate::ordered_xor(a, b))?;
                Ok(made)
            }
        }
    }

    /// The Xor of two literals, as `and`. Complements of the arguments move to the answer.
    ///
    /// # Errors
    ///
    /// Those of `and`, and the net is as before.
    pub fn xor(&mut self, a: Lit, b: Lit) -> Result<Lit, GateFault>
        requires left { Stands self.old a }
        requires right { Stands self.old b }

        // The answer, for all inputs.
        ensures stands { IfOk result (Stands self.new) }
        ensures value { IfOk result (λ r. (bits : List Bool) → value self.new bits r ≡ xor (value self.old bits a) (value self.old bits b)) }
        ensures level { IfOk result (λ r. level self.new r ≤ max (level self.old a) (level self.old b)) }

        // The gates: at most this one more, no And, and what stood stays.
        ensures gates { OnOk result (AddsIfWanted self.old self.new a b (xor_gate a b)) }
        ensures grows { Grows self.old self.new 1 0 }
        ensures normal { IsNormal self.old.gates → IsNormal self.new.gates }

        // The limit comes exactly where the budget's gates stand and a new one is wanted.
        ensures limit { LimitIff result self.old.budget (Wants self.old a b (xor_gate a b) × (length self.old.gates ≡ self.old.budget)) }
        ensures stops { IfErr result (StopsWithin self.old self.new 1) }
        ensures err { OnErr result (self.new ≡ self.old) }
    {
        let plain = self.xor_plain(a.plain(), b.plain())?;
        if a.is_complement() == b.is_complement() {
            Ok(plain)
        } else {
            Ok(plain.complement())
        }
    }

    /// The bits of all variables, inputs first, into `buffer`, where the inputs are these bits. Time grows
    /// with the number of gates.
    pub fn value(&self, ins: &[bool], buffer: &mut [bool])
        requires bits { length ins.now ≡ self.now.ins }
        requires places { length buffer.old ≡ self.now.ins + length self.now.gates }
        ensures { false ∷ buffer.new ≡ wires as_bits ins.now self.now }
    {
        buffer[..ins.len()].copy_from_slice(ins);
        for (place, gate) in self.gates.iter().enumerate() {
            let variable = ins.len() + place;
            let bit = gate_bit(&buffer[..variable], *gate);
            buffer[variable] = bit;
        }
    }

    /// How many of the gates are Ands.
    pub fn ands(&self) -> u32
        ensures { result ≡ and_count self.now.gates }
    {
        let mut count = 0;
        for gate in &self.gates {
            if let Gate::And(_, _) = gate {
                count += 1;
            }
        }
        count
    }

    /// The level of every variable, inputs first: the most And gates on a path to it. Time grows with the number of gates.
    ///
    /// # Errors
    ///
    /// Memory ran out.
    pub fn levels(&self, alloc: Global) -> Result<Vec<u32>, hy_bits::Memory>
        ensures { IfOk result (λ levels. 0 ∷ levels.items ≡ wires as_levels [] self.now) }
    {
        let mut levels = vec![in alloc; 0; self.ins as usize]?;
        for gate in &self.gates {
            let level = gate_level(&levels, *gate);
            levels.push(level)?;
        }
        Ok(levels)
    }

    /// The most And gates on a path to an output. Time grows with the number of gates.
    ///
    /// # Errors
    ///
    /// Memory ran out.
    pub fn depth(&self, alloc: Global) -> Result<u32, hy_bits::Memory>
        ensures { IfOk result (λ d. d ≡ depth_of self.now) }
    {
        let levels = self.levels(alloc)?;
        let mut depth = 0;
        for out in &self.outs {
            depth = depth.max(literal_level(&levels, *out));
        }
        Ok(depth)
    }

    /// The variable of `gate`: of the gate where it stands, else of a new one.
    fn shared(&mut self, gate: Gate) -> Result<Lit, GateFault>
        requires { UsesBelow (wire_count self.old) gate }
        ensures gates { OnOk result (SharesOrAdds self.old self.new gate) }
        ensures answer { IfOk result (IsOutputOf self.new gate) }
        ensures circuit { IsCircuit self.new }
        ensures limit { LimitIff result self.old.budget (¬ (Contains self.old.gates gate) × (length self.old.gates ≡ self.old.budget)) }
        ensures err { OnErr result (self.new ≡ self.old) }
    {
        if let Some(place) = self.table.get(&gate) {
            return Ok(Lit::of_variable(self.ins + *place));
        }
        let place = self.gates.len() as u32;
        if place == self.budget {
            return Err(GateFault::GateLimit(self.budget));
        }
        self.gates.push(gate)?;
        match self.table.insert(gate, place) {
            Ok(_) => Ok(Lit::of_variable(self.ins + place)),
            Err(_) => {
                self.gates.pop();
                Err(GateFault::Memory)
            }
        }
    }
}
