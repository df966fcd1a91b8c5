//! A net copied gate by gate through calls that fold and share, and by local rules.
ghost use Rattle.std.specs.Prelude.{◌≡◌, ℕ, ◌+◌, ◌*◌, ◌≤◌, ◌<◌, ◌∷◌, [], Bool, List, length, get_or, map, IfErr, IfOk};
ghost use Rattle.std.specs.List.{All};
ghost use Rattle.gate_net.specs.Circuit.{Stands};
ghost use Rattle.gate_net.specs.Growth.{Grows};
ghost use Rattle.gate_net.specs.Meaning.{and_count, as_bits, as_levels, depth_of, gate_reading, level, value};
ghost use Rattle.gate_net.specs.Shape.{IsNormal, UsesBelow, variable_limit};
ghost use Rattle.gate_net.specs.Spelled.{AllStand, values};
ghost use Rattle.gate_steps.specs.Steps.{HaveEqualOutputs};
ghost use Rattle.gate_rewrite.specs.Copies.{AreAtMost, literal_of};

use crate::rules::{and_below, xor_below};
use gate_net::{Gate, GateFault, Lit, Net};
use std::alloc::Global;

/// The literal that stands for `l`, where `wires` stand for its wires.
fn literal(wires: &[Lit], l: Lit) -> Lit
    requires { l.code < 2 * length wires.now }
    ensures { result ≡ literal_of wires.now l }
{
    let wire = wires[l.code as usize / 2];
    if l.is_complement() {
        wire.complement()
    } else {
        wire
    }
}

/// The literals that stand for `lits`.
fn literals(alloc: Global, wires: &[Lit], lits: &[Lit]) -> Result<Vec<Lit>, GateFault>
    requires { All (λ l. l.code < 2 * length wires.now) lits.now }
    ensures items { IfOk result (λ r. r.items ≡ map (literal_of wires.now) lits.now) }
    ensures memory { IfErr result (λ e. e ≡ GateFault.Memory) }
{
    let mut out = Vec::with_capacity(alloc, lits.len())?;
    for l in lits {
        out.push(literal(wires, *l))?;
    }
    Ok(out)
}

/// The literals of the constant and of `ins` inputs.
fn first_wires(alloc: Global, ins: u32) -> Result<Vec<Lit>, GateFault>
    requires { ins ≤ variable_limit }
    ensures count { IfOk result (λ r. length r.items ≡ 1 + ins) }
    ensures codes { IfOk result (λ r. (k : ℕ) → k < 1 + ins → get_or r.items k (record { code = 0 }) ≡ record { code = 2 * k }) }
    ensures memory { IfErr result (λ e. e ≡ GateFault.Memory) }
{
    let count = ins + 1;
    let mut wires = Vec::new(alloc);
    for wire in 0..count {
        wires.push(Lit { code: 2 * wire })?;
    }
    Ok(wires)
}

/// The literal of the gate `gate` over the literals `wires` that stand for its wires: it folds, is shared, or is made. The net has room for
/// one gate more.
fn copied_gate(net: &mut Net, wires: &[Lit], gate: Gate) -> Result<Lit, GateFault>
    requires stand { AllStand net.old wires.now }
    requires uses { UsesBelow (length wires.now) gate }
    requires room { length net.old.gates < net.old.budget }
    ensures stands { IfOk result (Stands net.new) }
    ensures value { IfOk result (λ r. (bits : List Bool) → value net.new bits r ≡ gate_reading as_bits (values net.old bits wires.now) gate) }
    ensures level { IfOk result (λ r. (levels : List ℕ) → AreAtMost net.old wires.now levels → level net.new r ≤ gate_reading as_levels levels gate) }
    ensures grows { Grows net.old net.new 1 (and_count (gate ∷ [])) }
    ensures normal { IsNormal net.old.gates → IsNormal net.new.gates }
    ensures memory { IfErr result (λ e. e ≡ GateFault.Memory) }
{
    match gate {
        Gate::And(a, b) => and_below(net, literal(wires, a), literal(wires, b)),
        Gate::Xor(a, b) => xor_below(net, literal(wires, a), literal(wires, b)),
    }
}

/// The gates of `net` in order, each copied, with its outputs.
pub fn copied(alloc: Global, net: &Net) -> Result<Net, GateFault>
    ensures equal { IfOk result (HaveEqualOutputs net.now) }
    ensures normal { IfOk result (λ r. IsNormal r.gates) }
    ensures gates { IfOk result (λ r. length r.gates ≤ length net.now.gates) }
    ensures ands { IfOk result (λ r. and_count r.gates ≤ and_count net.now.gates) }
    ensures depth { IfOk result (λ r. depth_of r ≤ depth_of net.now) }
    ensures ins { IfOk result (λ r. r.ins ≡ net.now.ins) }
    ensures budget { IfOk result (λ r. r.budget ≡ net.now.budget) }
    ensures memory { IfErr result (λ e. e ≡ GateFault.Memory) }
{
    let ins = net.ins();
    let gates = net.gates();
    let mut copy = Net::new(alloc, ins, net.budget());
    let mut wires = first_wires(alloc, ins)?;
    for gate in gates {
        let wire = copied_gate(&mut copy, &wires, *gate)?;
        wires.push(wire)?;
    }
    let outs = literals(alloc, &wires, net.outs())?;
    copy.set_outs(outs);
    Ok(copy)
}
