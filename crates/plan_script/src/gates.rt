//! The gates of a module's circuit as instructions.
ghost use Rattle.std.specs.Prelude.{◌≡◌, ◌+◌, ◌<◌, ◌^◌, [], length, IfOk, OnOk};
ghost use Rattle.std.specs.List.{fold};
ghost use Rattle.ring_net.specs.Ring.{argument, is_variable};
ghost use Rattle.plan_script.specs.Gates.{TakesNumbers, and_kind, arg_code, arg_number, lit_code, net_instr, net_instrs, ring_instr, ring_instrs, ring_kind, ring_value, variable_code, wire_code, with_net_instr, with_ring_instr, xor_kind};

use crate::script::{count, share_code, sum};
use choice_core::Sharing;
use gate_net::{Gate, Lit};
use hy_bits::{Memory, Op, Width};
use ring_net::{RingArg, RingGate, RingNet};
use share_core::{Instr, InstrKind};
use std::alloc::Global;

/// The code of a variable of a circuit whose inputs have the codes `ins` and whose first gate makes the share `base`.
pub fn variable_code(ins: &[u32], base: u32, variable: u32) -> Result<u32, Memory>
    ensures { IfOk result (λ code. code ≡ variable_code ins.now base variable) }
{
    let variable = variable as usize;
    if variable < ins.len() {
        Ok(ins[variable])
    } else {
        let gate = count(variable - ins.len())?;
        share_code(sum(base, gate)?)
    }
}

/// The code of a wire. Wire 0 is the constant.
fn wire_code(ins: &[u32], base: u32, wire: u32) -> Result<u32, Memory>
    ensures { IfOk result (λ code. code ≡ wire_code ins.now base wire) }
{
    if wire == 0 {
        Ok(0)
    } else {
        variable_code(ins, base, wire - 1)
    }
}

/// The code of a literal.
#[tactic(auto, unfolding(crate::specs::Gates::lit_code))]
pub fn lit_code(ins: &[u32], base: u32, l: Lit) -> Result<u32, Memory>
    ensures { IfOk result (λ code. code ≡ lit_code ins.now base l) }
{
    let code = wire_code(ins, base, l.code / 2)?;
    if l.code % 2 == 1 {
        Ok(Lit { code }.complement().code)
    } else {
        Ok(code)
    }
}

/// The kind of an And of bits.
fn and_kind(sharing: Sharing) -> InstrKind
    ensures { result ≡ and_kind sharing }
{
    match sharing {
        Sharing::Yao => InstrKind::AndY,
        _ => InstrKind::AndB,
    }
}

/// The kind of an Xor of bits.
fn xor_kind(sharing: Sharing) -> InstrKind
    ensures { result ≡ xor_kind sharing }
{
    match sharing {
        Sharing::Yao => InstrKind::XorY,
        _ => InstrKind::XorB,
    }
}

/// The gate at the place `place` of a circuit, as an instruction.
fn net_instr(
    sharing: Sharing,
    ins: &[u32],
    base: u32,
    place: u32,
    gate: Gate,
) -> Result<Instr, Memory>
    ensures { IfOk result (λ i. i ≡ net_instr sharing ins.now base place gate) }
{
    let (kind, a, b) = match gate {
        Gate::And(a, b) => (and_kind(sharing), a, b),
        Gate::Xor(a, b) => (xor_kind(sharing), a, b),
    };
    Ok(Instr {
        kind,
        number: 0,
        width: Width::W1,
        left: lit_code(ins, base, a)?,
        right: lit_code(ins, base, b)?,
        target: sum(base, place)?,
        value: 0,
    })
}

/// Puts one more gate after the others.
#[tactic(auto, unfolding(crate::specs::Gates::with_net_instr))]
fn add_net_instr(
    instrs: &mut Vec<Instr>,
    sharing: Sharing,
    ins: &[u32],
    base: u32,
    gate: Gate,
) -> Result<(), Memory>
    ensures { OnOk result (instrs.new.items ≡ with_net_instr sharing ins.now base instrs.old.items gate) }
{
    let place = count(instrs.len())?;
    instrs.push(net_instr(sharing, ins, base, place, gate)?)?;
    Ok(())
}

/// The gates of a circuit of bits, at B or at Y.
pub fn net_instrs(
    alloc: Global,
    sharing: Sharing,
    ins: &[u32],
    base: u32,
    gates: &[Gate],
) -> Result<Vec<Instr>, Memory>
    ensures { IfOk result (λ instrs. instrs.items ≡ net_instrs sharing ins.now base gates.now) }
{
    let mut instrs = Vec::with_capacity(alloc, gates.len())?;
    for gate in gates {
        add_net_instr(&mut instrs, sharing, ins, base, *gate)?;
    }
    Ok(instrs)
}

/// The code of an argument at A; a number has none, here 0.
fn arg_code(ins: &[u32], base: u32, arg: RingArg) -> Result<u32, Memory>
    ensures { IfOk result (λ code. code ≡ arg_code ins.now base arg) }
{
    match arg {
        RingArg::Var(variable) => variable_code(ins, base, variable),
        RingArg::Number(_) => Ok(0),
    }
}

/// The number that an argument is; a variable is none, here 0.
fn arg_number(arg: RingArg) -> u64
    ensures { result ≡ arg_number arg }
{
    match arg {
        RingArg::Var(_) => 0,
        RingArg::Number(number) => number,
    }
}

/// The kind of an operation at A, by which of its arguments are variables.
fn ring_kind(op: Op, first: bool, second: bool) -> InstrKind
    ensures { result ≡ ring_kind op first second }
{
    match (op, first, second) {
        (Op::Add, true, true) => InstrKind::AddA,
        (Op::Add, false, true) => InstrKind::AddLeft,
        (Op::Add, true, false) => InstrKind::AddRight,
        (Op::Sub, true, true) => InstrKind::SubA,
        (Op::Sub, false, true) => InstrKind::SubLeft,
        (Op::Sub, true, false) => InstrKind::SubRight,
        (Op::Mul, true, true) => InstrKind::MulA,
        (Op::Mul, false, true) => InstrKind::MulLeft,
        (Op::Mul, true, false) => InstrKind::MulRight,
        (Op::Neg, true, _) => InstrKind::NegA,
        (Op::Trunc, true, _) => InstrKind::TruncA,
        _ => InstrKind::Known,
    }
}

/// The number among a gate's arguments; of numbers alone the gate's result.
fn ring_value(gate: &RingGate) -> u64
    requires { TakesNumbers gate.now }
    ensures { result ≡ ring_value gate.now (is_variable (argument gate.now 0)) (is_variable (argument gate.now 1)) }
{
    let [a, b] = gate.args;
    match (a.is_variable(), b.is_variable()) {
        (true, true) => 0,
        (false, true) => arg_number(a),
        (true, false) => arg_number(b),
        (false, false) => {
            let w = gate.width;
            gate.op.value(w, w, arg_number(a), arg_number(b), 0)
        }
    }
}

/// The gate at the place `place` of a ring circuit, as an instruction.
fn ring_instr(ins: &[u32], base: u32, place: u32, gate: &RingGate) -> Result<Instr, Memory>
    requires { TakesNumbers gate.now }
    ensures { IfOk result (λ i. i ≡ ring_instr ins.now base place gate.now) }
{
    let [a, b] = gate.args;
    Ok(Instr {
        kind: ring_kind(gate.op, a.is_variable(), b.is_variable()),
        number: 0,
        width: gate.width,
        left: arg_code(ins, base, a)?,
        right: arg_code(ins, base, b)?,
        target: sum(base, place)?,
        value: ring_value(gate),
    })
}

/// Puts one more gate of a ring circuit after the others.
#[tactic(auto, unfolding(crate::specs::Gates::with_ring_instr))]
fn add_ring_instr(
    instrs: &mut Vec<Instr>,
    ins: &[u32],
    base: u32,
    gate: &RingGate,
) -> Result<(), Memory>
    requires { TakesNumbers gate.now }
    ensures { OnOk result (instrs.new.items ≡ with_ring_instr ins.now base instrs.old.items gate.now) }
{
    let place = count(instrs.len())?;
    instrs.push(ring_instr(ins, base, place, gate)?)?;
    Ok(())
}

/// The gates of a circuit at A.
pub fn ring_instrs(
    alloc: Global,
    ins: &[u32],
    base: u32,
    ring: &RingNet,
) -> Result<Vec<Instr>, Memory>
    ensures { IfOk result (λ instrs. instrs.items ≡ ring_instrs ins.now base ring.now.gates) }
{
    let gates = ring.gates();
    let mut instrs = Vec::with_capacity(alloc, gates.len())?;
    for gate in gates {
        add_ring_instr(&mut instrs, ins, base, gate)?;
    }
    Ok(instrs)
}
