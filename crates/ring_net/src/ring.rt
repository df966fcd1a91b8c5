//! Ring circuits.
ghost use Rattle.std.specs.Prelude.{◌≡◌, ◌<◌, ◌≤◌, ◌+◌, ◌^◌, ◌++◌, ℕ, List, length, map, IfOk};
ghost use Rattle.std.specs.List.{All};
ghost use Rattle.hy_bits.specs.Op.{op_value, IsTakenBy};
ghost use Rattle.ring_net.specs.Paths.{AreGreatest, AreStepwise};
ghost use Rattle.ring_net.specs.Ring.{AreWordsOf, IsRing, arg_value, argument, depth_at, depths_of, first_width, gate_depth, is_variable, multiplies, product_count, values, width_of};

use hy_bits::{Memory, Op, Width};
use std::alloc::Global;
use std::marker::Model;

/// An argument of a gate: a variable, or a number of the gate's width.
#[derive(Clone, Copy, PartialEq, Eq, Debug)]
pub enum RingArg {
    Var(u32),
    Number(u64),
}

/// A gate: an operation whose result has the width `width`. It makes the next variable. A negative and a cut have the
/// number 0 as their second argument.
#[derive(Clone, Copy, PartialEq, Eq, Debug)]
pub struct RingGate {
    pub op: Op,
    pub width: Width,
    pub args: [RingArg; 2],
}

/// A ring circuit: the widths of its inputs, which are the first variables, its gates in order, and its outputs.
#[derive(Drop)]
pub struct RingNet {
    ins: Vec<Width>,
    gates: Vec<RingGate>,
    outs: Vec<u32>,
}

impl Model for RingNet {
    ghost use Rattle.ring_net.specs.Ring.{Ring, IsRing};

    ghost Value = { Ring };

    ghost view = { λ r. record { ins = r.ins.items; gates = r.gates.items; outs = r.outs.items } };

    ghost invariant = { λ r. IsRing (record { ins = r.ins.items; gates = r.gates.items; outs = r.outs.items }) };
}

impl RingArg {
    /// Whether this is a variable.
    pub fn is_variable(self) -> bool
        ensures { result ≡ is_variable self }
    {
        match self {
            RingArg::Var(_) => true,
            RingArg::Number(_) => false,
        }
    }
}

impl RingGate {
    /// Whether this is a product of two variables.
    pub fn multiplies(&self) -> bool
        ensures { result ≡ multiplies self.now }
    {
        let [a, b] = self.args;
        match self.op {
            Op::Mul => a.is_variable() && b.is_variable(),
            _ => false,
        }
    }
}

/// The value of an argument, over the values of the variables.
fn arg_value(arg: RingArg, values: &[u64]) -> u64
    ensures { result ≡ arg_value values.now arg }
{
    match arg {
        RingArg::Var(variable) => values.get(variable as usize).copied().unwrap_or(0),
        RingArg::Number(number) => number,
    }
}

/// The value of a gate whose first argument has the width `from`, over the values of the variables before it.
fn gate_value(gate: &RingGate, from: Width, values: &[u64]) -> u64
    requires { IsTakenBy gate.now.op gate.now.width from (arg_value values.now (argument gate.now 0)) (arg_value values.now (argument gate.now 1)) 0 }
    ensures { result ≡ op_value gate.now.op gate.now.width from (arg_value values.now (argument gate.now 0)) (arg_value values.now (argument gate.now 1)) 0 }
{
    let a = arg_value(gate.args[0], values);
    let b = arg_value(gate.args[1], values);
    gate.op.value(gate.width, from, a, b, 0)
}

/// The depth of an argument, over those of the variables.
fn depth_at(arg: RingArg, depths: &[u32]) -> u32
    requires { All (λ d. d < 2 ^ 31) depths.now }
    ensures value { result ≡ depth_at depths.now arg }
    ensures low { result < 2 ^ 31 }
{
    match arg {
        RingArg::Var(variable) => depths.get(variable as usize).copied().unwrap_or(0),
        RingArg::Number(_) => 0,
    }
}

/// The depth of a gate, over those of the variables before it.
fn gate_depth(gate: &RingGate, depths: &[u32]) -> u32
    requires { All (λ d. d < 2 ^ 31) depths.now }
    ensures { result ≡ gate_depth depths.now gate.now }
{
    let [a, b] = gate.args;
    let depth = depth_at(a, depths).max(depth_at(b, depths));
    if gate.multiplies() { depth + 1 } else { depth }
}

impl RingNet {
    /// The circuit of these parts. It takes no memory.
    pub fn new(ins: Vec<Width>, gates: Vec<RingGate>, outs: Vec<u32>) -> RingNet
        requires { IsRing (record { ins = ins.items; gates = gates.items; outs = outs.items }) }
        ensures { result ≡ record { ins = ins.items; gates = gates.items; outs = outs.items } }
    {
        RingNet { ins, gates, outs }
    }

    /// The widths of the inputs, in order.
    pub fn ins(&self) -> &[Width]
        ensures value { result.now ≡ self.now.ins }
        ensures ring { IsRing self.now }
    {
        &self.ins
    }

    /// The gates, in order. Gate `k` makes variable `k` after the inputs.
    pub fn gates(&self) -> &[RingGate]
        ensures value { result.now ≡ self.now.gates }
        ensures ring { IsRing self.now }
    {
        &self.gates
    }

    /// The outputs, in order: numbers of variables.
    pub fn outs(&self) -> &[u32]
        ensures value { result.now ≡ self.now.outs }
        ensures ring { IsRing self.now }
    {
        &self.outs
    }

    /// The width of a variable.
    fn width_of(&self, variable: u32) -> Width
        ensures { result ≡ width_of (self.now.ins ++ map (λ g. g.width) self.now.gates) variable }
    {
        let variable = variable as usize;
        let inputs = self.ins.len();
        if variable < inputs {
            return self.ins[variable];
        }
        match self.gates.get(variable - inputs) {
            Some(gate) => gate.width,
            None => Width::W1,
        }
    }

    /// The values of all variables into `buffer`, inputs first, where the inputs are these words. Time grows with the
    /// number of gates.
    pub fn value(&self, ins: &[u64], buffer: &mut [u64])
        requires inputs { AreWordsOf self.now.ins ins.now }
        requires places { length buffer.old ≡ length self.now.ins + length self.now.gates }
        ensures { buffer.new ≡ values self.now ins.now }
    {
        let gates = self.gates();
        buffer[..ins.len()].copy_from_slice(ins);
        for (place, gate) in gates.iter().enumerate() {
            let variable = ins.len() + place;
            let from = self.first_width(gate);
            let value = gate_value(gate, from, &buffer[..variable]);
            buffer[variable] = value;
        }
    }

    /// The width of a gate's first argument.
    fn first_width(&self, gate: &RingGate) -> Width
        ensures { result ≡ first_width (self.now.ins ++ map (λ g. g.width) self.now.gates) gate.now }
    {
        match gate.args[0] {
            RingArg::Var(variable) => self.width_of(variable),
            RingArg::Number(_) => gate.width,
        }
    }

    /// The depths of all variables, inputs first: the most products of two variables on a path to each, itself counted.
    /// Time grows with the number of gates.
    pub fn depths(&self, alloc: Global) -> Result<Vec<u32>, Memory>
        ensures { IfOk result (λ depths. depths.items ≡ depths_of self.now) }
    {
        let gates = self.gates();
        let mut depths = vec![in alloc; 0; self.ins().len()]?;
        for gate in gates {
            let depth = gate_depth(gate, &depths);
            depths.push(depth)?;
        }
        Ok(depths)
    }

    /// Of every circuit: the depth of each variable is the most products of two variables on a path to it, itself counted, and the
    /// depths are the only list in which each gate has what its arguments' depths give it.
    pub fn has_depths(&self)
        ensures paths { AreGreatest self.now (depths_of self.now) }
        ensures stepwise { AreStepwise self.now (depths_of self.now) }
        ensures one { (depths : List ℕ) → AreStepwise self.now depths → depths ≡ depths_of self.now }
    {
        let _ = &self.gates;
    }

    /// How many gates are products of two variables at the width.
    pub fn products(&self, w: Width) -> u64
        ensures { result ≡ product_count w self.now.gates }
    {
        let mut count = 0;
        for gate in self.gates() {
            if gate.multiplies() && gate.width.bits() == w.bits() {
                count += 1;
            }
        }
        count
    }
}
