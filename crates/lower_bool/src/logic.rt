//! Operations on each place, selections and shifts of words of literals.
ghost use Rattle.std.specs.Prelude.{◌≡◌, IfErr, IfOk, ◌+◌, ◌*◌, ◌≤◌, Bool, List, length, max, ℕ};
ghost use Rattle.hy_bits.specs.declared.op.Op;
ghost use Rattle.gate_net.specs.Growth.{Grows, StopsWithin};
ghost use Rattle.lower_bool.specs.Operations.{AreOperands, IsAnswer, RowsStand, call_ands, call_size, IsByPlaces, IsShift, place_ands, place_of};
ghost use Rattle.hy_bits.specs.Bits.{bitwise};
ghost use Rattle.gate_net.specs.Circuit.{Stands};
ghost use Rattle.gate_net.specs.Meaning.{level, value};
ghost use Rattle.gate_net.specs.Spelled.{AllStand, AllWithin, values};

use crate::call::Call;
use crate::rows::Rows;
use adder_blocks::{choose, shift};
use gate_net::{Form, GateFault, Lit, Net};
use hy_bits::Op;
use std::alloc::Global;

/// What the operation `op`, an And, an Or or an exclusive or, gives of two bits. An Or is the complement of the And of the complements.
fn place(net: &mut Net, op: Op, x: Lit, y: Lit) -> Result<Lit, GateFault>
    requires first { Stands net.old x }
    requires second { Stands net.old y }
    ensures stands { IfOk result (Stands net.new) }
    ensures value { IfOk result (λ r. (xs : List Bool) → value net.new xs r ≡ place_of op (value net.old xs x) (value net.old xs y)) }
    ensures level { IfOk result (λ r. level net.new r ≤ place_ands op + max (level net.old x) (level net.old y)) }
    ensures grows { Grows net.old net.new 1 (place_ands op) }
    ensures stops { IfErr result (StopsWithin net.old net.new 1) }
{
    match op {
        Op::And => net.and(x, y),
        Op::Or => {
            let neither = net.and(x.complement(), y.complement())?;
            Ok(neither.complement())
        }
        _ => net.xor(x, y),
    }
}

/// What the operation gives of the two words of one length, place by place.
fn places(alloc: Global, net: &mut Net, op: Op, a: &[Lit], b: &[Lit]) -> Result<Vec<Lit>, GateFault>
    requires first { AllStand net.old a.now }
    requires second { AllStand net.old b.now }
    requires same_length { length a.now ≡ length b.now }
    ensures stands { IfOk result (λ r. AllStand net.new r.items) }
    ensures same { IfOk result (λ r. length r.items ≡ length a.now) }
    ensures value { IfOk result (λ r. (xs : List Bool) → values net.new xs r.items ≡ bitwise (place_of op) (values net.old xs a.now) (values net.old xs b.now)) }
    ensures level { IfOk result (λ r. (d : ℕ) → AllWithin net.old d a.now → AllWithin net.old d b.now → AllWithin net.new (d + place_ands op) r.items) }
    ensures grows { Grows net.old net.new (length a.now) (place_ands op * length a.now) }
    ensures stops { IfErr result (StopsWithin net.old net.new (length a.now)) }
{
    let mut out = Vec::new(alloc);
    for (index, x) in a.iter().enumerate() {
        let bit = place(net, op, *x, b[index])?;
        out.push(bit)?;
    }
    Ok(out)
}

/// The And, the Or or the exclusive or of the first two rows.
pub fn by_places(
    alloc: Global,
    net: &mut Net,
    form: Form,
    call: Call,
    rows: &Rows,
) -> Result<Vec<Lit>, GateFault>
    requires op { IsByPlaces call.op }
    requires stand { RowsStand net.old rows.now }
    requires words { AreOperands call rows.now }
    ensures answer { IfOk result (λ r. IsAnswer form call net.old net.new rows.now r.items) }
    ensures grows { Grows net.old net.new (call_size call) (call_ands form call) }
    ensures stops { IfErr result (StopsWithin net.old net.new (call_size call)) }
{
    places(alloc, net, call.op, rows.get(0), rows.get(1))
}

/// The second row where the first, of one literal, is 1, else the third.
pub fn selection(
    alloc: Global,
    net: &mut Net,
    form: Form,
    call: Call,
    rows: &Rows,
) -> Result<Vec<Lit>, GateFault>
    requires op { call.op ≡ Op.Sel }
    requires stand { RowsStand net.old rows.now }
    requires words { AreOperands call rows.now }
    ensures answer { IfOk result (λ r. IsAnswer form call net.old net.new rows.now r.items) }
    ensures grows { Grows net.old net.new (call_size call) (call_ands form call) }
    ensures stops { IfErr result (StopsWithin net.old net.new (call_size call)) }
{
    choose(alloc, net, form, rows.get(0)[0], rows.get(1), rows.get(2))
}

/// The first row moved by the count that the second is.
pub fn shifted(
    alloc: Global,
    net: &mut Net,
    form: Form,
    call: Call,
    rows: &Rows,
) -> Result<Vec<Lit>, GateFault>
    requires op { IsShift call.op }
    requires stand { RowsStand net.old rows.now }
    requires words { AreOperands call rows.now }
    ensures answer { IfOk result (λ r. IsAnswer form call net.old net.new rows.now r.items) }
    ensures grows { Grows net.old net.new (call_size call) (call_ands form call) }
    ensures stops { IfErr result (StopsWithin net.old net.new (call_size call)) }
{
    shift(alloc, net, form, call.op, rows.get(0), rows.get(1))
}
