//! Sums, products and quotients of words of literals.
ghost use Rattle.std.specs.Prelude.{◌≡◌, IfErr, IfOk};
ghost use Rattle.hy_bits.specs.declared.op.Op;
ghost use Rattle.gate_net.specs.Growth.{Grows, StopsWithin};
ghost use Rattle.lower_bool.specs.Operations.{AreOperands, IsAnswer, IsQuotient, IsRemainder, RowsStand, is_signed, call_ands, call_size};

use crate::call::Call;
use crate::rows::Rows;
use div_blocks::divide;
use gate_net::{Form, GateFault, Lit, Net};
use hy_bits::Op;
use std::alloc::Global;

/// The sum of the first two rows.
pub fn sum(
    alloc: Global,
    net: &mut Net,
    form: Form,
    call: Call,
    rows: &Rows,
) -> Result<Vec<Lit>, GateFault>
    requires op { call.op ≡ Op.Add }
    requires stand { RowsStand net.old rows.now }
    requires words { AreOperands call rows.now }
    ensures answer { IfOk result (λ r. IsAnswer form call net.old net.new rows.now r.items) }
    ensures grows { Grows net.old net.new (call_size call) (call_ands form call) }
    ensures stops { IfErr result (StopsWithin net.old net.new (call_size call)) }
{
    adder_blocks::sum(alloc, net, form, rows.get(0), rows.get(1))
}

/// The difference of the first two rows.
pub fn difference(
    alloc: Global,
    net: &mut Net,
    form: Form,
    call: Call,
    rows: &Rows,
) -> Result<Vec<Lit>, GateFault>
    requires op { call.op ≡ Op.Sub }
    requires stand { RowsStand net.old rows.now }
    requires words { AreOperands call rows.now }
    ensures answer { IfOk result (λ r. IsAnswer form call net.old net.new rows.now r.items) }
    ensures grows { Grows net.old net.new (call_size call) (call_ands form call) }
    ensures stops { IfErr result (StopsWithin net.old net.new (call_size call)) }
{
    adder_blocks::difference(alloc, net, form, rows.get(0), rows.get(1))
}

/// Zero minus the first row.
pub fn negative(
    alloc: Global,
    net: &mut Net,
    form: Form,
    call: Call,
    rows: &Rows,
) -> Result<Vec<Lit>, GateFault>
    requires op { call.op ≡ Op.Neg }
    requires stand { RowsStand net.old rows.now }
    requires words { AreOperands call rows.now }
    ensures answer { IfOk result (λ r. IsAnswer form call net.old net.new rows.now r.items) }
    ensures grows { Grows net.old net.new (call_size call) (call_ands form call) }
    ensures stops { IfErr result (StopsWithin net.old net.new (call_size call)) }
{
    adder_blocks::negative(alloc, net, form, rows.get(0))
}

/// The product of the first two rows.
pub fn product(
    alloc: Global,
    net: &mut Net,
    form: Form,
    call: Call,
    rows: &Rows,
) -> Result<Vec<Lit>, GateFault>
    requires op { call.op ≡ Op.Mul }
    requires stand { RowsStand net.old rows.now }
    requires words { AreOperands call rows.now }
    ensures answer { IfOk result (λ r. IsAnswer form call net.old net.new rows.now r.items) }
    ensures grows { Grows net.old net.new (call_size call) (call_ands form call) }
    ensures stops { IfErr result (StopsWithin net.old net.new (call_size call)) }
{
    mul_blocks::product(alloc, net, form, rows.get(0), rows.get(1))
}

/// Whether the operation goes by the signed readings.
fn is_signed(op: Op) -> bool
    ensures { result ≡ is_signed op }
{
    match op {
        Op::DivS | Op::RemS => true,
        _ => false,
    }
}

/// The quotient of the first two rows by their unsigned or signed readings.
pub fn quotient(
    alloc: Global,
    net: &mut Net,
    form: Form,
    call: Call,
    rows: &Rows,
) -> Result<Vec<Lit>, GateFault>
    requires op { IsQuotient call.op }
    requires stand { RowsStand net.old rows.now }
    requires words { AreOperands call rows.now }
    ensures answer { IfOk result (λ r. IsAnswer form call net.old net.new rows.now r.items) }
    ensures grows { Grows net.old net.new (call_size call) (call_ands form call) }
    ensures stops { IfErr result (StopsWithin net.old net.new (call_size call)) }
{
    let signed = is_signed(call.op);
    let (quotient, _) = divide(alloc, net, form, signed, rows.get(0), rows.get(1))?;
    Ok(quotient)
}

/// What their quotient leaves of the first row.
pub fn remainder(
    alloc: Global,
    net: &mut Net,
    form: Form,
    call: Call,
    rows: &Rows,
) -> Result<Vec<Lit>, GateFault>
    requires op { IsRemainder call.op }
    requires stand { RowsStand net.old rows.now }
    requires words { AreOperands call rows.now }
    ensures answer { IfOk result (λ r. IsAnswer form call net.old net.new rows.now r.items) }
    ensures grows { Grows net.old net.new (call_size call) (call_ands form call) }
    ensures stops { IfErr result (StopsWithin net.old net.new (call_size call)) }
{
    let signed = is_signed(call.op);
    let (_, remainder) = divide(alloc, net, form, signed, rows.get(0), rows.get(1))?;
    Ok(remainder)
}
