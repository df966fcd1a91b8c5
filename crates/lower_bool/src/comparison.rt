//! Comparisons of words of literals.
ghost use Rattle.std.specs.Prelude.{◌≡◌, IfErr, IfOk};
ghost use Rattle.hy_bits.specs.declared.op.Op.TheVariants.{Eq, LtS, LtU};
ghost use Rattle.gate_net.specs.Growth.{Grows, StopsWithin};
ghost use Rattle.lower_bool.specs.Operations.{AreOperands, IsAnswer, RowsStand, call_ands, call_size};

use crate::call::Call;
use crate::rows::Rows;
use adder_blocks::{equal, less_s, less_u};
use gate_net::{Form, GateFault, Lit, Net};
use std::alloc::Global;

/// Whether the first row is less than the second by their unsigned readings, as one literal.
pub fn less_unsigned(
    alloc: Global,
    net: &mut Net,
    form: Form,
    call: Call,
    rows: &Rows,
) -> Result<Vec<Lit>, GateFault>
    requires op { call.op ≡ LtU }
    requires stand { RowsStand net.old rows.now }
    requires words { AreOperands call rows.now }
    ensures answer { IfOk result (λ r. IsAnswer form call net.old net.new rows.now r.items) }
    ensures grows { Grows net.old net.new (call_size call) (call_ands form call) }
    ensures stops { IfErr result (StopsWithin net.old net.new (call_size call)) }
{
    let less = less_u(alloc, net, form, rows.get(0), rows.get(1))?;
    Ok(vec![in alloc; less; 1]?)
}

/// Whether the first row is less than the second by their signed readings, as one literal.
pub fn less_signed(
    alloc: Global,
    net: &mut Net,
    form: Form,
    call: Call,
    rows: &Rows,
) -> Result<Vec<Lit>, GateFault>
    requires op { call.op ≡ LtS }
    requires stand { RowsStand net.old rows.now }
    requires words { AreOperands call rows.now }
    ensures answer { IfOk result (λ r. IsAnswer form call net.old net.new rows.now r.items) }
    ensures grows { Grows net.old net.new (call_size call) (call_ands form call) }
    ensures stops { IfErr result (StopsWithin net.old net.new (call_size call)) }
{
    let less = less_s(alloc, net, form, rows.get(0), rows.get(1))?;
    Ok(vec![in alloc; less; 1]?)
}

/// Whether the first two rows are equal, as one literal.
pub fn equality(
    alloc: Global,
    net: &mut Net,
    form: Form,
    call: Call,
    rows: &Rows,
) -> Result<Vec<Lit>, GateFault>
    requires op { call.op ≡ Eq }
    requires stand { RowsStand net.old rows.now }
    requires words { AreOperands call rows.now }
    ensures answer { IfOk result (λ r. IsAnswer form call net.old net.new rows.now r.items) }
    ensures grows { Grows net.old net.new (call_size call) (call_ands form call) }
    ensures stops { IfErr result (StopsWithin net.old net.new (call_size call)) }
{
    let same = equal(alloc, net, form, rows.get(0), rows.get(1))?;
    Ok(vec![in alloc; same; 1]?)
}
