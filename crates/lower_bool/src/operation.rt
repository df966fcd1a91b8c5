//! The circuit of one operation.
ghost use Rattle.std.specs.Prelude.{◌≡◌, IfErr, IfOk, true};
ghost use Rattle.gate_net.specs.Growth.{Grows, StopsWithin};
ghost use Rattle.lower_bool.specs.Operations.{AreOperands, IsAnswer, RowsStand, call_ands, call_size};
ghost use Rattle.module_split.specs.Modules.{is_inner_op};

use crate::arithmetic::{difference, negative, product, quotient, remainder, sum};
use crate::call::Call;
use crate::comparison::{equality, less_signed, less_unsigned};
use crate::logic::{by_places, selection, shifted};
use crate::rows::Rows;
use crate::wires::rewired;
use gate_net::{Form, GateFault, Lit, Net};
use hy_bits::Op;
use std::alloc::Global;

/// The word of the operation over the words `rows`, its operands: in the compact form with few And gates, in the shallow form with few on
/// every path.
pub fn operation(
    alloc: Global,
    net: &mut Net,
    form: Form,
    call: Call,
    rows: &Rows,
) -> Result<Vec<Lit>, GateFault>
    requires op { is_inner_op call.op ≡ true }
    requires stand { RowsStand net.old rows.now }
    requires words { AreOperands call rows.now }
    ensures answer { IfOk result (λ r. IsAnswer form call net.old net.new rows.now r.items) }
    ensures grows { Grows net.old net.new (call_size call) (call_ands form call) }
    ensures stops { IfErr result (StopsWithin net.old net.new (call_size call)) }
{
    match call.op {
        Op::In | Op::Const => Ok(Vec::new(alloc)),
        Op::Add => sum(alloc, net, form, call, rows),
        Op::Sub => difference(alloc, net, form, call, rows),
        Op::Neg => negative(alloc, net, form, call, rows),
        Op::Mul => product(alloc, net, form, call, rows),
        Op::DivU | Op::DivS => quotient(alloc, net, form, call, rows),
        Op::RemU | Op::RemS => remainder(alloc, net, form, call, rows),
        Op::And | Op::Or | Op::Xor => by_places(alloc, net, form, call, rows),
        Op::Shl | Op::ShrU | Op::ShrS => shifted(alloc, net, form, call, rows),
        Op::LtU => less_unsigned(alloc, net, form, call, rows),
        Op::LtS => less_signed(alloc, net, form, call, rows),
        Op::Eq => equality(alloc, net, form, call, rows),
        Op::Not | Op::Trunc | Op::ZeroExt | Op::SignExt => rewired(alloc, call, rows),
        Op::Sel => selection(alloc, net, form, call, rows),
    }
}
