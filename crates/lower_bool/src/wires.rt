//! Words of literals cut, extended and complemented. None of this costs a gate.
ghost use Rattle.std.specs.Prelude.{◌≡◌, ◌++◌, ◌-◌, ◌≤◌, length, map, replicate, IfErr, IfOk};
ghost use Rattle.hy_bits.specs.declared.op.Op;
ghost use Rattle.hy_bits.specs.Words.{bits};
ghost use Rattle.gate_net.specs.Literal.{complement_of};
ghost use Rattle.lower_bool.specs.Operations.{AnswersByWires, AreOperands, IsRewiring};

use crate::call::Call;
use crate::rows::Rows;
use gate_net::{GateFault, Lit};
use hy_bits::{Op, Width};
use std::alloc::{AllocError, Global};

/// The literals `low` with copies of `fill` above them, as many as the width `width` has bits.
fn extended(alloc: Global, low: &[Lit], width: Width, fill: Lit) -> Result<Vec<Lit>, GateFault>
    requires { length low.now ≤ bits width }
    ensures items { IfOk result (λ r. r.items ≡ low.now ++ replicate (bits width - length low.now) fill) }
    ensures memory { IfErr result (λ e. e ≡ GateFault.Memory) }
{
    let above = vec![in alloc; fill; width.bits() as usize - low.len()]?;
    let mut out = low.to_vec(alloc)?;
    out.extend_from_slice(&above)?;
    Ok(out)
}

/// The low places of the first row.
fn truncated(alloc: Global, call: Call, rows: &Rows) -> Result<Vec<Lit>, GateFault>
    requires op { call.op ≡ Op.Trunc }
    requires words { AreOperands call rows.now }
    ensures answer { IfOk result (λ r. AnswersByWires call rows.now r.items) }
    ensures memory { IfErr result (λ e. e ≡ GateFault.Memory) }
{
    let low = &rows.get(0)[..call.width.bits() as usize];
    Ok(low.to_vec(alloc)?)
}

/// The first row with zeros above it.
fn zero_extended(alloc: Global, call: Call, rows: &Rows) -> Result<Vec<Lit>, GateFault>
    requires op { call.op ≡ Op.ZeroExt }
    requires words { AreOperands call rows.now }
    ensures answer { IfOk result (λ r. AnswersByWires call rows.now r.items) }
    ensures memory { IfErr result (λ e. e ≡ GateFault.Memory) }
{
    extended(alloc, rows.get(0), call.width, Lit::FALSE)
}

/// The first row with copies of its highest literal above it.
fn sign_extended(alloc: Global, call: Call, rows: &Rows) -> Result<Vec<Lit>, GateFault>
    requires op { call.op ≡ Op.SignExt }
    requires words { AreOperands call rows.now }
    ensures answer { IfOk result (λ r. AnswersByWires call rows.now r.items) }
    ensures memory { IfErr result (λ e. e ≡ GateFault.Memory) }
{
    let low = rows.get(0);
    extended(alloc, low, call.width, low[low.len() - 1])
}

/// The complements of all literals.
fn complements(alloc: Global, ls: &[Lit]) -> Result<Vec<Lit>, AllocError>
    ensures { IfOk result (λ r. r.items ≡ map complement_of ls.now) }
{
    ls.iter().map(|l| l.complement()).collect(alloc)
}

/// The complement of the first row.
fn complement(alloc: Global, call: Call, rows: &Rows) -> Result<Vec<Lit>, GateFault>
    requires op { call.op ≡ Op.Not }
    requires words { AreOperands call rows.now }
    ensures answer { IfOk result (λ r. AnswersByWires call rows.now r.items) }
    ensures memory { IfErr result (λ e. e ≡ GateFault.Memory) }
{
    Ok(complements(alloc, rows.get(0))?)
}

/// The word of an operation that costs no gate.
pub fn rewired(alloc: Global, call: Call, rows: &Rows) -> Result<Vec<Lit>, GateFault>
    requires op { IsRewiring call.op }
    requires words { AreOperands call rows.now }
    ensures answer { IfOk result (λ r. AnswersByWires call rows.now r.items) }
    ensures memory { IfErr result (λ e. e ≡ GateFault.Memory) }
{
    match call.op {
        Op::Trunc => truncated(alloc, call, rows),
        Op::ZeroExt => zero_extended(alloc, call, rows),
        Op::SignExt => sign_extended(alloc, call, rows),
        _ => complement(alloc, call, rows),
    }
}
