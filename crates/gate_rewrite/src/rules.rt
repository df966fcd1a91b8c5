//! Local rules: an And or an Xor of two literals, with one look at the gates below them.
ghost use Rattle.std.specs.Prelude.{◌≡◌, ◌+◌, ◌≤◌, ◌<◌, ◌%◌, ◌==◌, ◌&&◌, Bool, List, length, max, IfErr, IfOk, IfSome};
ghost use Rattle.gate_net.specs.Circuit.{Stands};
ghost use Rattle.gate_net.specs.Growth.{Grows};
ghost use Rattle.gate_net.specs.Meaning.{level, value, xor};
ghost use Rattle.gate_net.specs.Shape.{IsNormal};
ghost use Rattle.gate_rewrite.specs.Rules.{IsBelow, IsDifference, IsOver, IsWhereTrue, both_of, differ_of};

use gate_net::{Gate, GateFault, Lit, Net};

/// The gate that makes the variable of `l`; none where that is an input or `l` is constant.
fn gate_of(net: &Net, l: Lit) -> Option<Gate>
    ensures { IfSome result (IsOver net.now l) }
{
    let wire = l.code / 2;
    let ins = net.ins();
    if wire <= ins {
        return None;
    }
    net.gates().get((wire - 1 - ins) as usize).copied()
}

/// What an And carries where one of its inputs is `known` and the other is `other`.
fn both(known: bool, other: Lit) -> Lit
    ensures { result ≡ both_of known other }
{
    if known { other } else { Lit::FALSE }
}

/// What an Xor carries where one of its inputs is `known` and the other is `other`.
fn differ(known: bool, other: Lit) -> Lit
    ensures { result ≡ differ_of known other }
{
    if known { other.complement() } else { other }
}

/// What `gate` carries where `p` is 1, if it has an input of the variable of `p`: p & (p & d) is p & d, p & (~p & d) is 0, and
/// p & (p ^ d) is p & ~d.
fn where_true(gate: Gate, p: Lit) -> Option<Lit>
    ensures below { IfSome result (IsBelow gate) }
    ensures value { IfSome result (IsWhereTrue gate p) }
{
    let variable = p.code / 2;
    match gate {
        Gate::And(x, y) => {
            if x.code / 2 == variable {
                Some(both(x.code == p.code, y))
            } else if y.code / 2 == variable {
                Some(both(y.code == p.code, x))
            } else {
                None
            }
        }
        Gate::Xor(x, y) => {
            if x.code / 2 == variable {
                Some(differ(x.code == p.code, y))
            } else if y.code / 2 == variable {
                Some(differ(y.code == p.code, x))
            } else {
                None
            }
        }
    }
}

/// The exclusive or of `p` and `gate`, if that is an Xor with an input of the variable of `p`: p ^ (p ^ d) is d.
fn difference(gate: Gate, p: Lit) -> Option<Lit>
    ensures below { IfSome result (IsBelow gate) }
    ensures value { IfSome result (IsDifference gate p) }
{
    let variable = p.code / 2;
    match gate {
        Gate::And(_, _) => None,
        Gate::Xor(x, y) => {
            if x.code / 2 == variable {
                Some(differ(x.code != p.code, y))
            } else if y.code / 2 == variable {
                Some(differ(y.code != p.code, x))
            } else {
                None
            }
        }
    }
}

/// The literal `l`, or its complement where `other` is a complement.
fn signed(l: Lit, other: Lit) -> Lit
    ensures { result ≡ differ_of (other.code % 2 == 1) l }
{
    differ(other.code % 2 == 1, l)
}

/// A literal that may stand for `q` in an And with `p`, by one look at the gate of `q`.
fn narrowed(net: &Net, p: Lit, q: Lit) -> Lit
    requires left { Stands net.now p }
    requires right { Stands net.now q }
    ensures stands { Stands net.now result }
    ensures value { (bits : List Bool) → (value net.now bits p && value net.now bits result) ≡ (value net.now bits p && value net.now bits q) }
    ensures level { level net.now result ≤ level net.now q }
{
    let _gates = net.gates();
    match gate_of(net, q) {
        Some(gate) => match where_true(gate, p) {
            Some(l) => signed(l, q),
            None => q,
        },
        None => q,
    }
}

/// The exclusive or of `p` and `q`, where one look at the gate of `q` gives it.
fn cancelled(net: &Net, p: Lit, q: Lit) -> Option<Lit>
    requires left { Stands net.now p }
    requires right { Stands net.now q }
    ensures stands { IfSome result (Stands net.now) }
    ensures value { IfSome result (λ r. (bits : List Bool) → value net.now bits r ≡ xor (value net.now bits p) (value net.now bits q)) }
    ensures level { IfSome result (λ r. level net.now r ≤ level net.now q) }
{
    let _gates = net.gates();
    match gate_of(net, q) {
        Some(gate) => match difference(gate, p) {
            Some(l) => Some(signed(l, q)),
            None => None,
        },
        None => None,
    }
}

/// The And of two literals, each narrowed by the other. The net has room for one gate more.
///
/// # Errors
///
/// Memory ran out.
pub fn and_below(net: &mut Net, p: Lit, q: Lit) -> Result<Lit, GateFault>
    requires left { Stands net.old p }
    requires right { Stands net.old q }
    requires room { length net.old.gates < net.old.budget }
    ensures stands { IfOk result (Stands net.new) }
    ensures value { IfOk result (λ r. (bits : List Bool) → value net.new bits r ≡ (value net.old bits p && value net.old bits q)) }
    ensures level { IfOk result (λ r. level net.new r ≤ 1 + max (level net.old p) (level net.old q)) }
    ensures grows { Grows net.old net.new 1 1 }
    ensures normal { IsNormal net.old.gates → IsNormal net.new.gates }
    ensures memory { IfErr result (λ e. e ≡ GateFault.Memory) }
{
    let right = narrowed(net, p, q);
    let left = narrowed(net, right, p);
    net.and(left, right)
}

/// The Xor of two literals: one of them may be in the gate of the other. The net has room for one gate more.
///
/// # Errors
///
/// Memory ran out.
pub fn xor_below(net: &mut Net, p: Lit, q: Lit) -> Result<Lit, GateFault>
    requires left { Stands net.old p }
    requires right { Stands net.old q }
    requires room { length net.old.gates < net.old.budget }
    ensures stands { IfOk result (Stands net.new) }
    ensures value { IfOk result (λ r. (bits : List Bool) → value net.new bits r ≡ xor (value net.old bits p) (value net.old bits q)) }
    ensures level { IfOk result (λ r. level net.new r ≤ max (level net.old p) (level net.old q)) }
    ensures grows { Grows net.old net.new 1 0 }
    ensures normal { IsNormal net.old.gates → IsNormal net.new.gates }
    ensures memory { IfErr result (λ e. e ≡ GateFault.Memory) }
{
    match cancelled(net, p, q) {
        Some(l) => Ok(l),
        None => match cancelled(net, q, p) {
            Some(l) => Ok(l),
            None => net.xor(p, q),
        },
    }
}
