//! Rewritten nets.
ghost use Rattle.std.specs.Prelude.{◌≡◌, ◌*◌, ◌<◌, ◌↔◌, IsTrue, IfOk, length};
ghost use Rattle.gate_net.specs.Shape.{UsesBelow};

use crate::arenas::net_text;
use gate_net::{Form, Gate, GateFault, Lit, Net};
use gate_rewrite::rewrite;
use std::alloc::Global;
use std::test::Fail;

/// Whether the inputs of a gate are of the first wires.
fn fits(gate: Gate, wires: u32) -> bool
    requires { wires < 8 }
    ensures { IsTrue result ↔ UsesBelow wires gate }
{
    let (Gate::And(a, b) | Gate::Xor(a, b)) = gate;
    a.code < 2 * wires && b.code < 2 * wires
}

/// Two gates over two inputs, whose output is the last one.
fn two_gates(alloc: Global, first: Gate, second: Gate) -> Result<Net, GateFault>
    requires first { UsesBelow 3 first }
    requires second { UsesBelow 4 second }
    ensures { IfOk result (λ n. length n.gates ≡ 2) }
{
    let gates = [first, second].to_vec(alloc)?;
    let outs = [Lit { code: 8 }].to_vec(alloc)?;
    Net::of(alloc, 2, gates, outs, 2)
}

#[test]
fn rules_look_one_gate_down(rt: HostRuntime) -> Result<(), Fail> {
    // Over the inputs p and d, of the codes 2 and 4: the gate 6, the gate 8, and what is left of them.
    let (p, q, d, one) = (
        Lit { code: 2 },
        Lit { code: 3 },
        Lit { code: 4 },
        Lit { code: 6 },
    );
    let other = Lit { code: 7 };
    let rows = [
        (
            Gate::And(p, d),
            Gate::And(p, one),
            "A 2 4; value 6, budget 2",
        ),
        (Gate::And(q, d), Gate::And(p, one), "value 0, budget 2"),
        (
            Gate::And(p, d),
            Gate::And(p, other),
            "A 2 5; value 6, budget 2",
        ),
        (Gate::And(q, d), Gate::And(p, other), "value 2, budget 2"),
        (
            Gate::Xor(p, d),
            Gate::And(p, one),
            "A 2 5; value 6, budget 2",
        ),
        (
            Gate::Xor(p, d),
            Gate::And(q, one),
            "A 3 4; value 6, budget 2",
        ),
        (
            Gate::Xor(p, d),
            Gate::And(p, other),
            "A 2 4; value 6, budget 2",
        ),
        (
            Gate::Xor(p, d),
            Gate::And(q, other),
            "A 3 5; value 6, budget 2",
        ),
        (Gate::Xor(p, d), Gate::Xor(p, one), "value 4, budget 2"),
        (Gate::Xor(p, d), Gate::Xor(other, q), "value 4, budget 2"),
        (Gate::And(p, q), Gate::Xor(d, one), "value 4, budget 2"),
        (
            Gate::And(Lit::TRUE, p),
            Gate::Xor(d, one),
            "X 2 4; value 6, budget 2",
        ),
    ];
    for (first, second, wanted) in rows {
        assert!(rt; fits(first, 3) && fits(second, 4));
        let net = two_gates(rt.alloc(), first, second)?;
        let text = net_text(rt.alloc(), &rewrite(rt.alloc(), net, Form::Compact)?)?;
        assert_eq!(rt; text.as_str(), wanted);
    }
    Ok(())
}
