ghost use Rattle.std.specs.Prelude.{◌≡◌, length, IfOk};
ghost use Rattle.gate_net.specs.Circuit.{Stands};
ghost use Rattle.gate_arena.specs.Wiring.{right_of};

use gate_arena::Arena;
use gate_net::{GATE_LIMIT, Gate, GateFault, Lit, Net};
use hy_links::{Link, MAX_NODES};
use std::alloc::{AllocError, Global};
use std::process::Abort;
use std::test::Fail;

/// The right input of a gate.
fn right_of(gate: Gate) -> Lit
    ensures { result ≡ right_of gate }
{
    match gate {
        Gate::And(_, b) | Gate::Xor(_, b) => b,
    }
}

/// Replaces a gate's variable by its right input.
fn bypass(arena: &mut Arena, var: u32) {
    if let Some(gate) = arena.gate(var) {
        arena.has_values();
        arena.replace(var, right_of(gate));
    }
}

/// Replaces a gate's variable by that of an equal gate, which is new.
fn renew(rt: &impl Abort, arena: &mut Arena, var: u32) -> Result<(), GateFault> {
    assert!(rt; arena.nodes() < MAX_NODES);
    if let Some(gate) = arena.gate(var) {
        arena.has_values();
        let by = arena.add(gate)?;
        arena.has_values();
        arena.replace(var, by);
    }
    Ok(())
}

/// The literal of a code.
fn lit(code: u32) -> Lit
    ensures { result.code ≡ code }
{
    Lit { code }
}

/// x and y; the Xor of that and the complement of y; and the And of this and the complement of the first.
const GATES: [Gate; 3] = [
    Gate::And(Lit { code: 2 }, Lit { code: 4 }),
    Gate::Xor(Lit { code: 5 }, Lit { code: 6 }),
    Gate::And(Lit { code: 7 }, Lit { code: 8 }),
];

/// The last of them, and the first with its complement before it.
const OUTS: [Lit; 3] = [Lit { code: 10 }, Lit { code: 7 }, Lit { code: 6 }];

/// The arena of these gates over two inputs.
fn small(alloc: Global) -> Result<Arena, GateFault> {
    let net = Net::of(alloc, 2, GATES.to_vec(alloc)?, OUTS.to_vec(alloc)?, 3)?;
    Arena::of(alloc, &net)
}

/// A gate as `A 2 4; ` or `X 5 6; `.
fn gate_text(alloc: Global, gate: Gate) -> Result<String, AllocError> {
    match gate {
        Gate::And(a, b) => format!(in alloc; "A {} {}; ", a.code, b.code),
        Gate::Xor(a, b) => format!(in alloc; "X {} {}; ", a.code, b.code),
    }
}

/// The codes of literals, each after a blank.
fn add_codes(alloc: Global, text: &mut String, lits: &[Lit]) -> Result<(), AllocError> {
    for lit in lits {
        let piece = format!(in alloc; " {}", lit.code)?;
        text.push_str(&piece)?;
    }
    Ok(())
}

/// The gates of an arena as they now stand, and its outputs.
fn arena_text(alloc: Global, arena: &Arena) -> Result<String, AllocError> {
    let mut text = String::new(alloc);
    for place in 0..arena.nodes() {
        if let Some(gate) = arena.gate(arena.ins().saturating_add(place)) {
            text.push_str(&gate_text(alloc, gate)?)?;
        }
    }
    text.push_str("value")?;
    add_codes(alloc, &mut text, arena.outs())?;
    Ok(text)
}

/// The gates, the outputs and the budget of a net.
pub fn net_text(alloc: Global, net: &Net) -> Result<String, AllocError> {
    let mut text = String::new(alloc);
    for gate in net.gates() {
        text.push_str(&gate_text(alloc, *gate)?)?;
    }
    text.push_str("value")?;
    add_codes(alloc, &mut text, net.outs())?;
    text.push_str(&format!(in alloc; ", budget {}", net.budget())?)?;
    Ok(text)
}

#[test]
fn a_replaced_variable_is_gone_from_gates_and_outputs(rt: HostRuntime) -> Result<(), Fail> {
    let mut arena = small(rt.alloc())?;
    bypass(&mut arena, 2);
    let text = arena_text(rt.alloc(), &arena)?;
    assert_eq!(rt; text.as_str(), "A 2 4; X 5 4; A 5 8; value 10 5 4");
    let text = net_text(rt.alloc(), &arena.net(rt.alloc())?)?;
    assert_eq!(rt; text.as_str(), "X 4 5; A 5 6; value 8 5 4, budget 3");
    Ok(())
}

#[test]
fn a_net_numbers_a_later_gate_before_those_that_take_it(rt: HostRuntime) -> Result<(), Fail> {
    let mut arena = small(rt.alloc())?;
    renew(&rt, &mut arena, 2)?;
    let text = arena_text(rt.alloc(), &arena)?;
    assert_eq!(rt;
        text.as_str(),
        "A 2 4; X 5 12; A 13 8; A 2 4; value 10 13 12"
    );
    let text = net_text(rt.alloc(), &arena.net(rt.alloc())?)?;
    assert_eq!(rt;
        text.as_str(),
        "A 2 4; X 5 6; A 7 8; value 10 7 6, budget 3"
    );
    Ok(())
}

#[test]
fn uses_are_walked_each_once(rt: HostRuntime) -> Result<(), Fail> {
    let mut arena = small(rt.alloc())?;
    assert!(rt; arena.ins() == 2 && arena.nodes() == 3);
    let first = arena.uses(2, None);
    assert_eq!(rt; first, Some(Link { node: 2, side: 0 }));
    let second = arena.uses(2, first);
    assert_eq!(rt; second, Some(Link { node: 1, side: 1 }));
    assert_eq!(rt; arena.uses(2, second), None);
    bypass(&mut arena, 2);
    assert!(rt; arena.ins() == 2 && arena.nodes() == 3);
    assert_eq!(rt; arena.uses(2, None), None);
    Ok(())
}

/// The number of gates of the long chain.
const LONG: u32 = 100_000;

/// A chain over two inputs: each gate takes the one before it, by turns in an And with the first input's complement and in
/// an Xor with the second input.
fn chain(net: &mut Net) -> Result<Lit, GateFault>
    requires { net.old.ins ≡ 2 }
    ensures inputs { net.new.ins ≡ 2 }
    ensures stands { IfOk result (Stands net.new) }
{
    let mut last = lit(4);
    for place in 0..LONG {
        last = if place % 2 == 0 {
            net.and(last, lit(3))?
        } else {
            net.xor(last, lit(4))?
        };
    }
    Ok(last)
}

/// Whether the gate of a variable of the chain is bypassed.
fn is_bypassed(var: u32) -> bool {
    var % 3 == 0
}

/// The value and the number of gates of the chain without the gates that are bypassed.
fn shortened(x: bool, y: bool) -> (bool, usize) {
    let mut bit = y;
    let mut count = 0;
    for place in 0..LONG {
        if is_bypassed(place + 2) {
            continue;
        }
        bit = if place % 2 == 0 { bit && !x } else { bit != y };
        count += 1;
    }
    (bit, count)
}

/// The chain as a net.
fn long_net(alloc: Global) -> Result<Net, GateFault> {
    let mut net = Net::new(alloc, 2, LONG);
    let last = chain(&mut net)?;
    net.set_outs(vec![in alloc; last; 1]?);
    Ok(net)
}

/// The chain without the gates that are bypassed; none where the net has too many gates.
fn short_net(alloc: Global, net: &Net) -> Result<Option<Net>, GateFault> {
    if net.gates().len() > GATE_LIMIT as usize {
        return Ok(None);
    }
    let mut arena = Arena::of(alloc, net)?;
    for var in 2..LONG + 2 {
        if is_bypassed(var) {
            bypass(&mut arena, var);
        }
    }
    Ok(Some(arena.net(alloc)?))
}

/// The value of the one output where the two inputs are these bits; none where it is constant or there are more outputs or inputs.
fn only_value(alloc: Global, net: &Net, ins: &[bool; 2]) -> Result<Option<bool>, GateFault> {
    let gates = net.gates().len();
    if net.ins() != 2 || net.outs().len() != 1 {
        return Ok(None);
    }
    let mut buffer = vec![in alloc; false; gates + 2]?;
    net.value(ins, &mut buffer);
    let wire = net.outs()[0].code as usize / 2;
    if wire == 0 {
        return Ok(None);
    }
    Ok(buffer.get(wire - 1).copied())
}

#[test]
fn a_net_of_many_gates_is_made_rewired_and_printed_in_time(rt: HostRuntime) -> Result<(), Fail> {
    let net = long_net(rt.alloc())?;
    assert_eq!(rt; net.gates().len(), LONG as usize);
    let short = short_net(rt.alloc(), &net)?.ok_or("too many gates")?;
    for number in 0u8..4 {
        let ins = [number % 2 == 1, number / 2 == 1];
        let (bit, count) = shortened(ins[0], ins[1]);
        assert_eq!(rt; short.gates().len(), count);
        assert_eq!(rt; only_value(rt.alloc(), &short, &ins)?, Some(bit));
    }
    Ok(())
}
