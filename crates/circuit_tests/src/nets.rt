ghost use Rattle.std.specs.Prelude.{◌≡◌, ◌<◌, length, IfOk};
ghost use Rattle.gate_net.specs.Circuit.{Stands};

use gate_net::{Gate, GateFault, Lit, Net};
use std::alloc::{AllocError, AllocFailed, Global};
use std::test::Fail;

/// The codes that `and` and `xor` answer for two literals of two inputs, how many gates they make, and the same for `and` again with
/// the two changed over.
fn answers(alloc: Global, a: u32, b: u32) -> Result<(u32, u32, usize, u32, usize), GateFault>
    requires first { a < 6 }
    requires second { b < 6 }
{
    let mut net = Net::new(alloc, 2, 8);
    let both = net.and(Lit { code: a }, Lit { code: b })?;
    let differ = net.xor(Lit { code: a }, Lit { code: b })?;
    let gates = net.gates().len();
    let again = net.and(Lit { code: b }, Lit { code: a })?;
    Ok((both.code, differ.code, gates, again.code, net.gates().len()))
}

#[test]
fn calls_fold_share_and_order(rt: HostRuntime) -> Result<(), Fail> {
    // Two inputs, of the codes 2 to 5. A call of `and` and one of `xor` with the same two literals:
    // the two answers, and the gates made.
    let rows = [
        (0, 4, 0, 4, 0),
        (1, 4, 4, 5, 0),
        (4, 0, 0, 4, 0),
        (5, 1, 5, 4, 0),
        (4, 4, 4, 0, 0),
        (4, 5, 0, 1, 0),
        (2, 4, 6, 8, 2),
        (4, 2, 6, 8, 2),
        (3, 4, 6, 9, 2),
        (5, 3, 6, 8, 2),
    ];
    for (a, b, both, differ, gates) in rows {
        assert!(rt; a < 6 && b < 6);
        let found = answers(rt.alloc(), a, b)?;
        assert_eq!(rt; found, (both, differ, gates, both, gates));
    }
    Ok(())
}

#[test]
fn the_limit_comes_where_a_new_gate_is_wanted(rt: HostRuntime) -> Result<(), Fail> {
    let mut net = Net::new(rt.alloc(), 2, 1);
    let a = Lit::of_variable(0);
    let b = Lit::of_variable(1);
    assert_eq!(rt; net.and(a, b)?.code, 6);
    assert_eq!(rt; net.xor(a, b), Err(GateFault::GateLimit(1)));
    assert_eq!(rt; net.and(b, a)?.code, 6);
    let mut wider = net.with_budget(2);
    assert_eq!(rt; wider.xor(a, b)?.code, 8);
    assert_eq!(rt; wider.budget(), 2);
    Ok(())
}

/// The sum and the carry of three bits, as in a text book: five gates, of which two are Ands.
fn full_adder(alloc: Global) -> Result<Net, GateFault>
    ensures { IfOk result (λ n. (n.ins ≡ 3) × (length n.gates ≡ 5)) }
{
    let x = Lit::of_variable(0);
    let y = Lit::of_variable(1);
    let carry = Lit::of_variable(2);
    let half = Lit::of_variable(3);
    let gates = [
        Gate::Xor(x, y),
        Gate::Xor(carry, half),
        Gate::And(x, y),
        Gate::And(carry, half),
        Gate::Xor(Lit::of_variable(5), Lit::of_variable(6)),
    ];
    let outs = [Lit::of_variable(4), Lit::of_variable(7)];
    Net::of(alloc, 3, gates.to_vec(alloc)?, outs.to_vec(alloc)?, 8)
}

/// The sum and the carry of three bits.
fn added(net: &Net, ins: &[bool; 3]) -> (bool, bool)
    requires ins { net.now.ins ≡ 3 }
    requires gates { length net.now.gates ≡ 5 }
{
    let mut buffer = [false; 8];
    net.value(ins, &mut buffer);
    (buffer[4], buffer[7])
}

#[test]
fn a_full_adder_has_its_values_ands_and_depth(rt: HostRuntime) -> Result<(), Fail> {
    let net = full_adder(rt.alloc())?;
    assert_eq!(rt; (net.ands(), net.depth(rt.alloc())?), (2, 1));
    let levels = net.levels(rt.alloc())?;
    assert_eq!(rt; levels.as_slice(), [0, 0, 0, 0, 0, 1, 1, 1].as_slice());
    for number in 0u8..8 {
        let ins = [number % 2 == 1, number / 2 % 2 == 1, number / 4 == 1];
        let ones = number % 2 + number / 2 % 2 + number / 4;
        assert_eq!(rt; added(&net, &ins), (ones % 2 == 1, ones >= 2));
    }
    Ok(())
}

/// The number of gates of the long chain.
const LONG: usize = 1 << 20;

/// A chain over two inputs: each gate takes the one before it, by turns an And with the first input's
/// complement and an Xor with the second input.
fn chain(net: &mut Net, length: usize) -> Result<Lit, GateFault>
    requires { net.old.ins ≡ 2 }
    ensures inputs { net.new.ins ≡ 2 }
    ensures stands { IfOk result (Stands net.new) }
{
    let mut last = Lit::of_variable(1);
    for place in 0..length {
        last = if place % 2 == 0 {
            net.and(last, Lit { code: 3 })?
        } else {
            net.xor(last, Lit { code: 4 })?
        };
    }
    Ok(last)
}

/// The bit at the end of the chain.
fn chain_bit(ins: [bool; 2]) -> bool {
    let mut bit = ins[1];
    for place in 0..LONG {
        bit = if place % 2 == 0 {
            bit && !ins[0]
        } else {
            bit != ins[1]
        };
    }
    bit
}

/// The bit of the last variable.
fn last_bit(alloc: Global, net: &Net, ins: &[bool; 2]) -> Result<Option<bool>, GateFault>
    requires { net.now.ins ≡ 2 }
{
    let mut buffer = vec![in alloc; false; net.gates().len() + 2]?;
    net.value(ins, &mut buffer);
    Ok(buffer.last().copied())
}

#[test]
fn a_net_of_many_gates_is_built_shared_and_valued_in_time(rt: HostRuntime) -> Result<(), Fail> {
    let mut net = Net::new(rt.alloc(), 2, 1 << 21);
    let last = chain(&mut net, LONG)?;
    let again = chain(&mut net, LONG)?;
    assert_eq!(rt; again, last);
    let counts = (net.gates().len(), net.ands() as usize);
    assert_eq!(rt; counts, (LONG, LONG / 2));
    for number in 0u8..4 {
        let ins = [number % 2 == 1, number / 2 == 1];
        let bit = last_bit(rt.alloc(), &net, &ins)?;
        assert_eq!(rt; bit, Some(chain_bit(ins)));
    }
    net.set_outs(vec![in rt.alloc(); last; 1]?);
    assert_eq!(rt; net.depth(rt.alloc())? as usize, LONG / 2);
    Ok(())
}
