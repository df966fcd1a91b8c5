ghost use Rattle.std.specs.Prelude.{◌≡◌, ◌+◌, ◌*◌, ◌^◌, ◌<◌, ℕ, List, length};
ghost use Rattle.hy_bits.specs.declared.width.Width.{Width};
ghost use Rattle.hy_bits.specs.Words.{modulus, IsWord};
ghost use Rattle.share_core.specs.Bytes.{byte_count};
ghost use Rattle.share_core.specs.Arithmetic.{StandFor, opened_e, opened_f, product_message, product_share};
ghost use Rattle.share_arith.specs.Operations.{IsArithOp, DealtAgree, argument_width, arith_message, arith_sent, arith_share, arith_value, result_width};
ghost use Rattle.share_arith.specs.Law.{arith_law, arith_length_law};

use crate::words::{difference, negation, product, sum};
use hy_bits::{Role, Width, truncate};
use share_core::{Sharing, byte_count, read_number, write_number};

/// Arithmetic shares: a party holds a word.
pub struct Arith;

/// An operation on arithmetic shares. All work at one width, but for `Trunc`, which cuts a word of the first width to the
/// second.
#[derive(Clone, Copy, Debug, PartialEq, Eq)]
pub enum ArithOp {
    Add(Width),
    Sub(Width),
    Neg(Width),
    Mul(Width),
    Trunc(Width, Width),
}

/// One role's half of what is dealt for a product: its shares of a, of b and of c = a * b. The other operations take nothing of it.
#[derive(Clone, Copy, Debug, PartialEq, Eq)]
pub struct Triple {
    pub a: u64,
    pub b: u64,
    pub c: u64,
}

impl Sharing for Arith {
    type Share = u64;

    type Dealt = Triple;

    type Op = ArithOp;

    ghost is_share = { λ x. x < 2 ^ 64 };

    ghost is_op = { IsArithOp };

    ghost argument_width = { argument_width };

    ghost result_width = { result_width };

    ghost stand_for = { λ offset w x0 x1 x. StandFor w x0 x1 x };

    ghost value = { arith_value };

    ghost agree = { λ offset op d0 d1. DealtAgree op d0 d1 };

    ghost sent_length = { λ op role. arith_sent op };

    ghost message = { λ op role x y dealt. arith_message op x y dealt };

    ghost new_share = { arith_share };

    fn sent(op: ArithOp, _role: Role) -> usize {
        match op {
            ArithOp::Mul(w) => 2 * byte_count(w),
            ArithOp::Add(_) | ArithOp::Sub(_) | ArithOp::Neg(_) | ArithOp::Trunc(_, _) => 0,
        }
    }

    fn send(op: ArithOp, _role: Role, x: u64, y: u64, dealt: Triple, out: &mut [u8]) {
        match op {
            ArithOp::Mul(w) => send_product(w, x, y, dealt, out),
            ArithOp::Add(_) | ArithOp::Sub(_) | ArithOp::Neg(_) | ArithOp::Trunc(_, _) => {}
        }
    }

    fn finish(op: ArithOp, role: Role, x: u64, y: u64, dealt: Triple, inbox: &[u8]) -> u64 {
        match op {
            ArithOp::Add(w) => sum(w, x, y),
            ArithOp::Sub(w) => difference(w, x, y),
            ArithOp::Neg(w) => negation(w, x),
            ArithOp::Mul(w) => finish_product(w, role, x, y, dealt, inbox),
            ArithOp::Trunc(_, to) => truncate(to, x),
        }
    }

    ghost length_law = { λ op role x y dealt s t. arith_length_law op x y dealt };

    ghost law = { λ op offset x0 x1 y0 y1 x y d0 d1 is_op s0 s1 t0 t1 agree first second.
        arith_law op x0 x1 y0 y1 x y d0 d1 is_op agree first second };
}

/// Writes one party's shares of x - a and of y - b.
pub(crate) fn send_product(w: Width, x: u64, y: u64, dealt: Triple, out: &mut [u8])
    requires { length out.old ≡ 2 * byte_count w }
    ensures { out.new ≡ product_message w x y dealt.a dealt.b }
{
    let (first, second) = out.split_at_mut(byte_count(w));
    write_number(difference(w, x, dealt.a), first);
    write_number(difference(w, y, dealt.b), second);
}

/// One party's share of the product, from the other's shares of x - a and of y - b.
pub(crate) fn finish_product(
    w: Width,
    role: Role,
    x: u64,
    y: u64,
    dealt: Triple,
    inbox: &[u8],
) -> u64
    requires { length inbox.now ≡ 2 * byte_count w }
    ensures value { let e = opened_e w x dealt.a inbox.now in
        let f = opened_f w y dealt.b inbox.now in
        result ≡ product_share (modulus w) role e f dealt.a dealt.b dealt.c }
    ensures word { IsWord w result }
{
    let (first, second) = inbox.split_at(byte_count(w));
    let e = sum(w, difference(w, x, dealt.a), read_number(first));
    let f = sum(w, difference(w, y, dealt.b), read_number(second));
    product_share(w, role, e, f, dealt)
}

/// One party's share of the product, from e = x - a and f = y - b: f * a + e * b + c, to which P1 alone adds e * f.
fn product_share(w: Width, role: Role, e: u64, f: u64, dealt: Triple) -> u64
    ensures value { result ≡ product_share (modulus w) role e f dealt.a dealt.b dealt.c }
    ensures word { IsWord w result }
{
    let masked = sum(w, product(w, f, dealt.a), product(w, e, dealt.b));
    let share = sum(w, masked, dealt.c);
    match role {
        Role::P0 => share,
        Role::P1 => sum(w, share, product(w, e, f)),
    }
}
