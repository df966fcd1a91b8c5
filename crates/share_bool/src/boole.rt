ghost use Rattle.std.specs.Prelude.{◌≡◌, ◌&&◌, ℕ, List, length};
ghost use Rattle.hy_bits.specs.declared.width.Width.{Width};
ghost use Rattle.hy_bits.specs.declared.width.Width.TheVariants.{W1};
ghost use Rattle.share_core.specs.Boolean.{StandFor, and_message, and_share, bit_of, dealt_bit, opened_bit_e, opened_bit_f};
ghost use Rattle.share_bool.specs.Operations.{DealtAgree, bool_message, bool_sent, bool_share, bool_value};
ghost use Rattle.share_bool.specs.Law.{bool_law, bool_length_law};

use crate::bits::is_odd;
use hy_bits::Role;
use share_core::Sharing;

/// Boolean shares: a party holds a bit.
pub struct Boole;

/// An operation on Boolean shares of two bits.
#[derive(Clone, Copy, Debug, PartialEq, Eq)]
pub enum BoolOp {
    And,
    Xor,
}

/// One role's half of what is dealt for an And: its shares of a, of b and of c = a && b. An Xor takes nothing of it.
#[derive(Clone, Copy, Debug, PartialEq, Eq)]
pub struct BitTriple {
    pub a: bool,
    pub b: bool,
    pub c: bool,
}

impl BitTriple {
    /// The role's half of the triple that one drawn word deals: its bits 0 to 4 are a, b and P0's halves of a, b and c; P1
    /// has what P0 has not.
    pub fn dealt(role: Role, drawn: u64) -> BitTriple
        ensures a { result.a ≡ dealt_bit role (bit_of drawn 0) (bit_of drawn 2) }
        ensures b { result.b ≡ dealt_bit role (bit_of drawn 1) (bit_of drawn 3) }
        ensures c { let a = bit_of drawn 0 in
            let b = bit_of drawn 1 in
            result.c ≡ dealt_bit role (a && b) (bit_of drawn 4) }
    {
        let first = BitTriple {
            a: is_odd(drawn >> 2),
            b: is_odd(drawn >> 3),
            c: is_odd(drawn >> 4),
        };
        let a = is_odd(drawn);
        let b = is_odd(drawn >> 1);
        match role {
            Role::P0 => first,
            Role::P1 => BitTriple {
                a: a ^ first.a,
                b: b ^ first.b,
                c: (a && b) ^ first.c,
            },
        }
    }
}

impl Sharing for Boole {
    type Share = bool;

    type Dealt = BitTriple;

    type Op = BoolOp;

    ghost is_share = { λ x. Unit {0} };

    ghost is_op = { λ op. Unit {0} };

    ghost argument_width = { λ op. W1 };

    ghost result_width = { λ op. W1 };

    ghost stand_for = { λ offset w x0 x1 x. StandFor x0 x1 x };

    ghost value = { bool_value };

    ghost agree = { λ offset op d0 d1. DealtAgree op d0 d1 };

    ghost sent_length = { λ op role. bool_sent op };

    ghost message = { λ op role x y dealt. bool_message op x y dealt };

    ghost new_share = { bool_share };

    fn sent(op: BoolOp, _role: Role) -> usize {
        match op {
            BoolOp::And => 1,
            BoolOp::Xor => 0,
        }
    }

    fn send(op: BoolOp, _role: Role, x: bool, y: bool, dealt: BitTriple, out: &mut [u8]) {
        match op {
            BoolOp::And => send_and(x, y, dealt, out),
            BoolOp::Xor => {}
        }
    }

    fn finish(op: BoolOp, role: Role, x: bool, y: bool, dealt: BitTriple, inbox: &[u8]) -> bool {
        match op {
            BoolOp::And => finish_and(role, x, y, dealt, inbox),
            BoolOp::Xor => x ^ y,
        }
    }

    ghost length_law = { λ op role x y dealt s t. bool_length_law op x y dealt };

    ghost law = { λ op offset x0 x1 y0 y1 x y d0 d1 is_op s0 s1 t0 t1 agree first second.
        bool_law op x0 x1 y0 y1 x y d0 d1 agree first second };
}

/// Writes one party's shares of x ^ a and of y ^ b: bits 0 and 1 of the one byte.
pub(crate) fn send_and(x: bool, y: bool, dealt: BitTriple, out: &mut [u8])
    requires { length out.old ≡ 1 }
    ensures { out.new ≡ and_message x y dealt.a dealt.b }
{
    out[0] = u8::from(x ^ dealt.a) + 2 * u8::from(y ^ dealt.b);
}

/// One party's share of the And, from the other's shares of x ^ a and of y ^ b. No other bit of its byte is read.
pub(crate) fn finish_and(role: Role, x: bool, y: bool, dealt: BitTriple, inbox: &[u8]) -> bool
    requires { length inbox.now ≡ 1 }
    ensures { let e = opened_bit_e x dealt.a inbox.now in
        let f = opened_bit_f y dealt.b inbox.now in
        result ≡ and_share role e f dealt.a dealt.b dealt.c }
{
    let e = x ^ dealt.a ^ is_odd(u64::from(inbox[0]));
    let f = y ^ dealt.b ^ is_odd(u64::from(inbox[0]) / 2);
    and_share(role, e, f, dealt)
}

/// One party's share of the And, from e = x ^ a and f = y ^ b: f && a, e && b and c, to which P1 alone adds e && f.
fn and_share(role: Role, e: bool, f: bool, dealt: BitTriple) -> bool
    ensures { result ≡ and_share role e f dealt.a dealt.b dealt.c }
{
    let masked = (f && dealt.a) ^ (e && dealt.b) ^ dealt.c;
    match role {
        Role::P0 => masked,
        Role::P1 => (e && f) ^ masked,
    }
}
