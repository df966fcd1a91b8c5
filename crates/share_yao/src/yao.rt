ghost use Rattle.std.specs.Prelude.{◌≡◌, ℕ, List, [], length};
ghost use Rattle.hy_bits.specs.declared.width.Width.{Width};
ghost use Rattle.hy_bits.specs.declared.width.Width.TheVariants.{W1};
ghost use Rattle.share_core.specs.Garbled.{IsLabel, StandFor};
ghost use Rattle.share_yao.specs.Operations.{DealtAgree, yao_message, yao_sent, yao_share, yao_value};
ghost use Rattle.share_yao.specs.Law.{yao_law, yao_length_law};

use crate::gates::{evaluate, garble, zero_of_and};
use crate::labels::label_xor;
use hy_bits::Role;
use share_core::{Label, Offset, Sharing};

/// Labels of garbled circuits: P0 holds a wire's zero label, and P1 the label of the wire's bit.
pub struct Yao;

/// An operation on labels of two bits. An And has the number of its gate, which goes into its hashes: no two gates of a run
/// share one.
#[derive(Clone, Copy, Debug, PartialEq, Eq)]
pub enum YaoOp {
    And(u64),
    Xor,
}

/// What is dealt for an And: the run's offset to P0, and zero to P1.
#[derive(Clone, Copy, Debug, PartialEq, Eq)]
pub struct YaoDealt {
    pub offset: Offset,
}

impl Sharing for Yao {
    type Share = Label;

    type Dealt = YaoDealt;

    type Op = YaoOp;

    ghost is_share = { IsLabel };

    ghost is_op = { λ op. Unit {0} };

    ghost argument_width = { λ op. W1 };

    ghost result_width = { λ op. W1 };

    ghost stand_for = { λ offset w x0 x1 x. StandFor offset x0 x1 x };

    ghost value = { yao_value };

    ghost agree = { DealtAgree };

    ghost sent_length = { yao_sent };

    ghost message = { yao_message };

    ghost new_share = { yao_share };

    fn sent(op: YaoOp, role: Role) -> usize {
        match (op, role) {
            (YaoOp::And(_), Role::P0) => 32,
            (YaoOp::And(_), Role::P1) | (YaoOp::Xor, _) => 0,
        }
    }

    fn send(op: YaoOp, role: Role, x: Label, y: Label, dealt: YaoDealt, out: &mut [u8]) {
        match (op, role) {
            (YaoOp::And(gate), Role::P0) => {
                let _ = garble(gate, x, y, dealt.offset, out);
            }
            (YaoOp::And(_), Role::P1) | (YaoOp::Xor, _) => {}
        }
    }

    fn finish(op: YaoOp, role: Role, x: Label, y: Label, dealt: YaoDealt, inbox: &[u8]) -> Label {
        match (op, role) {
            (YaoOp::And(gate), Role::P0) => zero_of_and(gate, x, y, dealt.offset),
            (YaoOp::And(gate), Role::P1) => evaluate(gate, x, y, inbox),
            (YaoOp::Xor, _) => label_xor(x, y),
        }
    }

    ghost length_law = { λ op role x y dealt s t. yao_length_law op role x y dealt };

    ghost law = { λ op offset x0 x1 y0 y1 x y d0 d1 is_op s0 s1 t0 t1 agree first second.
        yao_law op offset x0 x1 y0 y1 x y d0 d1 s0 t0 agree first second };
}
