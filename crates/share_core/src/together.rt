ghost use Rattle.std.specs.Prelude.{◌≡◌, ℕ, List, length};
ghost use Rattle.hy_bits.specs.declared.turns.Role.TheVariants.{P0, P1};
ghost use Rattle.share_core.specs.declared.labels.Offset.{Offset};

use crate::Sharing;
use hy_bits::Role;

/// What one party has for an operation: its shares of the two arguments, and what was dealt to it.
#[derive(Clone, Copy)]
pub struct Side<Share, Dealt> {
    pub x: Share,
    pub y: Share,
    pub dealt: Dealt,
}

/// One operation by both parties, whose messages stand in the two buffers. It gives P0's share of the result and P1's,
/// which stand for the operation's value of whatever the arguments' shares stand for. For an operation on one word the word's
/// shares are given twice.
pub fn run_both<S: Sharing>(
    op: S::Op,
    first: Side<S::Share, S::Dealt>,
    second: Side<S::Share, S::Dealt>,
    from_first: &mut [u8],
    from_second: &mut [u8],
) -> (S::Share, S::Share)
    requires first { length from_first.old ≡ S.sent_length op P0 }
    requires second { length from_second.old ≡ S.sent_length op P1 }
    ensures from_first { from_first.new ≡ S.message op P0 first.x first.y first.dealt }
    ensures from_second { from_second.new ≡ S.message op P1 second.x second.y second.dealt }
    ensures opens { (offset : Offset) (x y : ℕ) →
        S.is_op op → S.agree offset op first.dealt second.dealt →
        S.stand_for offset (S.argument_width op) first.x second.x x →
        S.stand_for offset (S.argument_width op) first.y second.y y →
        S.stand_for offset (S.result_width op) result.0 result.1 (S.value op x y) }
{
    S::send(op, Role::P0, first.x, first.y, first.dealt, from_first);
    S::send(op, Role::P1, second.x, second.y, second.dealt, from_second);
    (
        S::finish(op, Role::P0, first.x, first.y, first.dealt, from_second),
        S::finish(op, Role::P1, second.x, second.y, second.dealt, from_first),
    )
}
