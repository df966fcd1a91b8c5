ghost use Rattle.std.specs.Prelude.{◌≡◌, [], length};
ghost use Rattle.hy_bits.specs.declared.turns.Role.TheVariants.{P0, P1};
ghost use Rattle.share_core.specs.Conversions.{carry_label, carry_rows};
ghost use Rattle.share_core.specs.Garbled.{IsLabel, no_offset};

use share_core::Label;
use share_yao::{YaoDealt, evaluate, garble, label_xor};

/// P0's next carry of a sum at Y, from its zero labels `a`, `b` and `c`: writes the two garbled rows of gate `number` into `out`, and
/// gives the zero label of the carry c ^ ((a ^ c) && (b ^ c)). The first carry of a sum is the label of zeros for both parties.
pub fn carry_send(
    number: u64,
    a: Label,
    b: Label,
    c: Label,
    dealt: YaoDealt,
    out: &mut [u8],
) -> Label
    requires { length out.old ≡ 32 }
    ensures rows { out.new ≡ carry_rows dealt.offset number a b c }
    ensures value { result ≡ carry_label P0 dealt.offset number a b c [] }
    ensures label { IsLabel result }
{
    let left = label_xor(a, c);
    let right = label_xor(b, c);
    label_xor(c, garble(number, left, right, dealt.offset, out))
}

/// P1's next carry of a sum at Y, from its labels `a`, `b` and `c` and P0's two garbled rows `inbox`.
pub fn carry_finish(number: u64, a: Label, b: Label, c: Label, inbox: &[u8]) -> Label
    requires { length inbox.now ≡ 32 }
    ensures value { result ≡ carry_label P1 no_offset number a b c inbox.now }
    ensures label { IsLabel result }
{
    let left = label_xor(a, c);
    let right = label_xor(b, c);
    label_xor(c, evaluate(number, left, right, inbox))
}
