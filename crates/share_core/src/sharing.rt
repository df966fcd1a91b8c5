ghost use Rattle.std.specs.Prelude.{◌≡◌, ℕ, List, length};
ghost use Rattle.hy_bits.specs.declared.width.Width.{Width};
ghost use Rattle.hy_bits.specs.declared.turns.Role.{Role};
ghost use Rattle.hy_bits.specs.declared.turns.Role.TheVariants.{P0, P1};
ghost use Rattle.share_core.specs.Roles.{other};
ghost use Rattle.share_core.specs.declared.labels.Offset.{Offset};

use hy_bits::Role;

/// A secret-sharing scheme for two parties: a way to hold a word as two shares, one with each party, and to compute on it. A bit is
/// a word of width 1.
///
/// What two shares stand for may rest on the run's free-XOR offset, which P0 alone has and which tells the two labels of
/// a bit apart; sharings without labels don't look at it.
///
/// Any shares and any dealt halves may be given to `send` and `finish`, and any bytes to `finish`: what is sent and what
/// comes out are then still the formulas, and only the law has premises.
pub trait Sharing {
    type Share: Copy;

    type Dealt: Copy;

    type Op: Copy;

    /// Holds of the values of the type of shares.
    ghost is_share: { Self.Share → Type 0 };

    /// The operation is one of the sharing's.
    ghost is_op: { Self.Op → Type 0 };

    /// The width of the operation's arguments, and of its result.
    ghost argument_width: { Self.Op → Width };

    ghost result_width: { Self.Op → Width };

    /// Under the run's offset P0's share and P1's share stand for the word of the width.
    ghost stand_for: { Offset → Width → Self.Share → Self.Share → ℕ → Type 0 };

    /// The operation's value of the arguments' values.
    ghost value: { Self.Op → ℕ → ℕ → ℕ };

    /// Under the run's offset what was dealt to P0 and to P1 fits together.
    ghost agree: { Offset → Self.Op → Self.Dealt → Self.Dealt → Type 0 };

    /// The number of bytes that the role sends.
    ghost sent_length: { Self.Op → Role → ℕ };

    /// The bytes that the role sends, from its two shares and what was dealt to it.
    ghost message: { Self.Op → Role → Self.Share → Self.Share → Self.Dealt → List ℕ };

    /// The share that the role ends with, from the same and the other's message.
    ghost new_share: { Self.Op → Role → Self.Share → Self.Share → Self.Dealt → List ℕ → Self.Share };

    /// The number of bytes that `role` sends for `op`.
    fn sent(op: Self::Op, role: Role) -> usize
        ensures { result ≡ sent_length op role };

    /// Writes what `role` sends for `op` into `out`, from its shares `x` and `y` and what was dealt to it. An operation on one word
    /// ignores `y`.
    fn send(
        op: Self::Op,
        role: Role,
        x: Self::Share,
        y: Self::Share,
        dealt: Self::Dealt,
        out: &mut [u8],
    )
        requires { length out.old ≡ sent_length op role }
        ensures message { out.new ≡ message op role x y dealt }
        ensures first { is_share x }
        ensures second { is_share y };

    /// The share of the result of `op` that `role` ends with, from what the other sent, `inbox`.
    fn finish(
        op: Self::Op,
        role: Role,
        x: Self::Share,
        y: Self::Share,
        dealt: Self::Dealt,
        inbox: &[u8],
    ) -> Self::Share
        requires { length inbox.now ≡ sent_length op (other role) }
        ensures value { result ≡ new_share op role x y dealt inbox.now }
        ensures share { is_share result };

    /// A message has as many bytes as `sent` says.
    ghost length_law: { (op : Self.Op) (role : Role) (x y : Self.Share) (dealt : Self.Dealt) →
        is_share x → is_share y →
        length (message op role x y dealt) ≡ sent_length op role };

    /// With dealt halves that agree, finishing with each other's messages gives shares that stand for the operation's
    /// value of the words that the arguments' shares stand for.
    ghost law: { (op : Self.Op) (offset : Offset) (x0 x1 y0 y1 : Self.Share) (x y : ℕ) (d0 d1 : Self.Dealt) →
        is_op op → is_share x0 → is_share x1 → is_share y0 → is_share y1 →
        agree offset op d0 d1 →
        stand_for offset (argument_width op) x0 x1 x →
        stand_for offset (argument_width op) y0 y1 y →
        stand_for offset (result_width op)
        (new_share op P0 x0 y0 d0 (message op P1 x1 y1 d1))
        (new_share op P1 x1 y1 d1 (message op P0 x0 y0 d0))
        (value op x y) };
}
