ghost use Rattle.std.specs.Prelude.{◌≡◌, ◌%◌, length};
ghost use Rattle.hy_bits.specs.Words.{modulus};
ghost use Rattle.share_core.specs.Bytes.{byte_count};
ghost use Rattle.share_core.specs.Conversions.{choice_message, choice_read};

use hy_bits::{Width, truncate};
use share_core::{read_number, write_number};

/// What a party keeps of a choice until the answer to it. P0 has in `bits` the choice that it has read, and no picks; P1 has
/// its word in `bits`, and in `picks` the dealt word that masked it, which says for each bit which mask P1 has.
#[derive(Clone, Copy, Debug, PartialEq, Eq)]
pub struct Chosen {
    pub bits: u64,
    pub picks: u64,
}

/// Writes P1's choice in the transfers of its word `x` into `out`, masked by the dealt word `c`, and gives what P1 keeps.
pub fn choose_send(w: Width, x: u64, c: u64, out: &mut [u8]) -> Chosen
    requires { length out.old ≡ byte_count w }
    ensures message { out.new ≡ choice_message w x c }
    ensures bits { result.bits ≡ x % modulus w }
    ensures picks { result.picks ≡ c % modulus w }
{
    write_number(truncate(w, x ^ c), out);
    Chosen {
        bits: truncate(w, x),
        picks: truncate(w, c),
    }
}

/// What P0 keeps of the choice in `inbox`. Bits of its bytes past the width aren't looked at.
pub fn choose_finish(w: Width, inbox: &[u8]) -> Chosen
    requires { length inbox.now ≡ byte_count w }
    ensures bits { result.bits ≡ choice_read w inbox.now }
    ensures picks { result.picks ≡ 0 }
{
    Chosen {
        bits: truncate(w, read_number(inbox)),
        picks: 0,
    }
}
