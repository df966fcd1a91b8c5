ghost use Rattle.std.specs.Prelude.{◌≡◌, ◌≢◌, ◌&&◌, [], ◌∷◌, nat_le, IfOk, codes};
ghost use Rattle.std.specs.String.{string_bytes};
ghost use Rattle.hy_words.specs.Parser.{found_in};
ghost use Rattle.hy_words.specs.Readings.{number_within, role_in, role_of_letter, seed_in, turns_in};
ghost use Rattle.hy_words.specs.Request.{bound_by, layers_by, module_by, number_by, role_by, seed_by, turns_by};
ghost use Rattle.hy_bits.specs.Ports.{turn_limit};
ghost use Rattle.hy_bits.specs.declared.turns.Role.TheVariants.{P0, P1};
ghost use Rattle.hy_words.specs.declared.fault.WordsFault.TheVariants.{NoRequest};

use crate::fault::WordsFault;
use clap::ArgMatches;
use hex::FromHex;
use hy_bits::{Role, TURN_LIMIT, Turns, decimal_number};
use std::alloc::Global;

/// How many layers a program has where no number is given.
pub const DEFAULT_LAYERS: u32 = 16;

/// The most layers of a program.
const LAYER_LIMIT: u32 = 64;

/// The greatest bound of a loop.
const BOUND_LIMIT: u32 = 1048576;

/// The greatest number of generated work.
const WORK_LIMIT: u32 = 256;

/// The greatest number of a module.
const MODULE_LIMIT: u32 = 1048575;

/// The word under `name`, in a string of its own.
///
/// # Errors
///
/// There is no request where there is no word under the name; or memory ran out.
pub fn word(alloc: Global, matches: &ArgMatches<'_>, name: &str) -> Result<String, WordsFault>
    ensures ok { IfOk result (λ word. found_in matches.now name.now ≡ Some (string_bytes word)) }
    ensures none { result ≡ Err NoRequest → found_in matches.now name.now ≡ None }
{
    match matches.get_str(name) {
        Some(word) => Ok(String::from_str(alloc, word)?),
        None => Err(WordsFault::NoRequest),
    }
}

/// The layers that are given, 1 to 64, or 16 where none are.
pub fn layers(matches: &ArgMatches<'_>) -> Option<u32>
    ensures { result ≡ layers_by (found_in matches.now (codes "layers")) }
{
    match matches.get_str("layers") {
        Some(text) => number_within(1, LAYER_LIMIT, text),
        None => Some(DEFAULT_LAYERS),
    }
}

/// The bound that is given, at most 2^20, or none where none is.
pub fn bound(matches: &ArgMatches<'_>) -> Option<Option<u32>>
    ensures { result ≡ bound_by (found_in matches.now (codes "bound")) }
{
    match matches.get_str("bound") {
        Some(text) => match number_within(0, BOUND_LIMIT, text) {
            Some(bound) => Some(Some(bound)),
            None => None,
        },
        None => Some(None),
    }
}

/// The number of generated work that is given, 1 to 256.
pub fn number(matches: &ArgMatches<'_>) -> Option<u32>
    ensures { result ≡ number_by (found_in matches.now (codes "number")) }
{
    number_within(1, WORK_LIMIT, matches.get_str("number")?)
}

/// The number of a module that is given, below 2^20.
pub fn module(matches: &ArgMatches<'_>) -> Option<u32>
    ensures { result ≡ module_by (found_in matches.now (codes "module")) }
{
    number_within(0, MODULE_LIMIT, matches.get_str("module")?)
}

/// The role that is given, as one letter.
pub fn role(matches: &ArgMatches<'_>) -> Option<Role>
    ensures { result ≡ role_by (found_in matches.now (codes "role")) }
{
    match matches.get_str("role")?.as_bytes() {
        [letter] => role_of_letter(*letter),
        _ => None,
    }
}

/// The seed that is given, as 64 hexadecimal digits.
pub fn seed(matches: &ArgMatches<'_>) -> Option<[u8; 32]>
    ensures { result ≡ seed_by (found_in matches.now (codes "seed")) }
{
    seed_of(matches.get_str("seed")?)
}

/// The turns that are given, 1 to 4096 letters, or `ab` where none are.
///
/// # Errors
///
/// There is no request where the letters are none of `a` and `b`, or too many or too few; or memory ran out.
pub fn turns(alloc: Global, matches: &ArgMatches<'_>) -> Result<Turns, WordsFault>
    ensures ok { IfOk result (λ turns. turns_by (found_in matches.now (codes "turns")) ≡ Some turns) }
    ensures none { result ≡ Err NoRequest → turns_by (found_in matches.now (codes "turns")) ≡ None }
{
    match matches.get_str("turns") {
        Some(letters) => turns_of(alloc, letters),
        None => default_turns(alloc),
    }
}

/// The turns `ab`.
///
/// # Errors
///
/// Memory ran out.
pub fn default_turns(alloc: Global) -> Result<Turns, WordsFault>
    ensures ok { IfOk result (λ turns. turns ≡ P0 ∷ P1 ∷ []) }
    ensures none { result ≢ Err NoRequest }
{
    let roles = vec![in alloc; Role::P0, Role::P1]?;
    Ok(Turns::new(roles))
}

/// The turns of 1 to `TURN_LIMIT` letters.
fn turns_of(alloc: Global, text: &str) -> Result<Turns, WordsFault>
    ensures ok { IfOk result (λ turns. turns_in text.now ≡ Some turns) }
    ensures none { result ≡ Err NoRequest → turns_in text.now ≡ None }
{
    let letters = text.as_bytes();
    if !is_count_of_turns(letters.len()) {
        return Err(WordsFault::NoRequest);
    }
    let mut roles = Vec::with_capacity(alloc, letters.len())?;
    for letter in letters {
        let Some(role) = role_of_letter(*letter) else {
            return Err(WordsFault::NoRequest);
        };
        roles.push(role)?;
    }
    Ok(Turns::new(roles))
}

/// Whether a list of turns may have `count` of them.
fn is_count_of_turns(count: usize) -> bool
    ensures { result ≡ (nat_le 1 count && nat_le count turn_limit) }
{
    1 <= count && count <= TURN_LIMIT
}

/// The role of a letter, `a` or `b`.
fn role_of_letter(letter: u8) -> Option<Role>
    ensures { result ≡ role_of_letter letter }
{
    match letter {
        b'a' => Some(Role::P0),
        b'b' => Some(Role::P1),
        _ => None,
    }
}

/// The seed of 64 hexadecimal digits of either case.
fn seed_of(text: &str) -> Option<[u8; 32]>
    ensures { result ≡ seed_in text.now }
{
    <[u8; 32] as FromHex>::from_hex(text).ok()
}

/// The number from `low` to `high` that the text writes in decimal.
fn number_within(low: u32, high: u32, text: &str) -> Option<u32>
    ensures { result ≡ number_within low high text.now }
{
    let number = decimal_number(text.as_bytes())?;
    if u64::from(low) <= number && number <= u64::from(high) {
        Some(number as u32)
    } else {
        None
    }
}
