//! The words of one party.
ghost use Rattle.std.specs.Prelude.{◌≡◌, IfOk, OnOk, ◌++◌, ◌∷◌, [], if◌then◌else◌};
ghost use Rattle.hy_bits.specs.Ports.{is_of, own_of};

use hy_bits::{Inputs, Memory, Role, Sequence};
use std::alloc::Global;

/// Whether the two are one party.
fn is_of(a: Role, b: Role) -> bool
    ensures { result ≡ is_of a b }
{
    match (a, b) {
        (Role::P0, Role::P0) | (Role::P1, Role::P1) => true,
        _ => false,
    }
}

/// Puts a word after the others where its owner is this role.
fn add_own(own: &mut Vec<u64>, role: Role, owner: Role, word: u64) -> Result<(), Memory>
    ensures { OnOk result (own.new.items ≡ (if is_of role owner then own.old.items ++ word ∷ [] else own.old.items)) }
{
    if is_of(role, owner) {
        own.push(word)?;
    }
    Ok(())
}

/// The words at the places of this role, in order.
///
/// # Errors
///
/// Memory ran out.
pub fn own_words(
    alloc: Global,
    role: Role,
    owners: &[Role],
    words: &[u64],
) -> Result<Inputs, Memory>
    ensures { IfOk result (λ own. own ≡ own_of role owners.now words.now) }
{
    let mut own = Vec::new(alloc);
    let count = owners.len().min(words.len());
    for place in 0..count {
        add_own(&mut own, role, owners[place], words[place])?;
    }
    Ok(Sequence::new(own))
}
