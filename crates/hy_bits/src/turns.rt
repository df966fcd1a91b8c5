ghost use Rattle.std.specs.Prelude.{◌≡◌, ◌≤◌, List, length, vec_len};
ghost use Rattle.hy_bits.specs.Ports.{turn_limit};

use crate::Sequence;
use std::marker::Model;

/// One of the two parties.
#[derive(Clone, Copy, Debug, PartialEq, Eq, Hash)]
pub enum Role {
    P0,
    P1,
}

/// The most roles that a list of turns has.
pub const TURN_LIMIT: usize = 4096;

/// Whose turn it is, move after move: 1 to `TURN_LIMIT` roles, which repeat. Contracts see the list of the roles.
#[derive(Debug, Drop)]
pub struct Turns {
    roles: Sequence<Role>,
}

impl Model for Turns {
    ghost use Rattle.std.specs.Prelude.{List, length, ◌≤◌};
    ghost use Rattle.hy_bits.specs.Ports.{turn_limit};
    ghost use Rattle.hy_bits.specs.declared.turns.Role.{Role};

    ghost Value = { List Role };

    ghost view = { λ t. t.roles };

    ghost invariant = { λ t. (1 ≤ length t.roles) × (length t.roles ≤ turn_limit) };
}

impl Turns {
    /// The turns that are `roles`. It takes no memory.
    pub fn new(roles: Vec<Role>) -> Turns
        requires some { 1 ≤ length roles.items }
        requires few { length roles.items ≤ turn_limit }
        ensures { result ≡ roles.items }
    {
        Turns {
            roles: Sequence::new(roles),
        }
    }

    /// The roles, in order.
    pub fn roles(&self) -> &[Role]
        ensures roles { result.now ≡ self.now }
        ensures some { 1 ≤ length self.now }
        ensures few { length self.now ≤ turn_limit }
    {
        self.roles.as_slice()
    }

    /// The roles, given back without taking memory.
    pub fn into_roles(self) -> Vec<Role>
        ensures roles { result.items ≡ self }
        ensures some { 1 ≤ length self }
        ensures few { length self ≤ turn_limit }
    {
        self.roles.into_vec()
    }
}
