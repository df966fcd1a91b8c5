ghost use Rattle.std.specs.Prelude.{◌≡◌};
ghost use Rattle.c_tree.specs.Programs.{IsSound};

use crate::programs::ExternalDeclaration;
use crate::token::Place;
use sqlite_items::Items;
use std::marker::Model;

/// A program as it is written, and the place of its end. It is of the grammar; its names are names, its numbers are words
/// of their types and its bounds are at most 2^20; and its tokens are fewer than 2^32.
#[derive(Drop)]
pub struct Program {
    items: Items<ExternalDeclaration>,
    end: Place,
}

impl Model for Program {
    ghost use Rattle.std.specs.Coded.{codes};
    ghost use Rattle.c_tree.specs.contracts.programs.ExternalDeclaration as item;
    ghost use Rattle.c_tree.specs.Programs.{ProgramTree, IsSound};

    ghost Value = { ProgramTree };

    ghost coded = { Prim.hlevel (codes, item.the_row.coded) };

    ghost view = { λ p. record { items = p.items; end = p.end } };

    ghost invariant = { λ p. IsSound (record { items = p.items; end = p.end }) };
}

impl Program {
    /// The program of these external declarations, whose end is at the place. It takes no memory.
    pub fn new(items: Items<ExternalDeclaration>, end: Place) -> Program
        requires { IsSound (record { items = items; end = end }) }
        ensures { result ≡ record { items = items; end = end } }
    {
        Program { items, end }
    }

    /// The external declarations in order.
    pub fn items(&self) -> &[ExternalDeclaration]
        ensures items { result.now ≡ self.now.items }
        ensures sound { IsSound self.now }
    {
        self.items.as_slice()
    }

    /// The place of the end of the text.
    pub fn end(&self) -> Place
        ensures { result ≡ self.now.end }
    {
        self.end
    }
}
