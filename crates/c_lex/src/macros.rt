ghost use Rattle.std.specs.Prelude.{◌≡◌, ◌++◌, ◌∷◌, OnOk, [], None};
ghost use Rattle.std.specs.Option.{option_copied};
ghost use Rattle.c_lex.specs.Names.{list_of};

use c_tree::Token;
use hy_bits::Memory;
use indexmap::IndexMap;
use std::alloc::Global;
use std::marker::Model;

/// The lists that names stand for, in the order of their definitions. A look-up takes time in the length of the name.
#[derive(Drop)]
pub struct Macros {
    table: IndexMap<Vec<u8>, Vec<Token>>,
}

impl Model for Macros {
    ghost use Rattle.std.specs.Prelude.{ℕ, List, map};
    ghost use Rattle.c_lex.specs.Names.{Macro};

    ghost Value = { List Macro };

    ghost view = { λ m. map (λ entry. record { name = entry.0.items; tokens = entry.1.items }) m.table.entries };
}

impl Macros {
    /// No macros.
    pub fn new(alloc: Global) -> Macros
        ensures { result ≡ [] }
    {
        Macros {
            table: IndexMap::new(alloc),
        }
    }

    /// The list of a name that is a macro's.
    pub fn list_of(&self, name: &[u8]) -> Option<&[Token]>
        ensures { option_copied result ≡ list_of self.now name.now }
    {
        let list = self.table.get(name)?;
        Some(list.as_slice())
    }

    /// Defines a name that has no list yet.
    pub fn define(&mut self, alloc: Global, name: &[u8], list: Vec<Token>) -> Result<(), Memory>
        requires { list_of self.old name.now ≡ None }
        ensures { OnOk result (self.new ≡ self.old ++ record { name = name.now; tokens = list.items } ∷ []) }
    {
        let name = Vec::from_slice(alloc, name)?;
        self.table.insert(name, list)?;
        Ok(())
    }
}
