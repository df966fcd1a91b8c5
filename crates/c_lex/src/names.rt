ghost use Rattle.std.specs.Prelude.{◌≡◌, OnOk, []};
ghost use Rattle.c_lex.specs.Names.{is_noted, noted};

use hy_bits::Memory;
use indexmap::IndexSet;
use std::alloc::Global;
use std::marker::Model;

/// Names, each once, in the order in which they came. A look-up takes time in the length of the name.
#[derive(Drop)]
pub struct Names {
    set: IndexSet<Vec<u8>>,
}

impl Model for Names {
    ghost use Rattle.std.specs.Prelude.{ℕ, List, map};

    ghost Value = { List (List ℕ) };

    ghost view = { λ n. map (λ name. name.items) n.set.keys };
}

impl Names {
    /// No names.
    pub fn new(alloc: Global) -> Names
        ensures { result ≡ [] }
    {
        Names {
            set: IndexSet::new(alloc),
        }
    }

    /// Whether the name is among these.
    pub fn has(&self, name: &[u8]) -> bool
        ensures { result ≡ is_noted self.now name.now }
    {
        self.set.contains(name)
    }

    /// Adds a name, if it isn't there.
    pub fn note(&mut self, alloc: Global, name: &[u8]) -> Result<(), Memory>
        ensures { OnOk result (self.new ≡ noted self.old name.now) }
    {
        if !self.has(name) {
            let name = Vec::from_slice(alloc, name)?;
            self.set.insert(name)?;
        }
        Ok(())
    }
}
