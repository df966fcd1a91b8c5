//! Names with numbers.

ghost use Rattle.std.specs.Prelude.{◌≡◌};

use hy_bits::Memory;
use indexmap::IndexSet;
use std::alloc::Global;
use std::marker::Model;

/// Names, each once, in the order in which they came, so that each has a number. A name is looked up in time linear in its length.
#[derive(Drop)]
pub struct Names {
    set: IndexSet<Vec<u8>>,
}

impl Model for Names {
    ghost use Rattle.std.specs.Prelude.{ℕ, List, map};

    ghost Value = { List (List ℕ) };

    ghost view = { λ n. map (λ name. name.items) n.set.keys };
}

impl Names {
    ghost use Rattle.std.specs.Prelude.{◌≡◌, [], OnOk, OnErr, position, length};
    ghost use Rattle.c_scopes.specs.Bindings.{noted};
    ghost use Rattle.std.specs.List.{list_any};
    ghost use Rattle.std.specs.Str.{bytes_eq};

    /// No names.
    pub fn new(alloc: Global) -> Names
        ensures { result ≡ [] }
    {
        Names {
            set: IndexSet::new(alloc),
        }
    }

    /// The number of names.
    pub fn len(&self) -> usize
        ensures { result ≡ length self.now }
    {
        self.set.len()
    }

    /// The number of a name.
    pub fn id(&self, name: &[u8]) -> Option<usize>
        ensures { result ≡ position (bytes_eq name.now) self.now }
    {
        self.set.get_index_of(name)
    }

    /// Whether a name is among these.
    fn has(&self, name: &[u8]) -> bool
        ensures { result ≡ list_any (bytes_eq name.now) self.now }
    {
        self.set.contains(name)
    }

    /// Adds a name, if it isn't there yet.
    ///
    /// # Errors
    ///
    /// Memory ran out.
    pub fn note(&mut self, alloc: Global, name: &[u8]) -> Result<(), Memory>
        ensures noted { OnOk result (self.new ≡ noted self.old name.now) }
        ensures kept { OnErr result (self.new ≡ self.old) }
    {
        if !self.has(name) {
            let name = Vec::from_slice(alloc, name)?;
            self.set.insert(name)?;
        }
        Ok(())
    }
}
