//! Declarations of names that are numbers, each of which hides the one before it.

ghost use Rattle.std.specs.Prelude.{◌≡◌};

use hy_bits::Memory;
use std::alloc::Global;
use std::marker::Model;

/// A declaration: the number of its name, what it is bound to, and the index of the declaration of the same name that it hides.
#[derive(Clone, Copy, Debug)]
pub struct Declaration {
    pub id: usize,
    pub number: u32,
    pub outer: Option<usize>,
}

/// Declarations in order, with the latest of each name.
#[derive(Drop)]
pub struct Hiding {
    tops: Vec<Option<usize>>,
    declarations: Vec<Declaration>,
}

impl Model for Hiding {
    ghost use Rattle.std.specs.Prelude.{length, map};
    ghost use Rattle.c_scopes.specs.Hiding.{IsHiding, Declarations, told};

    ghost Value = { Declarations };

    ghost view = { λ h. record { names = length h.tops.items; told = map told h.declarations.items } };

    ghost invariant = { λ h. IsHiding h.tops.items h.declarations.items };
}

impl Hiding {
    ghost use Rattle.std.specs.Prelude.{◌≡◌, ◌<◌, ◌+◌, ◌-◌, ◌++◌, ◌∷◌, [], Some, OnOk, OnErr, IfSome, length, take, map, slice_get};
    ghost use Rattle.c_scopes.specs.Hiding.{Declarations, Told, latest};

    /// No names and no declarations.
    pub fn new(alloc: Global) -> Hiding
        ensures { result ≡ record { names = 0; told = [] } }
    {
        Hiding {
            tops: Vec::new(alloc),
            declarations: Vec::new(alloc),
        }
    }

    /// The number of declarations.
    pub fn len(&self) -> usize
        ensures { result ≡ length self.now.told }
    {
        self.declarations.as_slice().len()
    }

    /// The index of the latest declaration of a name, and the number that it is bound to.
    pub fn latest(&self, id: usize) -> Option<usize>
        requires { id < self.now.names }
        ensures { result ≡ latest 0 (map (λ d. d.id) self.now.told) id }
    {
        self.tops[id]
    }

    /// What the declaration at an index is bound to.
    pub fn number(&self, at: usize) -> u32
        requires { at < length self.now.told }
        ensures { (told : Told) × (slice_get self.now.told at ≡ Some told) × (result ≡ told.number) }
    {
        self.declarations[at].number
    }

    /// One more name, which has no declaration.
    ///
    /// # Errors
    ///
    /// Memory ran out.
    pub fn add_name(&mut self) -> Result<(), Memory>
        ensures added { OnOk result (self.new ≡ record self.old { names = self.old.names + 1 }) }
        ensures kept { OnErr result (self.new ≡ self.old) }
    {
        self.tops.push(None)?;
        Ok(())
    }

    /// One more declaration of a name.
    ///
    /// # Errors
    ///
    /// Memory ran out.
    pub fn declare(&mut self, id: usize, number: u32) -> Result<(), Memory>
        requires { id < self.old.names }
        ensures added { OnOk result (self.new ≡ record self.old { told = self.old.told ++ record { id = id; number = number } ∷ [] }) }
        ensures kept { OnErr result (self.new ≡ self.old) }
    {
        let outer = self.tops[id];
        let at = self.declarations.as_slice().len();
        self.declarations.push(Declaration { id, number, outer })?;
        self.tops[id] = Some(at);
        Ok(())
    }

    /// Takes declarations away from the last on, until no more than `count` are left. It takes time linear in those that go.
    pub fn cut(&mut self, count: usize)
        ensures { self.new ≡ record self.old { told = take count self.old.told } }
    {
        while self.len() > count {
            self.undo();
        }
    }

    /// Takes the last declaration away, if there is one.
    fn undo(&mut self)
        ensures { self.new ≡ record self.old { told = take (length self.old.told - 1) self.old.told } }
    {
        if let Some(last) = self.declarations.pop() {
            self.tops[last.id] = last.outer;
        }
    }
}
