//! Scopes of names.

ghost use Rattle.std.specs.Prelude.{◌≡◌, ◌<◌, [], IfOk, length, get_or};
ghost use Rattle.c_scopes.specs.Scopes.{before, all_but_last};
ghost use Rattle.c_scopes.specs.Bindings.{bound_by, AreBound};

use crate::hiding::Hiding;
use crate::names::Names;
use hy_bits::Memory;
use std::alloc::Global;
use std::marker::Model;

/// Names that are bound to numbers, in scopes within scopes. A name is looked up in time linear in its length, however many scopes are
/// open.
#[derive(Drop)]
pub struct Scopes {
    names: Names,
    hiding: Hiding,
    opened: Vec<usize>,
}

impl Model for Scopes {
    ghost use Rattle.std.specs.Prelude.{length};
    ghost use Rattle.c_scopes.specs.Scopes.{Scopes};
    ghost use Rattle.c_scopes.specs.Bindings.{bound_by, AreBound, AreOpened};

    ghost Value = { Scopes };

    ghost view = { λ s. record { bound = bound_by s.names s.hiding.told; opened = s.opened.items } };

    ghost invariant = { λ s. AreBound s.names s.hiding × AreOpened 0 s.opened.items (length s.hiding.told) };
}

impl Scopes {
    ghost use Rattle.std.specs.Prelude.{◌≡◌, OnOk, OnErr};
    ghost use Rattle.c_scopes.specs.Scopes as spec;
    ghost use Rattle.c_scopes.specs.Bindings.{place_of};

    /// The outermost scope, in which nothing is declared.
    pub fn new(alloc: Global) -> Scopes
        ensures { result ≡ spec.outermost }
    {
        Scopes {
            names: Names::new(alloc),
            hiding: Hiding::new(alloc),
            opened: Vec::new(alloc),
        }
    }

    /// The place of the last declaration of a name.
    fn place(&self, name: &[u8]) -> Option<usize>
        ensures { result ≡ place_of 0 self.now.bound name.now }
    {
        let id = self.names.id(name)?;
        self.hiding.latest(id)
    }

    /// What a name is bound to.
    pub fn found(&self, name: &[u8]) -> Option<u32>
        ensures { result ≡ spec.found self.now.bound name.now }
    {
        let at = self.place(name)?;
        Some(self.hiding.number(at))
    }

    /// What a name is bound to in the innermost scope itself.
    pub fn found_here(&self, name: &[u8]) -> Option<u32>
        ensures { result ≡ spec.found_here self.now name.now }
    {
        let at = self.place(name)?;
        if at >= self.before() {
            Some(self.hiding.number(at))
        } else {
            None
        }
    }

    /// How many names were bound before the innermost scope.
    fn before(&self) -> usize
        ensures { result ≡ spec.before self.now.opened }
    {
        match self.opened.last() {
            Some(before) => *before,
            None => 0,
        }
    }

    /// Opens a scope within the innermost one.
    ///
    /// # Errors
    ///
    /// Memory ran out.
    pub fn open(&mut self) -> Result<(), Memory>
        ensures opened { OnOk result (self.new ≡ spec.opened_in self.old) }
        ensures kept { OnErr result (self.new ≡ self.old) }
    {
        self.opened.push(self.hiding.len())?;
        Ok(())
    }

    /// Binds a name to a number in the innermost scope.
    ///
    /// # Errors
    ///
    /// Memory ran out.
    pub fn declare(&mut self, alloc: Global, name: &[u8], number: u32) -> Result<(), Memory>
        ensures declared { OnOk result (self.new ≡ spec.declared name.now number self.old) }
        ensures kept { OnErr result (self.new ≡ self.old) }
    {
        let id = id_of(alloc, &mut self.names, &mut self.hiding, name)?;
        self.hiding.declare(id, number)
    }

    /// Ends the innermost scope, and what is declared in it. Where only the outermost is open, what is declared there ends. It takes
    /// time linear in the declarations that end.
    pub fn close(&mut self)
        ensures { self.new ≡ spec.closed self.old }
    {
        let before = leave(&mut self.opened);
        self.hiding.cut(before);
    }
}

/// The number of a name, which is added if it isn't there.
///
/// # Errors
///
/// Memory ran out.
fn id_of(
    alloc: Global,
    names: &mut Names,
    hiding: &mut Hiding,
    name: &[u8],
) -> Result<usize, Memory>
    requires { AreBound names.old hiding.old }
    ensures told { hiding.new.told ≡ hiding.old.told }
    ensures same { bound_by names.new hiding.old.told ≡ bound_by names.old hiding.old.told }
    ensures bound { AreBound names.new hiding.new }
    ensures id { IfOk result (λ id. (id < length names.new) × (get_or names.new id [] ≡ name.now)) }
{
    if let Some(id) = names.id(name) {
        return Ok(id);
    }
    let id = names.len();
    hiding.add_name()?;
    names.note(alloc, name)?;
    Ok(id)
}

/// Leaves the innermost of the opened scopes, and says how many declarations stood before it.
fn leave(opened: &mut Vec<usize>) -> usize
    ensures before { result ≡ before opened.old.items }
    ensures left { opened.new.items ≡ all_but_last opened.old.items }
{
    match opened.pop() {
        Some(before) => before,
        None => 0,
    }
}
