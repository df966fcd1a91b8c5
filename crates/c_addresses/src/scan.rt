ghost use Rattle.std.specs.Prelude.{◌≡◌};

use c_scopes::Scopes;
use hy_bits::Memory;
use sqlite_items::Items;
use std::alloc::Global;

/// The names that are declared, each bound to the number of its declaration, and for each declaration whether its address is taken so far.
#[derive(Drop)]
pub struct Scanning {
    pub names: Scopes,
    pub addressed: Items<bool>,
}

impl Scanning {
    ghost use Rattle.std.specs.Prelude.{◌≡◌, OnOk};
    ghost use Rattle.c_addresses.specs.Scans as spec;

    /// Nothing is declared.
    pub fn new(alloc: Global) -> Scanning
        ensures { result ≡ spec.nothing_scanned }
    {
        Scanning {
            names: Scopes::new(alloc),
            addressed: Items::new(alloc),
        }
    }

    /// One more declaration of a name. It takes time linear in the name.
    ///
    /// # Errors
    ///
    /// Memory ran out.
    pub fn declare(&mut self, alloc: Global, name: &[u8]) -> Result<(), Memory>
        ensures { OnOk result (self.new ≡ spec.declares name.now self.old) }
    {
        let number = u32::try_from(self.addressed.len()).map_err(|_| Memory)?;
        self.names.declare(alloc, name, number)?;
        self.addressed.push(false)?;
        Ok(())
    }

    /// Notes that the address of what a name stands for is taken.
    pub fn take(&mut self, name: &[u8])
        ensures { self.new ≡ spec.takes name.now self.old }
    {
        if let Some(number) = self.names.found(name) {
            let number = number as usize;
            if number < self.addressed.len() {
                self.addressed.set(number, true);
            }
        }
    }

    /// Opens a scope.
    ///
    /// # Errors
    ///
    /// Memory ran out.
    pub fn open(&mut self) -> Result<(), Memory>
        ensures { OnOk result (self.new ≡ spec.opens self.old) }
    {
        self.names.open()
    }

    /// Ends the innermost scope.
    pub fn close(&mut self)
        ensures { self.new ≡ spec.closes self.old }
    {
        self.names.close();
    }
}
