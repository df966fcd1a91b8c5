//! Lists of numbers, by their own numbers.
ghost use Rattle.std.specs.Prelude.{◌≡◌, ◌<◌, ◌++◌, ◌∷◌, [], length, replicate, IfOk, OnOk};
ghost use Rattle.module_split.specs.Lists.{at, ends_with, with_last, Puts};

use hy_bits::Memory;
use std::alloc::Global;
use std::marker::Model;

/// A number of lists. Contracts see them as a list of lists.
#[derive(Drop)]
pub struct Lists {
    lists: Vec<Vec<u32>>,
}

impl Model for Lists {
    ghost use Rattle.std.specs.Prelude.{ℕ, List, map};
    ghost use Rattle.module_split.specs.Lists.{items_of};

    ghost Value = { List (List ℕ) };

    ghost view = { λ l. items_of l.lists.items };
}

/// Whether the last of the numbers is `number`.
fn ends_with(numbers: &[u32], number: u32) -> bool
    ensures { result ≡ ends_with numbers.now number }
{
    match numbers {
        [.., last] => *last == number,
        [] => false,
    }
}

impl Lists {
    /// So many empty lists.
    pub fn new(alloc: Global, count: usize) -> Result<Lists, Memory>
        ensures { IfOk result (λ l. l ≡ replicate count []) }
    {
        let mut lists = Vec::new(alloc);
        for _ in 0..count {
            lists.push(Vec::new(alloc))?;
        }
        Ok(Lists { lists })
    }

    /// The list of a number.
    pub fn get(&self, list: usize) -> &[u32]
        requires { list < length self.now }
        ensures { result.now ≡ at self.now list }
    {
        self.lists[list].as_slice()
    }

    /// Puts a number at the end of a list.
    pub fn add(&mut self, list: usize, number: u32) -> Result<(), Memory>
        requires { list < length self.old }
        ensures { OnOk result (Puts self.old self.new list (at self.old list ++ number ∷ [])) }
    {
        self.lists[list].push(number)?;
        Ok(())
    }

    /// Puts a number at the end of a list, unless it is there.
    pub fn add_once(&mut self, list: usize, number: u32) -> Result<(), Memory>
        requires { list < length self.old }
        ensures { OnOk result (Puts self.old self.new list (with_last (at self.old list) number)) }
    {
        if !ends_with(self.get(list), number) {
            self.add(list, number)?;
        }
        Ok(())
    }
}
