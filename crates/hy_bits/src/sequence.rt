//! A list that contracts see as the list of its elements.
ghost use Rattle.std.specs.Prelude.{◌≡◌, ◌++◌, [], ◌∷◌, OnOk, OnErr, IfErr};

use std::alloc::AllocFailed;
use std::marker::Model;

/// A `Vec` that contracts see as the list of its elements alone, so that equal lists are equal values.
#[derive(Debug, Drop)]
pub struct Sequence<T> {
    items: Vec<T>,
}

impl<T> Model for Sequence<T> {
    ghost use Rattle.std.specs.Prelude.{List};

    ghost Value = { List T };

    ghost view = { λ a. a.items.items };
}

impl<T> Sequence<T> {
    /// The list of the elements of `items`. It takes no memory.
    pub fn new(items: Vec<T>) -> Sequence<T>
        ensures { result ≡ items.items }
    {
        Sequence { items }
    }

    /// The elements, in order.
    pub fn as_slice(&self) -> &[T]
        ensures { result.now ≡ self.now }
    {
        self.items.as_slice()
    }

    /// The elements, given back without taking memory.
    pub fn into_vec(self) -> Vec<T>
        ensures { result.items ≡ self }
    {
        let Sequence { items } = self;
        items
    }

    /// Puts `item` after the others.
    ///
    /// # Errors
    ///
    /// Memory ran out; the list is as before, and the error holds `item`.
    pub fn push(&mut self, item: T) -> Result<(), AllocFailed<T>>
        ensures ok { OnOk result (self.new ≡ self.old ++ item ∷ []) }
        ensures err { OnErr result (self.new ≡ self.old) }
        ensures returned { IfErr result (λ e. e.value ≡ item) }
    {
        self.items.push(item)
    }
}

/// The words of all inputs, in the order of the ports and of each port's leaves.
pub type Inputs = Sequence<u64>;

impl Sequence<u64> {
    /// The words, in order.
    pub fn words(&self) -> &[u64]
        ensures { result.now ≡ self.now }
    {
        self.items.as_slice()
    }

    /// The words, given back without taking memory.
    pub fn into_words(self) -> Vec<u64>
        ensures { result.items ≡ self }
    {
        let Sequence { items } = self;
        items
    }
}
