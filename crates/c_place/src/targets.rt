//! Pointers as lists of guarded targets.
use std::alloc::Global;
use word_graph::{GraphFault, Node};

/// The place of a target among the cells of its object.
#[derive(Clone, Copy, Debug, PartialEq, Eq, Hash)]
pub struct Place {
    pub object: u32,
    pub first: u32,
    pub size: u32,
    pub length: u32,
}

/// An element of an object that a pointer may point to: where `guard` is 1, it points to the element `index` of the `length` elements of
/// `size` cells of which the first begins at the cell `first` of the object. `index` has 64 bits, and may lie outside.
#[derive(Clone, Copy, Debug, PartialEq, Eq)]
pub struct Target {
    pub guard: Node,
    pub object: u32,
    pub first: u32,
    pub size: u32,
    pub length: u32,
    pub index: Node,
}

impl Target {
    ghost use Rattle.std.specs.Prelude.{◌≡◌};
    ghost use Rattle.c_place.specs.Aims.{place_of};

    /// Its place.
    pub fn place(&self) -> Place
        ensures { result ≡ place_of self.now }
    {
        Place {
            object: self.object,
            first: self.first,
            size: self.size,
            length: self.length,
        }
    }
}

/// A pointer for all inputs: it is null where `null` is 1, and else points as the one target of `list` whose guard is 1.
#[derive(Debug, Drop)]
pub struct Targets {
    pub null: Node,
    pub list: Vec<Target>,
}

impl Targets {
    ghost use Rattle.std.specs.Prelude.{◌≡◌, IfOk, IfErr};
    ghost use Rattle.word_graph.specs.declared.graph.GraphFault.TheVariants.{Memory};

    /// A copy, in time linear in the targets.
    ///
    /// # Errors
    ///
    /// Memory ran out.
    pub fn copy(&self, alloc: Global) -> Result<Targets, GraphFault>
        ensures null { IfOk result (λ copy. copy.null ≡ self.now.null) }
        ensures list { IfOk result (λ copy. copy.list.items ≡ self.now.list.items) }
        ensures memory { IfErr result (λ e. e ≡ Memory) }
    {
        let list = Vec::from_slice(alloc, &self.list)?;
        Ok(Targets {
            null: self.null,
            list,
        })
    }
}
