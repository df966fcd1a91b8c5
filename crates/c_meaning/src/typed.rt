ghost use Rattle.std.specs.Prelude.{◌≡◌};
ghost use Rattle.c_meaning.specs.StatementRules.{IsTyped};

use crate::programs::TypedFunction;
use crate::types::{Object, StructType};
use hy_bits::{Port, Shape};
use sqlite_items::Items;
use std::marker::Model;

/// The parts of a typed program: structs, objects and functions by their numbers in the order of the text; the number of
/// `mpc_main`; its ports and its result; the number of cells of all objects; and the sizes of its runs: the statements that
/// are visited, the nodes of its graph and the gates of their circuits, where 2^63 stands for more.
#[derive(Drop)]
pub struct TypedParts {
    pub structs: Items<StructType>,
    pub objects: Items<Object>,
    pub functions: Items<TypedFunction>,
    pub main_function: u32,
    pub ports: Items<Port>,
    pub result: Shape,
    pub cells: u32,
    pub visits: u64,
    pub nodes: u64,
    pub gates: u64,
}

/// A typed program: it keeps the rules of C's types, as far as its parts show them, and has its sizes.
#[derive(Drop)]
pub struct Typed {
    parts: TypedParts,
}

impl Model for Typed {
    ghost use Rattle.std.specs.Coded.{codes};
    ghost use Rattle.hy_bits.specs.contracts.shape.Shape as shape;
    ghost use Rattle.c_meaning.specs.contracts.types.CType as ctype;
    ghost use Rattle.c_meaning.specs.contracts.statements.TypedBlock as block;
    ghost use Rattle.c_meaning.specs.declared.typed.TypedParts.{TypedParts};
    ghost use Rattle.c_meaning.specs.StatementRules.{IsTyped};

    ghost Value = { TypedParts };

    ghost coded = { Prim.hlevel (codes, shape.the_row.coded, ctype.the_row.coded, block.the_row.coded) };

    ghost view = { λ t. t.parts };

    ghost invariant = { λ t. IsTyped t.parts };
}

impl Typed {
    /// The typed program of these parts. It takes no memory.
    pub fn new(parts: TypedParts) -> Typed
        requires { IsTyped parts }
        ensures { result ≡ parts }
    {
        Typed { parts }
    }

    /// The parts.
    pub fn parts(&self) -> &TypedParts
        ensures parts { result.now ≡ self.now }
        ensures typed { IsTyped self.now }
    {
        &self.parts
    }
}
