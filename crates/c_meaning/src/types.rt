use c_tree::Place;
use hy_bits::{Scalar, Text};
use sqlite_items::{Boxed, Items};

/// Whether a type is qualified by `const` (C11 6.7.3).
#[derive(Clone, Copy, Debug, PartialEq, Eq)]
pub enum Qualifier {
    Unqualified,
    Const,
}

/// A type (C11 6.2.5).
#[cycle(types)]
#[derive(Drop)]
pub enum CType {
    Void,
    Int(Scalar),
    /// A number of elements, and their type.
    Array(u32, Boxed<CType>),
    /// The struct of this number.
    Struct(u32),
    /// Whether what is pointed to is const, and its type.
    Pointer(Qualifier, Boxed<CType>),
}

/// A member of a struct (C11 6.7.2.1): `offset` is the number of its first cell in the struct, and `cells` how many it has.
#[derive(Drop)]
pub struct Member {
    pub name: Text,
    pub ctype: CType,
    pub offset: u32,
    pub cells: u32,
}

/// A struct with its tag, empty where it has none, its members in order, and the number of its cells.
#[derive(Drop)]
pub struct StructType {
    pub name: Text,
    pub members: Items<Member>,
    pub cells: u32,
}

/// An object that a declaration makes, at the place of its name. `start` has one word for each cell of an object of file
/// scope, 0 for a null pointer, and is `None` elsewhere. `cells` is the number of its cells.
#[derive(Drop)]
pub struct Object {
    pub name: Text,
    pub place: Place,
    pub qualifier: Qualifier,
    pub ctype: CType,
    pub cells: u32,
    pub start: Option<Items<u64>>,
}

/// What evaluation asks of a value's type: whether it is a number, a pointer, or the struct of a number.
#[derive(Clone, Copy, Debug, PartialEq, Eq)]
pub enum ValueKind {
    Void,
    Integer(Scalar),
    Pointer,
    Struct(u32),
}
