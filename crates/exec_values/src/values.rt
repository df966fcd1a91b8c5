//! Values and what lvalues designate, for all inputs.
use c_place::Targets;
use word_graph::Node;

/// The value of an expression: a word, the words of a struct, or a pointer.
#[derive(Debug, Drop)]
pub enum WordValue {
    Nothing,
    Word(Node),
    Struct(Vec<Node>),
    Pointer(Targets),
}

/// `cells` cells from the cell `offset` of an element on.
#[derive(Clone, Copy, Debug, PartialEq, Eq)]
pub struct Cut {
    pub offset: u32,
    pub cells: u32,
}

/// What an lvalue designates: an object that is a pointer, or an element that is pointed to, or a part of it.
#[derive(Debug, Drop)]
pub enum Located {
    Pointer(u32),
    Words { to: Targets, part: Option<Cut> },
}
