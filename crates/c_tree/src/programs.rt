use crate::expressions::{Dimension, Identifier, Specifiers, TagSpecifier};
use crate::statements::{Block, Declaration, Pointer};
use crate::token::Place;
use sqlite_items::{Boxed, Items};

/// A parameter of a function (C11 6.9.1).
#[derive(Drop)]
pub struct Parameter {
    pub specs: Specifiers,
    pub pointer: Option<Pointer>,
    pub name: Identifier,
    pub dimensions: Items<Dimension>,
}

/// What stands between the brackets of a function's head: nothing, `void` at its place, or parameters, one at least.
#[derive(Drop)]
pub enum Parameters {
    Nothing,
    Void(Place),
    List(Items<Parameter>),
}

/// The specifiers before a function: `inline` at their places, and a `static` with more of them.
#[derive(Drop)]
pub struct FunctionSpecifiers {
    pub inline: Items<Place>,
    pub fixed: Option<StaticSpecifier>,
}

/// `static` at its place, and the places of `inline` after it.
#[derive(Drop)]
pub struct StaticSpecifier {
    pub place: Place,
    pub inline: Items<Place>,
}

/// A function definition (C11 6.9.1).
#[derive(Drop)]
pub struct Function {
    pub words: FunctionSpecifiers,
    pub specs: Specifiers,
    pub name: Identifier,
    pub parameters: Parameters,
    pub body: Block,
}

/// An external declaration (C11 6.9).
#[derive(Drop)]
pub enum ExternalDeclaration {
    /// A `typedef` at its place.
    Typedef {
        place: Place,
        specs: Boxed<Specifiers>,
        name: Identifier,
        dimensions: Items<Dimension>,
    },
    TagSpecifier(Boxed<TagSpecifier>),
    /// The place of the `static`, if there is one, and the declaration.
    Declaration(Option<Place>, Boxed<Declaration>),
    Function(Boxed<Function>),
}
