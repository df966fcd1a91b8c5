use c_meaning::{CType, Object, Qualifier, StructType, TypedFunction};
use c_scopes::Scopes;
use sqlite_items::Items;

/// What an ordinary identifier stands for (C11 6.2.3).
#[derive(Clone, Copy, Debug, PartialEq, Eq)]
pub enum Entity {
    /// The object of the number.
    Object(u32),
    /// An enumerator with its word of the type `int`.
    Enumerator(u64),
    /// The function of the number.
    Function(u32),
    /// The `typedef` of the number.
    TypeName(u32),
}

/// What a tag stands for (C11 6.7.2.3): an enum, or a struct with how much of it is known.
#[derive(Clone, Copy, Debug, PartialEq, Eq)]
pub enum Tag {
    Enum,
    /// A struct that is declared, and has no members yet.
    Declared,
    /// A struct whose members are being declared.
    Open,
    /// The struct of the number.
    Complete(u32),
}

/// A type with its qualifier (C11 6.2.5p26).
#[derive(Drop)]
pub struct QualifiedType {
    pub ctype: CType,
    pub qualifier: Qualifier,
}

/// What is declared so far. Names are bound to numbers of `entities`, and tags to numbers of `tags`. The functions are those whose
/// definitions are complete: a function that isn't among them is the one whose body is walked. Each struct has a name space of its own, in
/// which its members are bound to their numbers (C11 6.2.3).
#[derive(Drop)]
pub struct Environment {
    pub names: Scopes,
    pub entities: Items<Entity>,
    pub tag_names: Scopes,
    pub tags: Items<Tag>,
    pub typedefs: Items<QualifiedType>,
    pub structs: Items<StructType>,
    pub member_names: Items<Scopes>,
    pub objects: Items<Object>,
    pub functions: Items<TypedFunction>,
    pub main_function: Option<u32>,
    pub cells: u32,
}
