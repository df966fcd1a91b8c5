use crate::token::Place;
use hy_bits::{Scalar, Text};
use sqlite_items::{Boxed, Items};

/// An identifier at its place (C11 6.4.2).
#[derive(Debug, Drop)]
pub struct Identifier {
    pub place: Place,
    pub text: Text,
}

/// A binary operator, in the order of the levels from the loosest on (C11 6.5.5 to 6.5.14).
#[derive(Clone, Copy, Debug, PartialEq, Eq)]
pub enum BinaryOperator {
    LogicalOr,
    LogicalAnd,
    Or,
    Xor,
    And,
    Equal,
    Unequal,
    Less,
    Greater,
    LessOrEqual,
    GreaterOrEqual,
    ShiftLeft,
    ShiftRight,
    Add,
    Subtract,
    Multiply,
    Divide,
    Remainder,
}

/// A unary operator (C11 6.5.3). `Indirection` is the unary `*`.
#[derive(Clone, Copy, Debug, PartialEq, Eq)]
pub enum UnaryOperator {
    Plus,
    Minus,
    Complement,
    Not,
    Indirection,
    Address,
}

/// A literal: an integer or a character with its type and its word, `true` or `false`.
#[derive(Clone, Copy, Debug, PartialEq, Eq)]
pub enum Literal {
    Integer(Scalar, u64),
    Character(Scalar, u64),
    True,
    False,
}

/// Whether a comma stands after the last entry of a list in braces.
#[derive(Clone, Copy, Debug, PartialEq, Eq)]
pub enum TrailingComma {
    Absent,
    Present,
}

/// An expression (C11 6.5). The place of its first token is its own, or that of its first part.
#[cycle(source)]
#[derive(Drop)]
pub enum Expr {
    Name(Identifier),
    Literal(Place, Literal),
    /// A function call; `bracket` is the place of its opening bracket.
    Call {
        function: Identifier,
        bracket: Place,
        arguments: Items<Expr>,
    },
    /// An expression in brackets, of which the first stands at the place.
    Parenthesized(Place, Boxed<Expr>),
    /// A primary expression and the subscripts and members after it, one at least.
    Postfix(Boxed<Expr>, Items<Suffix>),
    /// An operator and its operand.
    Unary {
        place: Place,
        operator: UnaryOperator,
        operand: Boxed<Expr>,
    },
    /// A cast; `place` is that of its opening bracket.
    Cast {
        place: Place,
        specs: Boxed<Specifiers>,
        operand: Boxed<Expr>,
    },
    /// The operands of binary operators of one level: the first, and the others with their operators, one at least.
    BinaryChain(Boxed<Expr>, Items<Operand>),
    /// A conditional expression; `place` is that of its `?`.
    Conditional {
        condition: Boxed<Expr>,
        place: Place,
        second: Boxed<Expr>,
        third: Boxed<Expr>,
    },
}

/// An operand of a chain after its operator, which stands at the place.
#[cycle(source)]
#[derive(Drop)]
pub struct Operand {
    pub place: Place,
    pub operator: BinaryOperator,
    pub value: Expr,
}

/// What stands after a primary expression, with the place of its punctuator.
#[cycle(source)]
#[derive(Drop)]
pub enum Suffix {
    Index(Place, Expr),
    /// `.` and a member.
    Member(Place, Identifier),
    /// `->` and a member.
    Arrow(Place, Identifier),
}

/// A word of the spelling of a type (C11 6.7.2, 7.18, 7.20.1.1). `Underscored` is `_Bool`.
#[derive(Clone, Copy, Debug, PartialEq, Eq)]
pub enum TypeWord {
    Void,
    Underscored,
    Bool,
    Char,
    Signed,
    Unsigned,
    Short,
    Int,
    Long,
    Int8,
    Int16,
    Int32,
    Int64,
    Uint8,
    Uint16,
    Uint32,
    Uint64,
}

/// The specifiers of a type: what names it, between the places of its `const` before and after.
#[cycle(source)]
#[derive(Drop)]
pub struct Specifiers {
    pub before: Items<Place>,
    pub kind: TypeSpecifier,
    pub after: Items<Place>,
}

/// What names a type: words, one at least, a struct or an enum, or a name that a `typedef` declares.
#[cycle(source)]
#[derive(Drop)]
pub enum TypeSpecifier {
    /// The place of the first word, and the words.
    Words(Place, Items<TypeWord>),
    TagSpecifier(TagSpecifier),
    TypeName(Identifier),
}

/// A struct or an enum with its tag, its body in braces, or both (C11 6.7.2.1, 6.7.2.2).
#[cycle(source)]
#[derive(Drop)]
pub enum TagSpecifier {
    Struct {
        place: Place,
        tag: Option<Identifier>,
        members: Option<Items<StructDeclaration>>,
    },
    Enum {
        place: Place,
        tag: Option<Identifier>,
        enumerators: Option<Items<Enumerator>>,
        comma: TrailingComma,
    },
}

/// A declaration of members of one type: one declarator at least.
#[cycle(source)]
#[derive(Drop)]
pub struct StructDeclaration {
    pub specs: Specifiers,
    pub names: Items<StructDeclarator>,
}

/// A declared member with its dimensions.
#[cycle(source)]
#[derive(Drop)]
pub struct StructDeclarator {
    pub name: Identifier,
    pub dimensions: Items<Dimension>,
}

/// A dimension with the place of its bracket. It may be empty.
#[cycle(source)]
#[derive(Drop)]
pub struct Dimension {
    pub place: Place,
    pub size: Option<Expr>,
}

/// An enumerator, with its value if that is written.
#[cycle(source)]
#[derive(Drop)]
pub struct Enumerator {
    pub name: Identifier,
    pub value: Option<Expr>,
}
