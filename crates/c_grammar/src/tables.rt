ghost use Rattle.std.specs.Prelude.{◌≡◌, if◌then◌else◌};
ghost use Rattle.c_tree.specs.Operators as operators;
ghost use Rattle.c_grammar.specs.Tokens as spec;
ghost use Rattle.c_grammar.specs.Types as types;

use c_reader::{found_in, found_of, is_kind, is_mark, is_word};
use c_tree::{BinaryOperator, Literal, Token, TokenKind, TypeWord, UnaryOperator};

/// The operators before their operands.
const PREFIXES: [(&str, UnaryOperator); 6] = [
    ("+", UnaryOperator::Plus),
    ("-", UnaryOperator::Minus),
    ("~", UnaryOperator::Complement),
    ("!", UnaryOperator::Not),
    ("*", UnaryOperator::Indirection),
    ("&", UnaryOperator::Address),
];

/// The operator before an operand that a token is, if it is one.
#[tactic(auto, unfolding(crate::specs::Tokens::prefix_of))]
pub fn prefix_of(token: &Token) -> Option<UnaryOperator>
    ensures { result ≡ spec.prefix_of token.now }
{
    found_of(TokenKind::Mark, PREFIXES.as_slice(), token)
}

/// The operators between two operands.
const OPERATORS: [(&str, BinaryOperator); 18] = [
    ("||", BinaryOperator::LogicalOr),
    ("&&", BinaryOperator::LogicalAnd),
    ("|", BinaryOperator::Or),
    ("^", BinaryOperator::Xor),
    ("&", BinaryOperator::And),
    ("==", BinaryOperator::Equal),
    ("!=", BinaryOperator::Unequal),
    ("<", BinaryOperator::Less),
    (">", BinaryOperator::Greater),
    ("<=", BinaryOperator::LessOrEqual),
    (">=", BinaryOperator::GreaterOrEqual),
    ("<<", BinaryOperator::ShiftLeft),
    (">>", BinaryOperator::ShiftRight),
    ("+", BinaryOperator::Add),
    ("-", BinaryOperator::Subtract),
    ("*", BinaryOperator::Multiply),
    ("/", BinaryOperator::Divide),
    ("%", BinaryOperator::Remainder),
];

/// The operator between two operands that a token is, if it is one.
#[tactic(auto, unfolding(crate::specs::Tokens::operator_of))]
pub fn operator_of(token: &Token) -> Option<BinaryOperator>
    ensures { result ≡ spec.operator_of token.now }
{
    found_of(TokenKind::Mark, OPERATORS.as_slice(), token)
}

/// The words that spell types.
const TYPE_WORDS: [(&str, TypeWord); 17] = [
    ("void", TypeWord::Void),
    ("_Bool", TypeWord::Underscored),
    ("bool", TypeWord::Bool),
    ("char", TypeWord::Char),
    ("signed", TypeWord::Signed),
    ("unsigned", TypeWord::Unsigned),
    ("short", TypeWord::Short),
    ("int", TypeWord::Int),
    ("long", TypeWord::Long),
    ("int8_t", TypeWord::Int8),
    ("int16_t", TypeWord::Int16),
    ("int32_t", TypeWord::Int32),
    ("int64_t", TypeWord::Int64),
    ("uint8_t", TypeWord::Uint8),
    ("uint16_t", TypeWord::Uint16),
    ("uint32_t", TypeWord::Uint32),
    ("uint64_t", TypeWord::Uint64),
];

/// The word of a type's spelling that a token is, if it is one.
#[tactic(auto, unfolding(crate::specs::Tokens::type_word_of))]
pub fn type_word_of(token: &Token) -> Option<TypeWord>
    ensures { result ≡ spec.type_word_of token.now }
{
    found_of(TokenKind::Word, TYPE_WORDS.as_slice(), token)
}

/// The words that are literals.
const LITERAL_WORDS: [(&str, Literal); 2] = [("true", Literal::True), ("false", Literal::False)];

/// The literal that a token is, if it is one.
#[tactic(auto, unfolding(crate::specs::Tokens::literal_by))]
pub fn literal_of(token: &Token) -> Option<Literal>
    ensures { result ≡ spec.literal_of token.now }
{
    match token.kind {
        TokenKind::Word => found_in(LITERAL_WORDS.as_slice(), token.text.as_bytes()),
        TokenKind::Integer => Some(Literal::Integer(token.scalar, token.number)),
        TokenKind::Character => Some(Literal::Character(token.scalar, token.number)),
        _ => None,
    }
}

/// How many levels of binary operators there are; those of the tightest are `*`, `/` and `%`.
pub const BINARY_LEVELS: u8 = 10;

/// How strongly an operator binds, from 1 for `||` to 10 for `*` (C11 6.5.5 to 6.5.14).
pub fn level_of(operator: BinaryOperator) -> u8
    ensures { result ≡ operators.level_of operator }
{
    match operator {
        BinaryOperator::LogicalOr => 1,
        BinaryOperator::LogicalAnd => 2,
        BinaryOperator::Or => 3,
        BinaryOperator::Xor => 4,
        BinaryOperator::And => 5,
        BinaryOperator::Equal | BinaryOperator::Unequal => 6,
        BinaryOperator::Less
        | BinaryOperator::Greater
        | BinaryOperator::LessOrEqual
        | BinaryOperator::GreaterOrEqual => 7,
        BinaryOperator::ShiftLeft | BinaryOperator::ShiftRight => 8,
        BinaryOperator::Add | BinaryOperator::Subtract => 9,
        BinaryOperator::Multiply | BinaryOperator::Divide | BinaryOperator::Remainder => {
            BINARY_LEVELS
        }
    }
}

/// The operator of this level between two operands that a token is, if it is one.
pub fn operator_of_level(level: u8, token: &Token) -> Option<BinaryOperator>
    ensures { result ≡ (if spec.is_operator level token.now then spec.operator_of token.now else None) }
{
    match operator_of(token) {
        Some(operator) if level_of(operator) == level => Some(operator),
        _ => None,
    }
}

/// Whether a token is an operator of this level between two operands.
pub fn is_operator(level: u8, token: &Token) -> bool
    ensures { result ≡ spec.is_operator level token.now }
{
    match operator_of(token) {
        Some(operator) => level_of(operator) == level,
        None => false,
    }
}

/// Whether a token is an operator before an operand.
pub fn is_prefix(token: &Token) -> bool
    ensures { result ≡ spec.is_prefix token.now }
{
    prefix_of(token).is_some()
}

/// Whether a token is a word of a type's spelling.
pub fn is_type_word(token: &Token) -> bool
    ensures { result ≡ spec.is_type_word token.now }
{
    type_word_of(token).is_some()
}

/// Whether an index or a member begins with this token.
#[tactic(auto, unfolding(crate::specs::Tokens::suffix_by, c_reader::specs::Tokens::spelled_by, c_reader::specs::Tokens::is_spelled, c_reader::specs::Tokens::is_kind))]
pub fn is_suffix(token: &Token) -> bool
    ensures { result ≡ spec.is_suffix token.now }
{
    is_mark("[", token) || is_mark(".", token) || is_mark("->", token)
}

/// Whether a type's spelling begins with this token.
#[tactic(auto, unfolding(crate::specs::Tokens::type_by, c_reader::specs::Tokens::spelled_by, c_reader::specs::Tokens::is_spelled, c_reader::specs::Tokens::is_kind, c_reader::specs::Tokens::found_by, c_reader::specs::Tokens::found_of, crate::specs::Tokens::type_word_of))]
pub fn starts_type(token: &Token) -> bool
    ensures { result ≡ spec.starts_type token.now }
{
    is_word("const", token)
        || is_type_word(token)
        || is_tag_word(token)
        || is_kind(TokenKind::TypeName, token)
}

/// Whether a struct or an enum begins with this token.
pub fn is_tag_word(token: &Token) -> bool
    ensures { result ≡ types.is_tag_word token.now }
{
    is_word("struct", token) || is_word("enum", token)
}

/// Whether an expression begins with this token.
#[tactic(auto, unfolding(crate::specs::Tokens::expr_by, c_reader::specs::Tokens::spelled_by, c_reader::specs::Tokens::is_spelled, c_reader::specs::Tokens::is_kind, c_reader::specs::Tokens::found_by, c_reader::specs::Tokens::found_of, crate::specs::Tokens::prefix_of))]
pub fn starts_expr(token: &Token) -> bool
    ensures { result ≡ spec.starts_expr token.now }
{
    is_kind(TokenKind::Name, token)
        || is_kind(TokenKind::Integer, token)
        || is_kind(TokenKind::Character, token)
        || is_word("true", token)
        || is_word("false", token)
        || is_mark("(", token)
        || is_prefix(token)
}
