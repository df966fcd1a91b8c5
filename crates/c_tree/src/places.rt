//! The places of first tokens, and expressions without the brackets around them.

ghost use Rattle.std.specs.Prelude.{◌≡◌, true, Some};
ghost use Rattle.c_tree.specs.Pieces.{first_place};
ghost use Rattle.c_tree.specs.Folds.{wants_of_expr, wants_of_specs, wants_of_spelling, wants_of_tag, are_specs, is_spelling_tree};
ghost use Rattle.c_tree.specs.Declarations.{wants_of_simple, wants_of_init};

use crate::expressions::{Expr, Specifiers, TagSpecifier, TypeSpecifier};
use crate::statements::{ExpressionStatement, Initializer};
use crate::token::Place;

impl Expr {
    /// The place of the first token.
    pub fn place(&self) -> Place
        ensures { first_place (wants_of_expr self.now 0) ≡ Some result }
    {
        match self {
            Expr::Name(name) => name.place,
            Expr::Call { function, .. } => function.place,
            Expr::Literal(place, _) | Expr::Parenthesized(place, _) => *place,
            Expr::Unary { place, .. } | Expr::Cast { place, .. } => *place,
            Expr::Postfix(first, _) | Expr::BinaryChain(first, _) => first.get().place(),
            Expr::Conditional { condition, .. } => condition.get().place(),
        }
    }
}

impl TagSpecifier {
    /// The place of the first token.
    pub fn place(&self) -> Place
        ensures { first_place (wants_of_tag self.now 0) ≡ Some result }
    {
        match self {
            TagSpecifier::Struct { place, .. } | TagSpecifier::Enum { place, .. } => *place,
        }
    }
}

impl TypeSpecifier {
    /// The place of the first token.
    #[tactic(auto, using(crate::proofs::TypesLaws::spelling_place))]
    pub fn place(&self) -> Place
        requires { is_spelling_tree self.now ≡ true }
        ensures { first_place (wants_of_spelling self.now 0) ≡ Some result }
    {
        match self {
            TypeSpecifier::Words(place, _) => *place,
            TypeSpecifier::TagSpecifier(tag) => tag.place(),
            TypeSpecifier::TypeName(name) => name.place,
        }
    }
}

impl Specifiers {
    /// The place of the first token.
    #[tactic(auto, unfolding(crate::specs::Pieces::words_at))]
    pub fn place(&self) -> Place
        requires { are_specs self.now ≡ true }
        ensures { first_place (wants_of_specs self.now 0) ≡ Some result }
    {
        match self.before.as_slice() {
            [first, ..] => *first,
            [] => self.kind.place(),
        }
    }
}

impl Initializer {
    /// The place of the first token.
    pub fn place(&self) -> Place
        ensures { first_place (wants_of_init self.now 0) ≡ Some result }
    {
        match self {
            Initializer::Expression(value) => value.place(),
            Initializer::List { place, .. } => *place,
        }
    }
}

impl ExpressionStatement {
    /// The place of the first token.
    #[tactic(auto, unfolding(crate::specs::Declarations::wants_of_simple))]
    pub fn place(&self) -> Place
        ensures { first_place (wants_of_simple self.now 0) ≡ Some result }
    {
        match self {
            ExpressionStatement::Assignment { target, .. } => target.place(),
            ExpressionStatement::PostfixStep { operand, .. } => operand.place(),
            ExpressionStatement::PrefixStep { place, .. } => *place,
            ExpressionStatement::Call(call) => call.place(),
        }
    }
}
