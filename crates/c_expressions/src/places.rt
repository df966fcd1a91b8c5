//! The places at which the parts of a tree begin.

ghost use Rattle.std.specs.Prelude.{◌≡◌};
ghost use Rattle.c_expressions.specs.Typing as spec;

use c_tree::{Expr, Place, Specifiers, TagSpecifier, TypeSpecifier};

/// The place of an expression's first token.
pub fn expr_place(expr: &Expr) -> Place
    ensures { result ≡ (spec.types_expr expr.now).place }
{
    match expr {
        Expr::Name(name) => name.place,
        Expr::Call { function, .. } => function.place,
        Expr::Literal(place, _) | Expr::Parenthesized(place, _) => *place,
        Expr::Unary { place, .. } | Expr::Cast { place, .. } => *place,
        Expr::Postfix(first, _) | Expr::BinaryChain(first, _) => expr_place(first.get()),
        Expr::Conditional { condition, .. } => expr_place(condition.get()),
    }
}

/// The place of the first token of a struct or an enum.
fn tag_place(tag: &TagSpecifier) -> Place
    ensures { result ≡ (spec.types_tag tag.now).place }
{
    match tag {
        TagSpecifier::Struct { place, .. } | TagSpecifier::Enum { place, .. } => *place,
    }
}

/// The place of the first token of what names a type.
fn spelling_place(kind: &TypeSpecifier) -> Place
    ensures { result ≡ (spec.types_spelling kind.now).place }
{
    match kind {
        TypeSpecifier::Words(place, _) => *place,
        TypeSpecifier::TagSpecifier(tag) => tag_place(tag),
        TypeSpecifier::TypeName(name) => name.place,
    }
}

/// The place of the first token of specifiers.
pub fn specs_place(specs: &Specifiers) -> Place
    ensures { result ≡ (spec.types_specs specs.now).place }
{
    match specs.before.as_slice() {
        [first, ..] => *first,
        [] => spelling_place(&specs.kind),
    }
}
