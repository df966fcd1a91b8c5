//! Expressions and the specifiers of types.

ghost use Rattle.std.specs.Prelude.{map, codes};
ghost use Rattle.c_tree.specs.Folds as folds;
ghost use Rattle.c_tree.specs.Pieces.{all_of, separated};
ghost use Rattle.c_count.specs.Counts.{Has};

use crate::counts::{clamped, separators};
use c_tree::{
    Dimension, Enumerator, Expr, Operand, Specifiers, StructDeclaration, StructDeclarator, Suffix,
    TagSpecifier, TrailingComma, TypeSpecifier,
};

/// How many tokens an expression has. The time is linear in that number.
#[cycle(count)]
pub fn expr_tokens(expr: &Expr) -> u32
    ensures { Has result (folds.wants_of_expr expr.now) }
{
    match expr {
        Expr::Name(_) | Expr::Literal(..) => 1,
        Expr::Call { arguments, .. } => { exprs_tokens(arguments.as_slice()).saturating_add(3) }
        Expr::Parenthesized(_, inner) => expr_tokens(inner.get()).saturating_add(2),
        Expr::Postfix(first, suffixes) => {
            expr_tokens(first.get()).saturating_add(suffixes_tokens(suffixes.as_slice()))
        }
        Expr::Unary { operand, .. } => expr_tokens(operand.get()).saturating_add(1),
        Expr::Cast { specs, operand, .. } => specs_tokens(specs.get())
            .saturating_add(expr_tokens(operand.get()))
            .saturating_add(2),
        Expr::BinaryChain(first, operands) => {
            expr_tokens(first.get()).saturating_add(operands_tokens(operands.as_slice()))
        }
        Expr::Conditional {
            condition,
            second,
            third,
            ..
        } => expr_tokens(condition.get())
            .saturating_add(expr_tokens(second.get()))
            .saturating_add(expr_tokens(third.get()))
            .saturating_add(2),
    }
}

/// How many tokens the arguments of a call have, with the commas between them.
#[cycle(count)]
fn exprs_tokens(list: &[Expr]) -> u32
    ensures { Has result (separated (codes ",") (map folds.wants_of_expr list.now)) }
{
    let mut count = 0u32;
    for expr in list {
        count = count.saturating_add(expr_tokens(expr));
    }
    count.saturating_add(separators(list.len()))
}

/// How many tokens subscripts and members have.
#[cycle(count)]
fn suffixes_tokens(list: &[Suffix]) -> u32
    ensures { Has result (all_of (map folds.wants_of_suffix list.now)) }
{
    let mut count = 0u32;
    for suffix in list {
        count = count.saturating_add(suffix_tokens(suffix));
    }
    count
}

/// How many tokens a subscript or a member has.
#[cycle(count)]
fn suffix_tokens(suffix: &Suffix) -> u32
    ensures { Has result (folds.wants_of_suffix suffix.now) }
{
    match suffix {
        Suffix::Index(_, index) => expr_tokens(index).saturating_add(2),
        Suffix::Member(..) | Suffix::Arrow(..) => 2,
    }
}

/// How many tokens operands have, each with its operator.
#[cycle(count)]
fn operands_tokens(list: &[Operand]) -> u32
    ensures { Has result (all_of (map folds.wants_of_operand list.now)) }
{
    let mut count = 0u32;
    for operand in list {
        count = count.saturating_add(operand_tokens(operand));
    }
    count
}

/// How many tokens an operand has, with its operator.
#[cycle(count)]
fn operand_tokens(operand: &Operand) -> u32
    ensures { Has result (folds.wants_of_operand operand.now) }
{
    expr_tokens(&operand.value).saturating_add(1)
}

/// How many tokens the specifiers of a type have.
#[cycle(count)]
pub fn specs_tokens(specs: &Specifiers) -> u32
    ensures { Has result (folds.wants_of_specs specs.now) }
{
    let around = clamped(specs.before.len()).saturating_add(clamped(specs.after.len()));
    kind_tokens(&specs.kind).saturating_add(around)
}

/// How many tokens name a type.
#[cycle(count)]
fn kind_tokens(kind: &TypeSpecifier) -> u32
    ensures { Has result (folds.wants_of_spelling kind.now) }
{
    match kind {
        TypeSpecifier::Words(_, words) => clamped(words.len()),
        TypeSpecifier::TagSpecifier(tag) => tag_tokens(tag),
        TypeSpecifier::TypeName(_) => 1,
    }
}

/// How many tokens a struct or an enum has.
#[cycle(count)]
pub fn tag_tokens(tag: &TagSpecifier) -> u32
    ensures { Has result (folds.wants_of_tag tag.now) }
{
    match tag {
        TagSpecifier::Struct { tag, members, .. } => {
            let named = if tag.is_some() { 2 } else { 1 };
            match members {
                Some(members) => members_tokens(members.as_slice())
                    .saturating_add(2)
                    .saturating_add(named),
                None => named,
            }
        }
        TagSpecifier::Enum {
            tag,
            enumerators,
            comma,
            ..
        } => {
            let named = if tag.is_some() { 2 } else { 1 };
            let comma = if matches!(comma, TrailingComma::Present) {
                3
            } else {
                2
            };
            match enumerators {
                Some(list) => enumerators_tokens(list.as_slice())
                    .saturating_add(comma)
                    .saturating_add(named),
                None => named,
            }
        }
    }
}

/// How many tokens the declarations of members have.
#[cycle(count)]
fn members_tokens(list: &[StructDeclaration]) -> u32
    ensures { Has result (all_of (map folds.wants_of_member list.now)) }
{
    let mut count = 0u32;
    for member in list {
        count = count.saturating_add(member_tokens(member));
    }
    count
}

/// How many tokens a declaration of members has.
#[cycle(count)]
fn member_tokens(member: &StructDeclaration) -> u32
    ensures { Has result (folds.wants_of_member member.now) }
{
    specs_tokens(&member.specs)
        .saturating_add(names_tokens(member.names.as_slice()))
        .saturating_add(1)
}

/// How many tokens declared members have, with the commas between them.
#[cycle(count)]
fn names_tokens(list: &[StructDeclarator]) -> u32
    ensures { Has result (separated (codes ",") (map folds.wants_of_dimensioned list.now)) }
{
    let mut count = 0u32;
    for name in list {
        count = count.saturating_add(name_tokens(name));
    }
    count.saturating_add(separators(list.len()))
}

/// How many tokens a declared member has, with its dimensions.
#[cycle(count)]
fn name_tokens(name: &StructDeclarator) -> u32
    ensures { Has result (folds.wants_of_dimensioned name.now) }
{
    dimensions_tokens(name.dimensions.as_slice()).saturating_add(1)
}

/// How many tokens the dimensions of a declared name have.
#[cycle(count)]
pub fn dimensions_tokens(list: &[Dimension]) -> u32
    ensures { Has result (all_of (map folds.wants_of_dimension list.now)) }
{
    let mut count = 0u32;
    for dimension in list {
        count = count.saturating_add(dimension_tokens(dimension));
    }
    count
}

/// How many tokens a dimension has.
#[cycle(count)]
fn dimension_tokens(dimension: &Dimension) -> u32
    ensures { Has result (folds.wants_of_dimension dimension.now) }
{
    match &dimension.size {
        Some(size) => expr_tokens(size).saturating_add(2),
        None => 2,
    }
}

/// How many tokens enumerators have, with the commas between them.
#[cycle(count)]
fn enumerators_tokens(list: &[Enumerator]) -> u32
    ensures { Has result (separated (codes ",") (map folds.wants_of_enumerator list.now)) }
{
    let mut count = 0u32;
    for enumerator in list {
        count = count.saturating_add(enumerator_tokens(enumerator));
    }
    count.saturating_add(separators(list.len()))
}

/// How many tokens an enumerator has, with its value.
#[cycle(count)]
fn enumerator_tokens(enumerator: &Enumerator) -> u32
    ensures { Has result (folds.wants_of_enumerator enumerator.now) }
{
    match &enumerator.value {
        Some(value) => expr_tokens(value).saturating_add(2),
        None => 1,
    }
}
