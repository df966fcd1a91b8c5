//! Declarations, initializers and expression statements.

ghost use Rattle.std.specs.Prelude.{map, codes};
ghost use Rattle.c_count.specs.Counts.{Has};
ghost use Rattle.c_tree.specs.Declarations as declarations;
ghost use Rattle.c_tree.specs.Pieces.{separated};

use crate::counts::separators;
use crate::expressions::{dimensions_tokens, expr_tokens, specs_tokens};
use c_tree::{
    Declaration, ExpressionStatement, InitDeclarator, Initialization, Initializer, Pointer,
    TrailingComma,
};

/// How many tokens the expression of an expression statement has, without the semicolon. The time is linear in that number.
#[tactic(auto, unfolding(c_tree::specs::Declarations::wants_of_simple))]
pub fn simple_tokens(simple: &ExpressionStatement) -> u32
    ensures { Has result (declarations.wants_of_simple simple.now) }
{
    match simple {
        ExpressionStatement::Assignment { target, value, .. } => expr_tokens(target)
            .saturating_add(expr_tokens(value))
            .saturating_add(1),
        ExpressionStatement::PostfixStep { operand, .. } => expr_tokens(operand).saturating_add(1),
        ExpressionStatement::PrefixStep { operand, .. } => expr_tokens(operand).saturating_add(1),
        ExpressionStatement::Call(call) => expr_tokens(call),
    }
}

/// How many tokens an initializer has. The time is linear in that number.
#[cycle(inits)]
pub fn init_tokens(init: &Initializer) -> u32
    ensures { Has result (declarations.wants_of_init init.now) }
{
    match init {
        Initializer::Expression(value) => expr_tokens(value),
        Initializer::List { parts, comma, .. } => {
            let around = match comma {
                TrailingComma::Absent => 2,
                TrailingComma::Present => 3,
            };
            inits_tokens(parts.as_slice()).saturating_add(around)
        }
    }
}

/// How many tokens the parts of an initializer have, with the commas between them.
#[cycle(inits)]
fn inits_tokens(list: &[Initializer]) -> u32
    ensures { Has result (separated (codes ",") (map declarations.wants_of_init list.now)) }
{
    let mut count = 0u32;
    for init in list {
        count = count.saturating_add(init_tokens(init));
    }
    count.saturating_add(separators(list.len()))
}

/// How many tokens a pointer's declaration has, if there is one.
#[tactic(auto, unfolding(c_tree::specs::Declarations::wants_of_pointer))]
fn pointer_tokens(pointer: &Option<Pointer>) -> u32
    ensures { Has result (declarations.wants_of_pointer pointer.now) }
{
    match pointer {
        Some(pointer) if pointer.constant.is_some() => 2,
        Some(_) => 1,
        None => 0,
    }
}

/// How many tokens an initialization has, if there is one.
#[tactic(auto, unfolding(c_tree::specs::Declarations::wants_of_start))]
fn start_tokens(start: &Option<Initialization>) -> u32
    ensures { Has result (declarations.wants_of_start start.now) }
{
    match start {
        Some(start) => init_tokens(&start.value).saturating_add(1),
        None => 0,
    }
}

/// How many tokens a declarator has, with its initializer.
#[tactic(auto, unfolding(c_tree::specs::Declarations::wants_of_declarator))]
pub fn declarator_tokens(declarator: &InitDeclarator) -> u32
    ensures { Has result (declarations.wants_of_declarator declarator.now) }
{
    pointer_tokens(&declarator.pointer)
        .saturating_add(1)
        .saturating_add(dimensions_tokens(declarator.dimensions.as_slice()))
        .saturating_add(start_tokens(&declarator.start))
}

/// How many tokens declarators have, with the commas between them.
fn declarators_tokens(list: &[InitDeclarator]) -> u32
    ensures { Has result (separated (codes ",") (map declarations.wants_of_declarator list.now)) }
{
    let mut count = 0u32;
    for declarator in list {
        count = count.saturating_add(declarator_tokens(declarator));
    }
    count.saturating_add(separators(list.len()))
}

/// How many tokens a declaration has, without the semicolon. The time is linear in that number.
#[tactic(auto, unfolding(c_tree::specs::Declarations::wants_of_objects))]
pub fn declaration_tokens(declaration: &Declaration) -> u32
    ensures { Has result (declarations.wants_of_objects declaration.now) }
{
    specs_tokens(&declaration.specs).saturating_add(declarators_tokens(
        declaration.declarators.as_slice(),
    ))
}
