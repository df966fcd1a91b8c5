//! The objects whose addresses statements take, marked in a table.

ghost use Rattle.std.specs.Prelude.{◌≡◌, ℕ, ◌<◌, ◌==◌, ◌||◌, false, length, get_or, map};
ghost use Rattle.std.specs.List.{list_any, flat_map};
ghost use Rattle.std.specs.Option.{option_map};
ghost use Rattle.c_meaning.specs.Uses as uses;
ghost use Rattle.c_uses.specs.Marks.{marked, taken_by_statement, taken_by_item, taken_by_iteration, taken_by_selection, taken_by_section};

use crate::addresses::{mark_expr, mark_lvalue};
use c_meaning::{
    Controlling, Part, TypedBlock, TypedDeclarator, TypedEffect, TypedExpr, TypedFirst, TypedItem,
    TypedIteration, TypedSection, TypedSelection, TypedStatement, TypedStep,
};
use sqlite_items::Items;

// ---- expression statements, declarations and heads

/// Marks the objects whose addresses a value, if there is one, takes.
fn mark_value(value: &Option<TypedExpr>, marks: &mut [bool])
    ensures { marks.new ≡ marked marks.old (uses.taken_where value.now) }
{
    if let Some(value) = value {
        mark_expr(value, marks);
    }
}

/// Marks the objects whose addresses an expression statement takes.
#[tactic(auto, using(crate::proofs::Marking::marked_append))]
fn mark_effect(effect: &TypedEffect, marks: &mut [bool])
    ensures { marks.new ≡ marked marks.old (uses.effect_takes effect.now) }
{
    match effect {
        TypedEffect::Assignment { target, value, .. } => {
            mark_lvalue(target, marks);
            mark_expr(value, marks);
        }
        TypedEffect::Compound { target, value, .. } => {
            mark_lvalue(target, marks);
            mark_expr(value, marks);
        }
        TypedEffect::Advance { target, value, .. } => {
            mark_lvalue(target, marks);
            mark_expr(value, marks);
        }
        TypedEffect::Call(call) => mark_expr(call, marks),
    }
}

/// Marks the objects whose addresses parts of an initializer take.
fn mark_parts(parts: &[Part], marks: &mut [bool])
    ensures { marks.new ≡ marked marks.old (flat_map (λ part. uses.taken_where part.value) parts.now) }
{
    for part in parts {
        mark_value(&part.value, marks);
    }
}

/// Marks the objects whose addresses an initializer, if there is one, takes.
fn mark_start(start: &Option<Items<Part>>, marks: &mut [bool])
    ensures { marks.new ≡ marked marks.old (uses.parts_take start.now) }
{
    if let Some(parts) = start {
        mark_parts(parts.as_slice(), marks);
    }
}

/// Marks the objects whose addresses a declaration takes.
fn mark_declarator(declared: &TypedDeclarator, marks: &mut [bool])
    ensures { marks.new ≡ marked marks.old (uses.declarator_takes declared.now) }
{
    mark_start(&declared.start, marks);
}

/// Marks the objects whose addresses declarations take.
fn mark_declarators(list: &[TypedDeclarator], marks: &mut [bool])
    ensures { marks.new ≡ marked marks.old (flat_map uses.declarator_takes list.now) }
{
    for declared in list {
        mark_declarator(declared, marks);
    }
}

/// Marks the objects whose addresses the first part of a `for` takes.
fn mark_first(first: &TypedFirst, marks: &mut [bool])
    ensures { marks.new ≡ marked marks.old (uses.first_takes first.now) }
{
    match first {
        TypedFirst::Nothing => {}
        TypedFirst::Objects(list) => mark_declarators(list.as_slice(), marks),
        TypedFirst::Effect(effect) => mark_effect(effect, marks),
    }
}

/// Marks the objects whose addresses a controlling expression, if there is one, takes.
fn mark_condition(condition: &Option<Controlling>, marks: &mut [bool])
    ensures { marks.new ≡ marked marks.old (uses.controlling_takes condition.now) }
{
    if let Some(condition) = condition {
        mark_expr(&condition.value, marks);
    }
}

/// Marks the objects whose addresses the last part of the head of a `for` takes.
fn mark_step(step: &Option<TypedStep>, marks: &mut [bool])
    ensures { marks.new ≡ marked marks.old (uses.step_of_loop_takes step.now) }
{
    if let Some(step) = step {
        mark_effect(&step.effect, marks);
    }
}

// ---- statements

/// Marks the objects whose addresses a statement takes.
#[cycle(taken)]
fn mark_statement(statement: &TypedStatement, marks: &mut [bool])
    ensures { marks.new ≡ marked marks.old (taken_by_statement statement.now) }
{
    match statement {
        TypedStatement::Block(block) => mark_block(block.get(), marks),
        TypedStatement::Empty => {}
        TypedStatement::Effect { effect, .. } => mark_effect(effect.get(), marks),
        TypedStatement::Break => {}
        TypedStatement::Continue => {}
        TypedStatement::Return { value, .. } => mark_value(value.get(), marks),
        TypedStatement::Selection(selection) => mark_selection(selection.get(), marks),
        TypedStatement::Iteration(iteration) => mark_iteration(iteration.get(), marks),
    }
}

/// Marks the objects whose addresses a block takes.
#[cycle(taken)]
fn mark_block(block: &TypedBlock, marks: &mut [bool])
    ensures { marks.new ≡ marked marks.old (uses.taken_by block.now) }
{
    mark_items(block.items.as_slice(), marks);
}

/// Marks the objects whose addresses items of a block take.
#[cycle(taken)]
fn mark_items(items: &[TypedItem], marks: &mut [bool])
    ensures { marks.new ≡ marked marks.old (uses.all_of (map taken_by_item items.now)) }
{
    for item in items {
        mark_item(item, marks);
    }
}

/// Marks the objects whose addresses an item of a block takes.
#[cycle(taken)]
fn mark_item(item: &TypedItem, marks: &mut [bool])
    ensures { marks.new ≡ marked marks.old (taken_by_item item.now) }
{
    match item {
        TypedItem::Statement(statement) => mark_statement(statement, marks),
        TypedItem::Object(declared) => mark_declarator(declared.get(), marks),
    }
}

/// Marks the objects whose addresses statements take.
#[cycle(taken)]
fn mark_statements(list: &[TypedStatement], marks: &mut [bool])
    ensures { marks.new ≡ marked marks.old (uses.all_of (map taken_by_statement list.now)) }
{
    for statement in list {
        mark_statement(statement, marks);
    }
}

/// Marks the objects whose addresses sections of a `switch` take.
#[cycle(taken)]
fn mark_sections(sections: &[TypedSection], marks: &mut [bool])
    ensures { marks.new ≡ marked marks.old (uses.all_of (map taken_by_section sections.now)) }
{
    for section in sections {
        mark_section(section, marks);
    }
}

/// Marks the objects whose addresses a section of a `switch` takes.
#[cycle(taken)]
fn mark_section(section: &TypedSection, marks: &mut [bool])
    ensures { marks.new ≡ marked marks.old (taken_by_section section.now) }
{
    mark_statements(section.statements.as_slice(), marks);
}

/// Marks the objects whose addresses a selection statement takes.
#[cycle(taken)]
#[tactic(auto, using(crate::proofs::Marking::marked_append))]
fn mark_selection(selection: &TypedSelection, marks: &mut [bool])
    ensures { marks.new ≡ marked marks.old (taken_by_selection selection.now) }
{
    match selection {
        TypedSelection::If {
            condition,
            then,
            otherwise,
            ..
        } => {
            mark_expr(condition, marks);
            mark_statement(then, marks);
            mark_otherwise(otherwise, marks);
        }
        TypedSelection::Switch {
            value,
            sections,
            ..
        } => {
            mark_expr(value, marks);
            mark_sections(sections.as_slice(), marks);
        }
    }
}

/// Marks the objects whose addresses the second statement of an `if`, if there is one, takes.
#[cycle(taken)]
fn mark_otherwise(otherwise: &Option<TypedStatement>, marks: &mut [bool])
    ensures { marks.new ≡ marked marks.old (uses.option_of (option_map taken_by_statement otherwise.now)) }
{
    if let Some(otherwise) = otherwise {
        mark_statement(otherwise, marks);
    }
}

/// Marks the objects whose addresses an iteration statement takes.
#[cycle(taken)]
#[tactic(auto, using(crate::proofs::Marking::marked_append))]
fn mark_iteration(iteration: &TypedIteration, marks: &mut [bool])
    ensures { marks.new ≡ marked marks.old (taken_by_iteration iteration.now) }
{
    match iteration {
        TypedIteration::While {
            condition,
            body,
            ..
        } => {
            mark_expr(&condition.value, marks);
            mark_statement(body, marks);
        }
        TypedIteration::Do {
            body,
            condition,
            ..
        } => {
            mark_statement(body, marks);
            mark_expr(&condition.value, marks);
        }
        TypedIteration::For {
            first,
            condition,
            step,
            body,
            ..
        } => {
            mark_first(first, marks);
            mark_condition(condition, marks);
            mark_step(step, marks);
            mark_statement(body, marks);
        }
    }
}

/// Marks in a table by the numbers of objects whose addresses a block takes; objects after the end of the table are left out. The time is
/// linear in the block.
#[tactic(auto, using(crate::proofs::Marking::marked_at, crate::proofs::Marking::length_marked))]
pub fn mark_taken(block: &TypedBlock, marks: &mut [bool])
    ensures length { length marks.new ≡ length marks.old }
    ensures marks { (k : ℕ) → k < length marks.old → get_or marks.new k false ≡ (get_or marks.old k false || list_any (λ j. k == j) (uses.taken_by block.now)) }
{
    mark_block(block, marks);
}
