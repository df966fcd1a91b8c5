//! Which objects statements assign to by their names, marked in a table.

ghost use Rattle.std.specs.Prelude.{◌≡◌, ℕ, ◌<◌, ◌==◌, ◌||◌, true, false, length, get_or, slice_set, map};
ghost use Rattle.std.specs.List.{list_any};
ghost use Rattle.std.specs.Option.{option_map};
ghost use Rattle.c_meaning.specs.Uses as uses;
ghost use Rattle.c_uses.specs.Marks.{marked, assigned_by_item, assigned_by_iteration, assigned_by_selection, assigned_by_section};

use crate::names::assigned_object;
use c_meaning::{
    TypedBlock, TypedEffect, TypedFirst, TypedItem, TypedIteration, TypedSection, TypedSelection,
    TypedStatement, TypedStep,
};

/// Marks a number, where the table has it.
pub fn mark(number: u32, marks: &mut [bool])
    ensures { marks.new ≡ slice_set marks.old number true }
{
    let number = number as usize;
    if number < marks.len() {
        marks[number] = true;
    }
}

/// Marks the numbers of a list.
fn mark_each(numbers: &[u32], marks: &mut [bool])
    ensures { marks.new ≡ marked marks.old numbers.now }
{
    for number in numbers {
        mark(*number, marks);
    }
}

/// Marks in a table by the numbers of objects which of them stand in a list; numbers after the end of the table are left out. The time is
/// linear in the list.
#[tactic(auto, using(crate::proofs::Marking::marked_at, crate::proofs::Marking::length_marked))]
pub fn mark_numbers(numbers: &[u32], marks: &mut [bool])
    ensures length { length marks.new ≡ length marks.old }
    ensures marks { (k : ℕ) → k < length marks.old → get_or marks.new k false ≡ (get_or marks.old k false || list_any (λ j. k == j) numbers.now) }
{
    mark_each(numbers, marks);
}

/// Marks what an expression statement assigns to.
fn mark_effect(effect: &TypedEffect, marks: &mut [bool])
    ensures { marks.new ≡ marked marks.old (uses.effect_assigns effect.now) }
{
    if let Some(object) = assigned_object(effect) {
        mark(object, marks);
    }
}

/// Marks what the first part of a `for` assigns to.
fn mark_first(first: &TypedFirst, marks: &mut [bool])
    ensures { marks.new ≡ marked marks.old (uses.first_assigns first.now) }
{
    match first {
        TypedFirst::Nothing => {}
        TypedFirst::Objects(_) => {}
        TypedFirst::Effect(effect) => mark_effect(effect, marks),
    }
}

/// Marks what the last part of the head of a `for` assigns to.
fn mark_step(step: &Option<TypedStep>, marks: &mut [bool])
    ensures { marks.new ≡ marked marks.old (uses.step_assigns step.now) }
{
    match step {
        Some(step) => mark_effect(&step.effect, marks),
        None => {}
    }
}

/// Marks what a statement assigns to.
#[cycle(assignments)]
fn mark_statement(statement: &TypedStatement, marks: &mut [bool])
    ensures { marks.new ≡ marked marks.old (uses.assigned_in statement.now) }
{
    match statement {
        TypedStatement::Block(block) => mark_block(block.get(), marks),
        TypedStatement::Empty => {}
        TypedStatement::Effect { effect, .. } => mark_effect(effect.get(), marks),
        TypedStatement::Break => {}
        TypedStatement::Continue => {}
        TypedStatement::Return { .. } => {}
        TypedStatement::Selection(selection) => mark_selection(selection.get(), marks),
        TypedStatement::Iteration(iteration) => mark_iteration(iteration.get(), marks),
    }
}

/// Marks what a block assigns to.
#[cycle(assignments)]
fn mark_block(block: &TypedBlock, marks: &mut [bool])
    ensures { marks.new ≡ marked marks.old (uses.assigned_by block.now) }
{
    mark_items(block.items.as_slice(), marks);
}

/// Marks what items of a block assign to.
#[cycle(assignments)]
fn mark_items(items: &[TypedItem], marks: &mut [bool])
    ensures { marks.new ≡ marked marks.old (uses.all_of (map assigned_by_item items.now)) }
{
    for item in items {
        mark_item(item, marks);
    }
}

/// Marks what an item of a block assigns to.
#[cycle(assignments)]
fn mark_item(item: &TypedItem, marks: &mut [bool])
    ensures { marks.new ≡ marked marks.old (assigned_by_item item.now) }
{
    match item {
        TypedItem::Statement(statement) => mark_statement(statement, marks),
        TypedItem::Object(_) => {}
    }
}

/// Marks what statements assign to.
#[cycle(assignments)]
fn mark_statements(list: &[TypedStatement], marks: &mut [bool])
    ensures { marks.new ≡ marked marks.old (uses.all_of (map uses.assigned_in list.now)) }
{
    for statement in list {
        mark_statement(statement, marks);
    }
}

/// Marks what sections of a `switch` assign to.
#[cycle(assignments)]
fn mark_sections(sections: &[TypedSection], marks: &mut [bool])
    ensures { marks.new ≡ marked marks.old (uses.all_of (map assigned_by_section sections.now)) }
{
    for section in sections {
        mark_section(section, marks);
    }
}

/// Marks what a section of a `switch` assigns to.
#[cycle(assignments)]
fn mark_section(section: &TypedSection, marks: &mut [bool])
    ensures { marks.new ≡ marked marks.old (assigned_by_section section.now) }
{
    mark_statements(section.statements.as_slice(), marks);
}

/// Marks what a selection statement assigns to.
#[cycle(assignments)]
#[tactic(auto, using(crate::proofs::Marking::marked_append))]
fn mark_selection(selection: &TypedSelection, marks: &mut [bool])
    ensures { marks.new ≡ marked marks.old (assigned_by_selection selection.now) }
{
    match selection {
        TypedSelection::If {
            then,
            otherwise,
            ..
        } => {
            mark_statement(then, marks);
            mark_otherwise(otherwise, marks);
        }
        TypedSelection::Switch { sections, .. } => mark_sections(sections.as_slice(), marks),
    }
}

/// Marks what the second statement of an `if` assigns to, if there is one.
#[cycle(assignments)]
fn mark_otherwise(otherwise: &Option<TypedStatement>, marks: &mut [bool])
    ensures { marks.new ≡ marked marks.old (uses.option_of (option_map uses.assigned_in otherwise.now)) }
{
    if let Some(otherwise) = otherwise {
        mark_statement(otherwise, marks);
    }
}

/// Marks what an iteration statement assigns to.
#[cycle(assignments)]
#[tactic(auto, using(crate::proofs::Marking::marked_append))]
fn mark_iteration(iteration: &TypedIteration, marks: &mut [bool])
    ensures { marks.new ≡ marked marks.old (assigned_by_iteration iteration.now) }
{
    match iteration {
        TypedIteration::While { body, .. } => mark_statement(body, marks),
        TypedIteration::Do { body, .. } => mark_statement(body, marks),
        TypedIteration::For {
            first,
            step,
            body,
            ..
        } => {
            mark_first(first, marks);
            mark_step(step, marks);
            mark_statement(body, marks);
        }
    }
}

/// Marks in a table by the numbers of objects which of them a block assigns to by their names; objects after the end of the table are left out.
/// The time is linear in the block's statements.
#[tactic(auto, using(crate::proofs::Marking::marked_at, crate::proofs::Marking::length_marked))]
pub fn mark_assigned(block: &TypedBlock, marks: &mut [bool])
    ensures length { length marks.new ≡ length marks.old }
    ensures marks { (k : ℕ) → k < length marks.old → get_or marks.new k false ≡ (get_or marks.old k false || list_any (λ j. k == j) (uses.assigned_by block.now)) }
{
    mark_block(block, marks);
}

/// Marks in a table by the numbers of objects which of them a statement assigns to by their names; objects after the end of the table are left
/// out. The time is linear in the statement.
#[tactic(auto, using(crate::proofs::Marking::marked_at, crate::proofs::Marking::length_marked))]
pub fn mark_assigned_in(statement: &TypedStatement, marks: &mut [bool])
    ensures length { length marks.new ≡ length marks.old }
    ensures marks { (k : ℕ) → k < length marks.old → get_or marks.new k false ≡ (get_or marks.old k false || list_any (λ j. k == j) (uses.assigned_in statement.now)) }
{
    mark_statement(statement, marks);
}
