//! Statements and blocks (C11 6.8), from left to right.

ghost use Rattle.std.specs.Prelude.{◌≡◌, [], map};
ghost use Rattle.std.specs.Option.{option_map};
ghost use Rattle.c_typing.specs.Walks.{Tells, along};
ghost use Rattle.c_heads.specs.Scopes.{scoped};
ghost use Rattle.c_bodies.specs.Statements as spec;

use crate::context::{Around, ItemList, Sections};
use crate::ends::{
    declaration_item, end_do, end_for, end_while, expression_of, for_head, in_switch, return_of,
    switch_of, switched_of, with_section, with_tokens,
};
use c_conversions::{TypeFault, TypeKind};
use c_heads::{
    Body, Labelled, close, condition_of, controlling_of, if_tokens, labels_of, open, tag_alone,
    tag_tokens,
};
use c_meaning::{TypedBlock, TypedItem, TypedIteration, TypedSelection, TypedStatement};
use c_tree::{Block, BlockItem, Iteration, LabelledSection, Selection, Statement};
use c_typing::Environment;
use hy_bits::Scalar;
use sqlite_items::{Boxed, Items};
use std::alloc::Global;

// ---- statements

/// A statement, where it stands.
#[cycle(statements)]
fn statement(
    alloc: Global,
    env: &mut Environment,
    body: &Body,
    around: Around,
    of: &Statement,
) -> Result<TypedStatement, TypeFault>
    ensures { Tells result env.new (spec.types_statement body.now of.now around env.old) }
{
    match of {
        Statement::Block(inner) => scoped_block(alloc, env, body, around, inner.get()),
        Statement::Empty(_) => Ok(TypedStatement::Empty),
        Statement::Expression(simple) => expression_of(alloc, env, simple.get()),
        Statement::Break(place) => {
            if around.breaks {
                Ok(TypedStatement::Break)
            } else {
                Err(TypeFault::new(TypeKind::Mismatch, *place))
            }
        }
        Statement::Continue(place) => {
            if around.continues {
                Ok(TypedStatement::Continue)
            } else {
                Err(TypeFault::new(TypeKind::Mismatch, *place))
            }
        }
        Statement::Return(place, value) => return_of(alloc, env, body, *place, value.get()),
        Statement::Selection(inner) => scoped_selection(alloc, env, body, around, inner.get()),
        Statement::Iteration(inner) => scoped_iteration(alloc, env, body, around, inner.get()),
    }
}

/// A block in a scope of its own.
#[cycle(statements)]
fn scoped_block(
    alloc: Global,
    env: &mut Environment,
    body: &Body,
    around: Around,
    of: &Block,
) -> Result<TypedStatement, TypeFault>
    ensures { Tells result env.new (spec.scoped_block (spec.types_block body.now of.now) around env.old) }
{
    open(env)?;
    let typed = block(alloc, env, body, around, of)?;
    close(env);
    Ok(TypedStatement::Block(Boxed::new(alloc, typed)?))
}

/// A selection statement in a scope of its own.
#[cycle(statements)]
fn scoped_selection(
    alloc: Global,
    env: &mut Environment,
    body: &Body,
    around: Around,
    of: &Selection,
) -> Result<TypedStatement, TypeFault>
    ensures { Tells result env.new (spec.scoped_selection (spec.types_selection body.now of.now) around env.old) }
{
    open(env)?;
    let typed = selection(alloc, env, body, around, of)?;
    close(env);
    Ok(TypedStatement::Selection(Boxed::new(alloc, typed)?))
}

/// An iteration statement in a scope of its own.
#[cycle(statements)]
fn scoped_iteration(
    alloc: Global,
    env: &mut Environment,
    body: &Body,
    around: Around,
    of: &Iteration,
) -> Result<TypedStatement, TypeFault>
    ensures { Tells result env.new (spec.scoped_iteration (spec.types_iteration body.now of.now) around env.old) }
{
    open(env)?;
    let typed = iteration(alloc, env, body, around, of)?;
    close(env);
    Ok(TypedStatement::Iteration(Boxed::new(alloc, typed)?))
}

/// A statement in a scope of its own.
#[cycle(statements)]
fn scoped_statement(
    alloc: Global,
    env: &mut Environment,
    body: &Body,
    around: Around,
    of: &Statement,
) -> Result<TypedStatement, TypeFault>
    ensures { Tells result env.new (scoped (spec.types_statement body.now of.now around) env.old) }
{
    open(env)?;
    let typed = statement(alloc, env, body, around, of)?;
    close(env);
    Ok(typed)
}

// ---- loops

/// What stands around the statement of a loop.
const IN_LOOP: Around = Around {
    breaks: true,
    continues: true,
};

/// An iteration statement.
#[cycle(statements)]
fn iteration(
    alloc: Global,
    env: &mut Environment,
    body: &Body,
    around: Around,
    of: &Iteration,
) -> Result<TypedIteration, TypeFault>
    ensures { Tells result env.new (spec.types_iteration body.now of.now around env.old) }
{
    match of {
        Iteration::While {
            bound,
            place,
            condition,
            body: inner,
        } => {
            let condition = controlling_of(alloc, env, *place, condition)?;
            let inner = scoped_statement(alloc, env, body, IN_LOOP, inner)?;
            end_while(env, body, bound, *place, condition, inner)
        }
        Iteration::Do {
            bound,
            place,
            body: inner,
            condition,
        } => {
            let inner = scoped_statement(alloc, env, body, IN_LOOP, inner)?;
            end_do(alloc, env, body, bound, *place, condition, inner)
        }
        Iteration::For {
            bound,
            place,
            first,
            condition,
            step,
            body: inner,
        } => {
            let head = for_head(alloc, env, *place, first, condition, step)?;
            let inner = scoped_statement(alloc, env, body, IN_LOOP, inner)?;
            end_for(alloc, env, body, bound, *place, first, head, inner)
        }
    }
}

// ---- selections

/// The second statement of an `if`, if there is one.
#[cycle(statements)]
fn otherwise_of(
    alloc: Global,
    env: &mut Environment,
    body: &Body,
    around: Around,
    of: &Option<Statement>,
) -> Result<Option<TypedStatement>, TypeFault>
    ensures { Tells result env.new (spec.otherwise_walk (option_map (spec.types_statement body.now) of.now) around env.old) }
{
    match of {
        None => Ok(None),
        Some(of) => Ok(Some(scoped_statement(alloc, env, body, around, of)?)),
    }
}

/// The sections of a `switch` on the type, in a scope of their own.
#[cycle(statements)]
fn scoped_sections(
    alloc: Global,
    env: &mut Environment,
    body: &Body,
    around: Around,
    scalar: Scalar,
    list: &[LabelledSection],
) -> Result<Sections, TypeFault>
    ensures { Tells result env.new (scoped (spec.sections_walk around scalar (map (spec.types_section body.now) list.now)) env.old) }
{
    open(env)?;
    let all = sections_of(alloc, env, body, around, scalar, list)?;
    close(env);
    Ok(all)
}

/// The sections of a `switch` on the type.
#[cycle(statements)]
fn sections_of(
    alloc: Global,
    env: &mut Environment,
    body: &Body,
    around: Around,
    scalar: Scalar,
    list: &[LabelledSection],
) -> Result<Sections, TypeFault>
    ensures { Tells result env.new (spec.sections_walk around scalar (map (spec.types_section body.now) list.now) env.old) }
{
    let mut all = Sections {
        labelled: Labelled::new(alloc),
        sections: Items::new(alloc),
    };
    for next in list {
        all = section(alloc, env, body, around, scalar, next, all)?;
    }
    Ok(all)
}

/// A section of a `switch` on the type, after those before it.
#[cycle(statements)]
fn section(
    alloc: Global,
    env: &mut Environment,
    body: &Body,
    around: Around,
    scalar: Scalar,
    of: &LabelledSection,
    before: Sections,
) -> Result<Sections, TypeFault>
    ensures { Tells result env.new (spec.types_section body.now of.now around scalar before env.old) }
{
    let Sections { labelled, sections } = before;
    let labelled = labels_of(alloc, env, scalar, of.labels.as_slice(), labelled)?;
    let statements = statements_of(alloc, env, body, around, of.statements.as_slice())?;
    Ok(with_section(alloc, labelled, statements, sections)?)
}

/// Statements, one after another.
#[cycle(statements)]
fn statements_of(
    alloc: Global,
    env: &mut Environment,
    body: &Body,
    around: Around,
    list: &[Statement],
) -> Result<Items<TypedStatement>, TypeFault>
    ensures { Tells result env.new (along (map (spec.statement_after around) (map (spec.types_statement body.now) list.now)) [] env.old) }
{
    let mut all = Items::new(alloc);
    for next in list {
        all = statement_after(alloc, env, body, around, next, all)?;
    }
    Ok(all)
}

/// One more statement after those before it.
#[cycle(statements)]
fn statement_after(
    alloc: Global,
    env: &mut Environment,
    body: &Body,
    around: Around,
    of: &Statement,
    mut before: Items<TypedStatement>,
) -> Result<Items<TypedStatement>, TypeFault>
    ensures { Tells result env.new (spec.statement_after around (spec.types_statement body.now of.now) before env.old) }
{
    let typed = statement(alloc, env, body, around, of)?;
    before.push(typed)?;
    Ok(before)
}

/// A selection statement.
#[cycle(statements)]
fn selection(
    alloc: Global,
    env: &mut Environment,
    body: &Body,
    around: Around,
    of: &Selection,
) -> Result<TypedSelection, TypeFault>
    ensures { Tells result env.new (spec.types_selection body.now of.now around env.old) }
{
    match of {
        Selection::If {
            place,
            condition,
            then,
            otherwise,
        } => {
            let tokens = if_tokens(condition, otherwise);
            let condition = condition_of(alloc, env, *place, condition)?;
            let then = scoped_statement(alloc, env, body, around, then)?;
            let otherwise = otherwise_of(alloc, env, body, around, otherwise)?;
            Ok(TypedSelection::If {
                tokens,
                condition,
                then,
                otherwise,
            })
        }
        Selection::Switch {
            place,
            value,
            sections,
        } => {
            let on = switched_of(alloc, env, *place, value)?;
            let within = in_switch(around);
            let list = sections.as_slice();
            let all = scoped_sections(alloc, env, body, within, on.scalar, list)?;
            Ok(switch_of(value, on, all))
        }
    }
}

// ---- blocks

/// An item of a block, after those before it.
#[cycle(statements)]
fn item(
    alloc: Global,
    env: &mut Environment,
    body: &Body,
    around: Around,
    of: &BlockItem,
    mut before: ItemList,
) -> Result<ItemList, TypeFault>
    ensures { Tells result env.new (spec.types_item body.now of.now around before env.old) }
{
    match of {
        BlockItem::Statement(of) => {
            let typed = statement(alloc, env, body, around, of)?;
            before.items.push(TypedItem::Statement(typed))?;
            Ok(before)
        }
        BlockItem::Declaration(of) => declaration_item(alloc, env, of.get(), before),
        BlockItem::TagSpecifier(of) => {
            tag_alone(alloc, env, of.get())?;
            Ok(with_tokens(tag_tokens(of.get()), before))
        }
    }
}

/// Items of a block, one after another.
#[cycle(statements)]
fn items_of(
    alloc: Global,
    env: &mut Environment,
    body: &Body,
    around: Around,
    list: &[BlockItem],
) -> Result<ItemList, TypeFault>
    ensures { Tells result env.new (along (map (λ part. part around) (map (spec.types_item body.now) list.now)) spec.no_items env.old) }
{
    let mut all = ItemList {
        tokens: 2,
        items: Items::new(alloc),
    };
    for next in list {
        all = item(alloc, env, body, around, next, all)?;
    }
    Ok(all)
}

/// A block, in the scope that is open.
///
/// # Errors
///
/// The first rule that is broken, at its place, or memory ran out. What is declared is then no longer of use.
#[cycle(statements)]
pub fn block(
    alloc: Global,
    env: &mut Environment,
    body: &Body,
    around: Around,
    of: &Block,
) -> Result<TypedBlock, TypeFault>
    ensures { Tells result env.new (spec.types_block body.now of.now around env.old) }
{
    let all = items_of(alloc, env, body, around, of.parts.as_slice())?;
    let ItemList { tokens, items } = all;
    Ok(TypedBlock { tokens, items })
}
