//! What is left of statements when the statements in them are typed, and statements that have none.

ghost use Rattle.std.specs.Prelude.{◌≡◌, IfOk, map};
ghost use Rattle.c_typing.specs.Walks.{Tells, along};
ghost use Rattle.c_bodies.specs.Statements as spec;

use crate::context::{Around, ForHead, ItemList, Sections, Switched};
use c_conversions::{TypeFault, TypeKind, kind, signed};
use c_expressions::value_of;
use c_heads::{
    Body, Ended, Labelled, bounded, controlling_of, controlling_where, counter_of,
    declaration_tokens, do_tokens, effect_of, first_of, for_tokens, return_tokens, simple_tokens,
    step_number, step_where, switch_tokens, while_tokens,
};
use c_meaning::{
    Controlling, TypedItem, TypedIteration, TypedSection, TypedSelection, TypedStatement, ValueKind,
};
use c_objects::{Storage, declarator, object_specs};
use c_tree::{Declaration, Expr, ExpressionStatement, First, InitDeclarator, LoopBound, Place};
use c_typing::{Environment, QualifiedType, assigned_to, converted, kind_operand};
use hy_bits::Memory;
use sqlite_items::{Boxed, Items};
use std::alloc::Global;

// ---- statements without statements in them

/// `return`, at the place.
pub fn return_of(
    alloc: Global,
    env: &mut Environment,
    body: &Body,
    place: Place,
    value: &Option<Expr>,
) -> Result<TypedStatement, TypeFault>
    ensures { Tells result env.new (spec.return_walk body.now place value.now env.old) }
{
    let kind = kind(&body.result);
    let tokens = return_tokens(value);
    let value = match value {
        None => match kind {
            ValueKind::Void => None,
            _ => return Err(TypeFault::new(TypeKind::Mismatch, place)),
        },
        Some(expr) => {
            let value = value_of(alloc, env, expr)?;
            Some(assigned_to(alloc, env, place, &body.result, value)?)
        }
    };
    Ok(TypedStatement::Return {
        tokens,
        kind,
        value: Boxed::new(alloc, value)?,
    })
}

/// An expression statement.
pub fn expression_of(
    alloc: Global,
    env: &mut Environment,
    simple: &ExpressionStatement,
) -> Result<TypedStatement, TypeFault>
    ensures { Tells result env.new (spec.expression_walk simple.now env.old) }
{
    let effect = effect_of(alloc, env, simple)?;
    Ok(TypedStatement::Effect {
        tokens: simple_tokens(simple).saturating_add(1),
        effect: Boxed::new(alloc, effect)?,
    })
}

// ---- loops

/// A `while` whose condition and statement are typed.
pub fn end_while(
    env: &Environment,
    body: &Body,
    bound: &Option<LoopBound>,
    place: Place,
    condition: Controlling,
    inner: TypedStatement,
) -> Result<TypedIteration, TypeFault>
    ensures { Tells result env.now (spec.while_end body.now bound.now place condition inner env.now) }
{
    Ok(TypedIteration::While {
        tokens: while_tokens(bound),
        bound: bounded(env, place, body, bound, None)?,
        condition,
        body: inner,
    })
}

/// A `do` whose statement is typed.
pub fn end_do(
    alloc: Global,
    env: &mut Environment,
    body: &Body,
    bound: &Option<LoopBound>,
    place: Place,
    condition: &Expr,
    inner: TypedStatement,
) -> Result<TypedIteration, TypeFault>
    ensures { Tells result env.new (spec.do_end body.now bound.now place condition.now inner env.old) }
{
    let condition = controlling_of(alloc, env, place, condition)?;
    Ok(TypedIteration::Do {
        tokens: do_tokens(bound),
        bound: bounded(env, place, body, bound, None)?,
        body: inner,
        condition,
    })
}

/// The head of a `for`.
pub fn for_head(
    alloc: Global,
    env: &mut Environment,
    place: Place,
    first: &First,
    condition: &Option<Expr>,
    step: &Option<ExpressionStatement>,
) -> Result<ForHead, TypeFault>
    ensures { Tells result env.new (spec.for_head place first.now condition.now step.now env.old) }
{
    let first = first_of(alloc, env, first)?;
    let condition = controlling_where(alloc, env, place, condition)?;
    let number = step_number(env, step);
    let step = step_where(alloc, env, step)?;
    Ok(ForHead {
        first,
        condition,
        number,
        step,
    })
}

/// A `for` whose head and statement are typed. `initial` is the first part of its head.
pub fn end_for(
    alloc: Global,
    env: &Environment,
    body: &Body,
    bound: &Option<LoopBound>,
    place: Place,
    initial: &First,
    head: ForHead,
    inner: TypedStatement,
) -> Result<TypedIteration, TypeFault>
    ensures { Tells result env.now (spec.for_end body.now bound.now place initial.now head inner env.now) }
{
    let ForHead {
        first,
        condition,
        number,
        step,
    } = head;
    let counter = counter_of(alloc, body, number, &first, &condition, &step, &inner)?;
    Ok(TypedIteration::For {
        tokens: for_tokens(bound, initial),
        bound: bounded(env, place, body, bound, counter)?,
        counter,
        first,
        condition,
        step,
        body: inner,
    })
}

// ---- `switch`

/// What stands around the statements of a `switch`.
pub fn in_switch(around: Around) -> Around
    ensures { result ≡ spec.in_switch around }
{
    Around {
        breaks: true,
        continues: around.continues,
    }
}

/// What a `switch` at the place is on.
pub fn switched_of(
    alloc: Global,
    env: &mut Environment,
    place: Place,
    value: &Expr,
) -> Result<Switched, TypeFault>
    ensures { Tells result env.new (spec.switched_of place value.now env.old) }
{
    let typed = value_of(alloc, env, value)?;
    match signed(kind_operand(kind(&typed.ctype))) {
        Ok(promotion) => Ok(Switched {
            scalar: promotion.scalar,
            value: converted(alloc, promotion.conversion, typed.expr)?,
        }),
        Err(kind) => Err(TypeFault::new(kind, place)),
    }
}

/// One more section of a `switch`.
pub fn with_section(
    alloc: Global,
    labelled: Labelled,
    statements: Items<TypedStatement>,
    mut sections: Items<TypedSection>,
) -> Result<Sections, Memory>
    ensures { IfOk result (λ all. all ≡ spec.with_section labelled statements sections) }
{
    let Ended { labels, labelled } = labelled.end_section(alloc);
    sections.push(TypedSection { labels, statements })?;
    Ok(Sections { labelled, sections })
}

/// A `switch` whose sections are typed.
pub fn switch_of(value: &Expr, on: Switched, all: Sections) -> TypedSelection
    ensures { result ≡ spec.switch_of value.now on all }
{
    let Sections { labelled, sections } = all;
    TypedSelection::Switch {
        tokens: switch_tokens(value, labelled.tokens()),
        scalar: on.scalar,
        value: on.value,
        sections,
    }
}

// ---- declarations in blocks

/// An object of a declaration as an item of a block, after those before it.
fn object_after(
    alloc: Global,
    env: &mut Environment,
    of: &QualifiedType,
    declared: &InitDeclarator,
    mut before: ItemList,
) -> Result<ItemList, TypeFault>
    ensures { Tells result env.new (spec.object_after of.now declared.now before env.old) }
{
    let declared = declarator(alloc, env, Storage::Automatic, of, declared)?;
    let item = TypedItem::Object(Boxed::new(alloc, declared)?);
    before.items.push(item)?;
    Ok(before)
}

/// The objects of declarators as items of a block, after those before them.
fn objects_after(
    alloc: Global,
    env: &mut Environment,
    of: &QualifiedType,
    list: &[InitDeclarator],
    before: ItemList,
) -> Result<ItemList, TypeFault>
    ensures { Tells result env.new (along (map (spec.object_after of.now) list.now) before env.old) }
{
    let mut all = before;
    for next in list {
        all = object_after(alloc, env, of, next, all)?;
    }
    Ok(all)
}

/// More tokens.
pub fn with_tokens(tokens: u32, mut items: ItemList) -> ItemList
    ensures { result ≡ spec.with_tokens tokens items }
{
    items.tokens = items.tokens.saturating_add(tokens);
    items
}

/// A declaration as items of a block, after those before it.
pub fn declaration_item(
    alloc: Global,
    env: &mut Environment,
    of: &Declaration,
    before: ItemList,
) -> Result<ItemList, TypeFault>
    ensures { Tells result env.new (spec.declaration_item of.now before env.old) }
{
    let found = object_specs(alloc, env, of)?;
    let more = with_tokens(declaration_tokens(of), before);
    objects_after(alloc, env, &found, of.declarators.as_slice(), more)
}
