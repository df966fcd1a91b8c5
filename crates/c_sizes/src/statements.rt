//! The sizes of statements, each part of them counted once. `counters` are the objects that count the loops around. Each call that can fail
//! fails exactly where memory ran out.

ghost use Rattle.std.specs.Prelude.{◌≡◌, ◌∷◌, IfOk, map};
ghost use Rattle.std.specs.Option.{option_map};
ghost use Rattle.c_meaning.specs.Sizes as sizes;
ghost use Rattle.c_meaning.specs.SizeFolds as folds;
ghost use Rattle.c_sizes.specs.Totals.{totals_of, looped};
ghost use Rattle.c_sizes.specs.Views.{measure_as, declared_as, IsKept, size_of_statement, size_of_item, size_of_iteration, size_of_selection, size_of_section};

use crate::expressions::{effect_size, measure};
use crate::measure::{Around, branch, moved_size, whole_size};
use crate::totals::{Totals, nothing, plus, times, tokens_size, visit};
use c_meaning::{
    Controlling, Counter, Part, TypedBlock, TypedDeclarator, TypedExpr, TypedFirst, TypedItem,
    TypedIteration, TypedSection, TypedSelection, TypedStatement, TypedStep, ValueKind,
};
use hy_bits::Memory;
use sqlite_items::Items;

// ---- declarations and heads

/// The size of a value, if there is one.
#[tactic(auto)]
fn value_size(m: &Around, value: &Option<TypedExpr>, counters: &[u32]) -> Totals
    requires { IsKept m.now }
    ensures { result ≡ totals_of (folds.value_size (measure_as m.now) value.now counters.now) }
{
    match value {
        Some(value) => measure(m, value, counters).total,
        None => nothing(),
    }
}

/// The size of the parts of an initializer.
fn parts_size(m: &Around, parts: &[Part], counters: &[u32]) -> Totals
    requires { IsKept m.now }
    ensures { result ≡ totals_of (sizes.total (map (λ part. folds.value_size (measure_as m.now) part.value counters.now) parts.now)) }
{
    let mut total = nothing();
    for part in parts {
        total = plus(total, value_size(m, &part.value, counters));
    }
    total
}

/// The size of the initialization of an object, if there is one.
#[tactic(auto, using(crate::proofs::Saturation::joined_totals))]
fn start_size(m: &Around, object: u32, start: &Option<Items<Part>>, counters: &[u32]) -> Totals
    requires { IsKept m.now }
    ensures { result ≡ totals_of (folds.start_size (declared_as m.now) object start.now counters.now) }
{
    match start {
        Some(parts) => plus(
            parts_size(m, parts.as_slice(), counters),
            whole_size(m, object),
        ),
        None => nothing(),
    }
}

/// The size of a declaration.
#[tactic(auto, using(crate::proofs::Saturation::joined_totals))]
fn declarator_size(m: &Around, declared: &TypedDeclarator, counters: &[u32]) -> Totals
    requires { IsKept m.now }
    ensures { result ≡ totals_of (folds.declarator_size (declared_as m.now) declared.now counters.now) }
{
    plus(
        visit(),
        start_size(m, declared.object, &declared.start, counters),
    )
}

/// The size of declarations.
fn declarators_size(m: &Around, list: &[TypedDeclarator], counters: &[u32]) -> Totals
    requires { IsKept m.now }
    ensures { result ≡ totals_of (sizes.total (map (λ d. folds.declarator_size (declared_as m.now) d counters.now) list.now)) }
{
    let mut total = nothing();
    for declared in list {
        total = plus(total, declarator_size(m, declared, counters));
    }
    total
}

/// The size of a statement itself, with its own tokens.
#[tactic(auto, using(crate::proofs::Saturation::joined_totals))]
fn own_size(tokens: u32) -> Totals
    ensures { result ≡ totals_of (folds.own_size tokens) }
{
    plus(visit(), tokens_size(tokens))
}

/// The size of a controlling expression.
#[tactic(auto, using(crate::proofs::Saturation::joined_totals))]
fn controlling_size(m: &Around, condition: &Controlling, counters: &[u32]) -> Totals
    requires { IsKept m.now }
    ensures { result ≡ totals_of (folds.controlling_size (measure_as m.now) condition.now counters.now) }
{
    plus(
        measure(m, &condition.value, counters).total,
        tokens_size(condition.tokens),
    )
}

/// The size of a controlling expression, if there is one.
fn controlling_where(m: &Around, condition: &Option<Controlling>, counters: &[u32]) -> Totals
    requires { IsKept m.now }
    ensures { result ≡ totals_of (folds.controlling_where (measure_as m.now) condition.now counters.now) }
{
    match condition {
        Some(condition) => controlling_size(m, condition, counters),
        None => nothing(),
    }
}

/// The size of the last part of the head of a `for`.
#[tactic(auto, using(crate::proofs::Saturation::joined_totals))]
fn step_size(m: &Around, step: &Option<TypedStep>, counters: &[u32]) -> Totals
    requires { IsKept m.now }
    ensures { result ≡ totals_of (folds.step_size (measure_as m.now) step.now counters.now) }
{
    match step {
        Some(step) => {
            let visited = plus(visit(), effect_size(m, &step.effect, counters));
            plus(visited, tokens_size(step.tokens))
        }
        None => nothing(),
    }
}

/// The size of the first part of a `for`.
#[tactic(auto, using(crate::proofs::Saturation::joined_totals))]
fn first_size(m: &Around, first: &TypedFirst, counters: &[u32]) -> Totals
    requires { IsKept m.now }
    ensures { result ≡ totals_of (folds.first_size (declared_as m.now) first.now counters.now) }
{
    match first {
        TypedFirst::Nothing => nothing(),
        TypedFirst::Objects(list) => declarators_size(m, list.as_slice(), counters),
        TypedFirst::Effect(effect) => plus(visit(), effect_size(m, effect, counters)),
    }
}

/// The size of at most `bound` turns, with one test more than turns.
#[tactic(auto, unfolding(crate::specs::Totals::looped), using(crate::proofs::Saturation::joined_totals))]
fn loop_size(m: &Around, bound: u32, test: Totals, body: Totals, step: Totals) -> Totals
    requires { IsKept m.now }
    ensures { result ≡ looped (totals_of (sizes.plus sizes.visit (sizes.branch (measure_as m.now)))) bound test body step }
{
    let turn = plus(plus(visit(), branch(m)), plus(body, step));
    plus(
        times(u64::from(bound) + 1, test),
        times(u64::from(bound), turn),
    )
}

/// The counters in the body of a loop.
fn counters_in(
    m: &Around,
    bound: u32,
    counter: Option<Counter>,
    counters: &[u32],
) -> Result<Vec<u32>, Memory>
    ensures { IfOk result (λ inner. inner.items ≡ folds.counters_in bound counter counters.now) }
{
    let mut inner = Vec::with_capacity(m.alloc, counters.len())?;
    if let Some(counter) = counter {
        if counter.turns == bound {
            inner.push(counter.object)?;
        }
    }
    inner.extend_from_slice(counters)?;
    Ok(inner)
}

// ---- statements

/// The size of a statement.
#[cycle(statements)]
#[tactic(auto, using(crate::proofs::Saturation::joined_totals))]
fn statement_size(
    m: &Around,
    statement: &TypedStatement,
    counters: &[u32],
) -> Result<Totals, Memory>
    requires { IsKept m.now }
    ensures { IfOk result (λ total. total ≡ totals_of (size_of_statement (declared_as m.now) statement.now counters.now)) }
{
    match statement {
        TypedStatement::Block(block) => block_size(m, block.get(), counters),
        TypedStatement::Empty => Ok(own_size(1)),
        TypedStatement::Effect { tokens, effect } => {
            Ok(plus(own_size(*tokens), effect_size(m, effect.get(), counters)))
        }
        TypedStatement::Break => Ok(own_size(2)),
        TypedStatement::Continue => Ok(own_size(2)),
        TypedStatement::Return {
            tokens,
            kind,
            value,
        } => Ok(return_size(m, *tokens, *kind, value.get(), counters)),
        TypedStatement::Selection(selection) => selection_size(m, selection.get(), counters),
        TypedStatement::Iteration(iteration) => iteration_size(m, iteration.get(), counters),
    }
}

/// The size of a `return`.
#[tactic(auto, using(crate::proofs::Saturation::joined_totals))]
fn return_size(
    m: &Around,
    tokens: u32,
    kind: ValueKind,
    value: &Option<TypedExpr>,
    counters: &[u32],
) -> Totals
    requires { IsKept m.now }
    ensures { result ≡ totals_of (sizes.plus (folds.own_size tokens) (sizes.plus (folds.value_size (measure_as m.now) value.now counters.now) (sizes.moved_size (measure_as m.now) kind))) }
{
    let moved = plus(value_size(m, value, counters), moved_size(m, kind));
    plus(own_size(tokens), moved)
}

/// The size of a block.
#[cycle(statements)]
#[tactic(auto, using(crate::proofs::Saturation::joined_totals))]
pub fn block_size(m: &Around, block: &TypedBlock, counters: &[u32]) -> Result<Totals, Memory>
    requires { IsKept m.now }
    ensures { IfOk result (λ total. total ≡ totals_of (folds.size_of_block (declared_as m.now) block.now counters.now)) }
{
    let items = items_size(m, block.items.as_slice(), counters)?;
    Ok(plus(own_size(block.tokens), items))
}

/// The size of items of a block.
#[cycle(statements)]
fn items_size(m: &Around, items: &[TypedItem], counters: &[u32]) -> Result<Totals, Memory>
    requires { IsKept m.now }
    ensures { IfOk result (λ total. total ≡ totals_of (folds.all_sized (map (size_of_item (declared_as m.now)) items.now) counters.now)) }
{
    let mut total = nothing();
    for item in items {
        total = plus(total, item_size(m, item, counters)?);
    }
    Ok(total)
}

/// The size of an item of a block.
#[cycle(statements)]
fn item_size(m: &Around, item: &TypedItem, counters: &[u32]) -> Result<Totals, Memory>
    requires { IsKept m.now }
    ensures { IfOk result (λ total. total ≡ totals_of (size_of_item (declared_as m.now) item.now counters.now)) }
{
    match item {
        TypedItem::Statement(statement) => statement_size(m, statement, counters),
        TypedItem::Object(declared) => Ok(declarator_size(m, declared.get(), counters)),
    }
}

/// The size of statements.
#[cycle(statements)]
fn statements_size(m: &Around, list: &[TypedStatement], counters: &[u32]) -> Result<Totals, Memory>
    requires { IsKept m.now }
    ensures { IfOk result (λ total. total ≡ totals_of (folds.all_sized (map (size_of_statement (declared_as m.now)) list.now) counters.now)) }
{
    let mut total = nothing();
    for statement in list {
        total = plus(total, statement_size(m, statement, counters)?);
    }
    Ok(total)
}

/// The size of sections of a `switch`.
#[cycle(statements)]
fn sections_size(m: &Around, sections: &[TypedSection], counters: &[u32]) -> Result<Totals, Memory>
    requires { IsKept m.now }
    ensures { IfOk result (λ total. total ≡ totals_of (folds.all_sized (map (size_of_section (declared_as m.now)) sections.now) counters.now)) }
{
    let mut total = nothing();
    for section in sections {
        total = plus(total, section_size(m, section, counters)?);
    }
    Ok(total)
}

/// The size of a section of a `switch`.
#[cycle(statements)]
fn section_size(m: &Around, section: &TypedSection, counters: &[u32]) -> Result<Totals, Memory>
    requires { IsKept m.now }
    ensures { IfOk result (λ total. total ≡ totals_of (size_of_section (declared_as m.now) section.now counters.now)) }
{
    statements_size(m, section.statements.as_slice(), counters)
}

/// The size of the second statement of an `if`, if there is one.
#[cycle(statements)]
fn otherwise_size(
    m: &Around,
    otherwise: &Option<TypedStatement>,
    counters: &[u32],
) -> Result<Totals, Memory>
    requires { IsKept m.now }
    ensures { IfOk result (λ total. total ≡ totals_of (folds.option_sized (option_map (size_of_statement (declared_as m.now)) otherwise.now) counters.now)) }
{
    match otherwise {
        Some(otherwise) => statement_size(m, otherwise, counters),
        None => Ok(nothing()),
    }
}

/// The size of a selection statement.
#[cycle(statements)]
#[tactic(auto, using(crate::proofs::Saturation::joined_totals))]
fn selection_size(
    m: &Around,
    selection: &TypedSelection,
    counters: &[u32],
) -> Result<Totals, Memory>
    requires { IsKept m.now }
    ensures { IfOk result (λ total. total ≡ totals_of (size_of_selection (declared_as m.now) selection.now counters.now)) }
{
    match selection {
        TypedSelection::If {
            tokens,
            condition,
            then,
            otherwise,
        } => {
            let consequence = statement_size(m, then, counters)?;
            let either = plus(consequence, otherwise_size(m, otherwise, counters)?);
            let parts = plus(measure(m, condition, counters).total, either);
            Ok(plus(plus(own_size(*tokens), branch(m)), parts))
        }
        TypedSelection::Switch {
            tokens,
            value,
            sections,
            ..
        } => {
            let all = sections_size(m, sections.as_slice(), counters)?;
            let parts = plus(measure(m, value, counters).total, all);
            Ok(plus(plus(own_size(*tokens), branch(m)), parts))
        }
    }
}

/// The size of an iteration statement.
#[cycle(statements)]
#[tactic(auto, using(crate::proofs::Saturation::joined_totals, crate::proofs::Saturation::looped_totals))]
fn iteration_size(
    m: &Around,
    iteration: &TypedIteration,
    counters: &[u32],
) -> Result<Totals, Memory>
    requires { IsKept m.now }
    ensures { IfOk result (λ total. total ≡ totals_of (size_of_iteration (declared_as m.now) iteration.now counters.now)) }
{
    match iteration {
        TypedIteration::While {
            tokens,
            bound,
            condition,
            body,
        } => {
            let body = statement_size(m, body, counters)?;
            let test = controlling_size(m, condition, counters);
            Ok(plus(
                own_size(*tokens),
                loop_size(m, *bound, test, body, nothing()),
            ))
        }
        TypedIteration::Do {
            tokens,
            bound,
            body,
            condition,
        } => {
            let body = statement_size(m, body, counters)?;
            let test = controlling_size(m, condition, counters);
            Ok(plus(
                own_size(*tokens),
                loop_size(m, *bound, test, body, nothing()),
            ))
        }
        TypedIteration::For {
            tokens,
            bound,
            counter,
            first,
            condition,
            step,
            body,
        } => {
            let inner = counters_in(m, *bound, *counter, counters)?;
            let body = statement_size(m, body, inner.as_slice())?;
            let head = plus(own_size(*tokens), first_size(m, first, counters));
            let test = controlling_where(m, condition, counters);
            let step = step_size(m, step, counters);
            Ok(plus(head, loop_size(m, *bound, test, body, step)))
        }
    }
}
