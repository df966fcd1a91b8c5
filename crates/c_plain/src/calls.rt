//! The begin and the end of a call, and which section of a `switch` is run (C11 6.5.2.2, 6.8.4.2, 6.9.1).

ghost use Rattle.std.specs.Prelude.{◌≡◌, ◌≤◌, IfOk, map};
ghost use Rattle.std.specs.List.{flat_map, list_any};
ghost use Rattle.c_meaning.specs.Types.{kind_of};
ghost use Rattle.c_meaning.specs.State as meaning;
ghost use Rattle.c_meaning.specs.Expressions as expressions;
ghost use Rattle.c_meaning.specs.Statements as statements;
ghost use Rattle.c_meaning.specs.StatementFolds.{item_runs, section_runs};
ghost use Rattle.c_meaning.specs.Programs as programs;
ghost use Rattle.c_plain.specs.Weights.{total, section_weight};
ghost use Rattle.c_state.specs.Views.{cells_in, state_as, world_as, told};
ghost use Rattle.c_plain.specs.Views.{wanted_label};

use c_meaning::{
    CType, Ending, TypedFirst, TypedItem, TypedLabel, TypedSection, Undefined, ValueKind,
};
use c_state::{State, Value, World, zeros};
use c_tree::Place;
use hy_bits::Memory;

/// The kind of a value of a type.
pub fn kind_of(ctype: &CType) -> ValueKind
    ensures { result ≡ kind_of ctype.now }
{
    match ctype {
        CType::Void => ValueKind::Void,
        CType::Int(scalar) => ValueKind::Integer(*scalar),
        CType::Array(..) => ValueKind::Void,
        CType::Struct(number) => ValueKind::Struct(*number),
        CType::Pointer(..) => ValueKind::Pointer,
    }
}

/// Begins the lives of the parameters `params` with the values of the arguments.
pub fn begin_params(params: &[u32], values: &[Value], state: &mut State)
    ensures { state_as state.new ≡ programs.with_arguments params.now (map cells_in values.now) (state_as state.old) }
{
    for number in 0..params.len() {
        if number >= values.len() {
            return;
        }
        state.begin(params[number]);
        state.write(params[number], 0, &values[number]);
    }
}

/// The result of a function that was called from the place and whose body ended so.
///
/// # Errors
///
/// Memory ran out.
pub fn result_of(
    world: &World,
    place: Place,
    kind: ValueKind,
    ending: Ending,
    state: &mut State,
) -> Result<Option<Value>, Memory>
    ensures { IfOk result (λ answer. told cells_in answer (state_as state.new) ≡ programs.result_of (world_as world.now) place kind ending (state_as state.old)) }
{
    match ending {
        Ending::Return => Ok(Some(state.returned.copy(world.alloc)?)),
        Ending::Past => Ok(None),
        _ => Ok(Some(unreturned(world, place, kind, state)?)),
    }
}

/// The result of a function that reached its end.
///
/// # Errors
///
/// Memory ran out.
fn unreturned(
    world: &World,
    place: Place,
    kind: ValueKind,
    state: &mut State,
) -> Result<Value, Memory>
    ensures { IfOk result (λ value. expressions.Gives (cells_in value) (state_as state.new) ≡ programs.unreturned (world_as world.now) place kind (state_as state.old)) }
{
    match kind {
        ValueKind::Void => {}
        _ => state.flag(Undefined::NoResult, place),
    }
    zeros(world, kind)
}

/// Ends the lives of what the items of a block declare.
pub fn end_items(items: &[TypedItem], state: &mut State)
    ensures { (world : expressions.World) → state_as state.new ≡ meaning.all_ended (flat_map (λ item. (item_runs world item).objects) items.now) (state_as state.old) }
{
    for item in items {
        if let TypedItem::Object(declared) = item {
            state.end(declared.get().object);
        }
    }
}

/// Ends the lives of what the first part of a `for` declares.
pub fn end_first(first: &TypedFirst, state: &mut State)
    ensures { state_as state.new ≡ meaning.all_ended (statements.declared_by first.now) (state_as state.old) }
{
    if let TypedFirst::Objects(list) = first {
        for declared in list.as_slice() {
            state.end(declared.object);
        }
    }
}

/// Whether a label is the case of the word.
fn is_case(word: u64, label: TypedLabel) -> bool
    ensures { result ≡ statements.is_case word label }
{
    match label {
        TypedLabel::Case(value) => word == value,
        TypedLabel::Default => false,
    }
}

/// Whether a label is the default.
fn is_default(label: TypedLabel) -> bool
    ensures { result ≡ statements.is_default label }
{
    match label {
        TypedLabel::Case(_) => false,
        TypedLabel::Default => true,
    }
}

/// Whether a section has the case of the word, or the default where the word is none.
fn has_label(word: Option<u64>, section: &TypedSection) -> bool
    ensures { result ≡ list_any (wanted_label word) section.now.labels }
{
    section.labels.as_slice().iter().any(|label| match word {
        Some(word) => is_case(word, *label),
        None => is_default(*label),
    })
}

/// The sections from the first on that has the case of the word, or the default where the word is none.
fn sections_from(word: Option<u64>, sections: &[TypedSection]) -> &[TypedSection]
    ensures means { (world : expressions.World) → map (section_runs world) result.now ≡ statements.sections_from (wanted_label word) (map (section_runs world) sections.now) }
    ensures weighs { total (map section_weight result.now) ≤ total (map section_weight sections.now) }
{
    for number in 0..sections.len() {
        if has_label(word, &sections[number]) {
            return &sections[number..];
        }
    }
    &[]
}

/// The sections that a `switch` on the word runs: from its case on, or else from the default on.
pub fn selected(word: u64, sections: &[TypedSection]) -> &[TypedSection]
    ensures means { (world : expressions.World) → map (section_runs world) result.now ≡ statements.selected word (map (section_runs world) sections.now) }
    ensures weighs { total (map section_weight result.now) ≤ total (map section_weight sections.now) }
{
    let by_case = sections_from(Some(word), sections);
    if by_case.is_empty() {
        sections_from(None, sections)
    } else {
        by_case
    }
}
