ghost use Rattle.std.specs.Prelude.{◌≡◌, IfOk};
ghost use Rattle.std.specs.Option.{option_copied};
ghost use Rattle.std.specs.Ordering.{is_lt, nat_cmp};
ghost use Rattle.std.specs.Cmp.Lexicographic.{slice_cmp};
ghost use Rattle.serde_json.specs.View.{view, members_view};
ghost use Rattle.cost_table.specs.Names.{names_of, table_names};
ghost use Rattle.cost_table.specs.Tables.{extra_of, extra_inside, lesser, lesser_of, least_extra, least_among};

use crate::names::{Names, full_name};
use hy_bits::{Memory, Text};
use serde_json::{Map, Value};
use std::alloc::Global;

/// The least of all members that a table has not, by its full name.
#[tactic(auto, unfolding(crate::specs::Tables::least_extra))]
pub fn least_extra(alloc: Global, table: &Value) -> Result<Option<Text>, Memory>
    ensures { IfOk result (λ name. name ≡ least_extra (view table.now)) }
{
    let least = extra_of_table(alloc, table)?;
    let least = lesser(least, extra_inside(alloc, table, "a_mul", Names::Products)?);
    let least = lesser(
        least,
        extra_inside(alloc, table, "a2b", Names::Conversions)?,
    );
    let least = lesser(
        least,
        extra_inside(alloc, table, "a2y", Names::Conversions)?,
    );
    let least = lesser(
        least,
        extra_inside(alloc, table, "b2a", Names::Conversions)?,
    );
    let least = lesser(
        least,
        extra_inside(alloc, table, "b2y", Names::Conversions)?,
    );
    let least = lesser(
        least,
        extra_inside(alloc, table, "y2a", Names::Conversions)?,
    );
    Ok(lesser(
        least,
        extra_inside(alloc, table, "y2b", Names::Conversions)?,
    ))
}

/// The least extra member of the table itself.
fn extra_of_table(alloc: Global, table: &Value) -> Result<Option<Text>, Memory>
    ensures { IfOk result (λ name. name ≡ extra_of table_names (view table.now)) }
{
    match extra_of(table, Names::Table) {
        Some(name) => Ok(Some(Text::copy_of(alloc, name.as_bytes())?)),
        None => Ok(None),
    }
}

/// The least extra member inside the object of a group, by its full name.
fn extra_inside(
    alloc: Global,
    table: &Value,
    group: &str,
    names: Names,
) -> Result<Option<Text>, Memory>
    ensures { IfOk result (λ name. name ≡ extra_inside group.now (names_of names) (view table.now)) }
{
    let Some(object) = table.get(group) else {
        return Ok(None);
    };
    match extra_of(object, names) {
        Some(name) => Ok(Some(full_name(alloc, group, name)?)),
        None => Ok(None),
    }
}

/// The least member of an object that has none of these names.
fn extra_of(object: &Value, names: Names) -> Option<&str>
    ensures { option_copied result ≡ extra_of (names_of names) (view object.now) }
{
    match object.as_object() {
        Some(members) => first_extra(members, names),
        None => None,
    }
}

/// The least of these members that has none of these names: they stand in the order of their keys.
fn first_extra(members: &Map<String, Value>, names: Names) -> Option<&str>
    ensures { option_copied result ≡ least_among (names_of names) (members_view members.now.entries) }
{
    for name in members.keys() {
        if !names.holds(name.as_str()) {
            return Some(name.as_str());
        }
    }
    None
}

/// The name that is less by bytes, where there are two.
fn lesser(a: Option<Text>, b: Option<Text>) -> Option<Text>
    ensures { result ≡ lesser a b }
{
    match (a, b) {
        (Some(a), Some(b)) => Some(lesser_of(a, b)),
        (Some(a), None) => Some(a),
        (None, b) => b,
    }
}

/// Of two names the one that is less by bytes.
#[tactic(auto, unfolding(crate::specs::Tables::lesser_of))]
fn lesser_of(a: Text, b: Text) -> Text
    ensures { result ≡ lesser_of a b }
{
    if is_less(b.as_bytes(), a.as_bytes()) {
        b
    } else {
        a
    }
}

/// Whether the first is less by bytes.
fn is_less(a: &[u8], b: &[u8]) -> bool
    ensures { result ≡ is_lt (slice_cmp nat_cmp a.now b.now) }
{
    a.cmp(b).is_lt()
}
