ghost use Rattle.std.specs.Prelude.{◌≡◌, ℕ, List, codes, option_map};
ghost use Rattle.serde_json.specs.Find.{get};
ghost use Rattle.serde_json.specs.View.{view};
ghost use Rattle.cost_table.specs.Names.{full_name, product_widths, conversion_widths};
ghost use Rattle.cost_table.specs.Tables.{Tells, number_as, number_of, object_as, group_of, numbers_of};
ghost use Rattle.cost_table.specs.Whys.{named, with_name};

use crate::fault::TableFault;
use crate::names::full_name;
use choice_core::Table;
use hy_bits::Text;
use serde_json::Value;
use std::alloc::Global;

/// The numbers of a table are below this.
const NUMBER_END: u64 = 0x1_0000_0000;

/// The 37 numbers of a table, or the first fault among them.
#[tactic(auto, unfolding(crate::specs::Tables::numbers_of))]
pub fn numbers_of(alloc: Global, table: &Value) -> Result<Table, TableFault>
    ensures { Tells (λ t. t) result (numbers_of (view table.now)) }
{
    Ok(Table {
        a_mul: products_of(alloc, table)?,
        a2b: conversion_of(alloc, table, "a2b")?,
        a2y: conversion_of(alloc, table, "a2y")?,
        b2a: conversion_of(alloc, table, "b2a")?,
        b2y: conversion_of(alloc, table, "b2y")?,
        y2a: conversion_of(alloc, table, "y2a")?,
        y2b: conversion_of(alloc, table, "y2b")?,
        b_and: number_of(alloc, table, "b_and")?,
        b_level: number_of(alloc, table, "b_level")?,
        y_and: number_of(alloc, table, "y_and")?,
    })
}

/// The numbers of products, by width.
#[tactic(auto, unfolding(crate::specs::Tables::numbers_inside))]
fn products_of(alloc: Global, table: &Value) -> Result<[u32; 4], TableFault>
    ensures { Tells (λ t. t) result (group_of (codes "a_mul") product_widths (view table.now)) }
{
    let object = object_of(alloc, table, "a_mul")?;
    Ok([
        number_inside(alloc, object, "a_mul", "8")?,
        number_inside(alloc, object, "a_mul", "16")?,
        number_inside(alloc, object, "a_mul", "32")?,
        number_inside(alloc, object, "a_mul", "64")?,
    ])
}

/// The numbers of a conversion, by width.
#[tactic(auto, unfolding(crate::specs::Tables::numbers_inside))]
fn conversion_of(alloc: Global, table: &Value, group: &str) -> Result<[u32; 5], TableFault>
    ensures { Tells (λ t. t) result (group_of group.now conversion_widths (view table.now)) }
{
    let object = object_of(alloc, table, group)?;
    Ok([
        number_inside(alloc, object, group, "1")?,
        number_inside(alloc, object, group, "8")?,
        number_inside(alloc, object, group, "16")?,
        number_inside(alloc, object, group, "32")?,
        number_inside(alloc, object, group, "64")?,
    ])
}

/// The object of this name.
fn object_of<'t>(alloc: Global, table: &'t Value, name: &str) -> Result<&'t Value, TableFault>
    ensures { Tells (λ o. view o.now) result (object_as name.now (get name.now (view table.now))) }
{
    match table.get(name) {
        None => Err(TableFault::Missing(Text::copy_of(alloc, name.as_bytes())?)),
        Some(value) if value.is_object() => Ok(value),
        Some(_) => Err(TableFault::NotWhole(Text::copy_of(alloc, name.as_bytes())?)),
    }
}

/// The number of this name in the table itself.
fn number_of(alloc: Global, table: &Value, name: &str) -> Result<u32, TableFault>
    ensures { Tells (λ n. n) result (number_of name.now (view table.now)) }
{
    match number_as(table.get(name)) {
        Ok(number) => Ok(number),
        Err(why) => Err(why.of(Text::copy_of(alloc, name.as_bytes())?)),
    }
}

/// The number of this name inside the object of a group.
fn number_inside(alloc: Global, object: &Value, group: &str, name: &str) -> Result<u32, TableFault>
    ensures { Tells (λ n. n) result (number_as (full_name group.now name.now) (get name.now (view object.now))) }
{
    match number_as(object.get(name)) {
        Ok(number) => Ok(number),
        Err(why) => Err(why.of(full_name(alloc, group, name)?)),
    }
}

/// Why there is no number in a place.
#[derive(Clone, Copy)]
enum Why {
    Missing,
    NotWhole,
    TooLarge,
}

impl Why {
    /// The fault at the member of this name.
    fn of(self, name: Text) -> TableFault
        ensures { result ≡ named self name }
    {
        match self {
            Why::Missing => TableFault::Missing(name),
            Why::NotWhole => TableFault::NotWhole(name),
            Why::TooLarge => TableFault::TooLarge(name),
        }
    }
}

/// The number that stands in a place.
fn number_as(found: Option<&Value>) -> Result<u32, Why>
    ensures { (name : List ℕ) → number_as name (option_map (λ v. view v.now) found.entry) ≡ with_name name result }
{
    let Some(value) = found else {
        return Err(Why::Missing);
    };
    match value.as_u64() {
        None => Err(Why::NotWhole),
        Some(number) if number < NUMBER_END => Ok(number as u32),
        Some(_) => Err(Why::TooLarge),
    }
}
