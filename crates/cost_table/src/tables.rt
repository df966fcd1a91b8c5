ghost use Rattle.std.specs.Prelude.{◌≡◌, ◌≢◌, IfOk, IfErr, Ok, Err, option_map};
ghost use Rattle.serde_json.specs.View.{view};
ghost use Rattle.cost_table.specs.Tables.{Says, Tells, IsRead, table_in};
ghost use Rattle.cost_table.specs.declared.fault.TableFault.TheVariants as faults;

use crate::extras::least_extra;
use crate::fault::TableFault;
use crate::numbers::numbers_of;
use choice_core::Table;
use hy_bits::Memory;
use serde_json::Value;
use std::alloc::Global;

/// The cost table of a JSON text: one object with the members `a_mul`, with `8 16 32 64` inside;
/// `a2b`, `a2y`, `b2a`, `b2y`, `y2a` and `y2b`, each with `1 8 16 32 64` inside; `b_and`,
/// `b_level` and `y_and`. Numbers are whole, from 0 to 2^32 - 1. Members are examined in this
/// order; then comes the least extra one, by the bytes of its full name.
pub fn table_of(alloc: Global, bytes: &[u8]) -> Result<Table, TableFault>
    ensures table { IfOk result (λ table. Says bytes.now (Ok table)) }
    ensures fault { IfErr result (λ fault. fault ≢ faults.Memory → Says bytes.now (Err fault)) }
{
    match value_of(alloc, bytes)? {
        Some(value) if value.is_object() => table_in(alloc, &value),
        _ => Err(TableFault::Json),
    }
}

/// The value of a JSON text, or none where the bytes are the text of none.
fn value_of(alloc: Global, bytes: &[u8]) -> Result<Option<Value>, Memory>
    ensures { IfOk result (λ found. IsRead bytes.now (option_map view found)) }
{
    match Value::from_slice(alloc, bytes) {
        Ok(value) => Ok(Some(value)),
        Err(error) if error.is_memory() => Err(Memory),
        Err(_) => Ok(None),
    }
}

/// The table that an object is, or its first fault.
fn table_in(alloc: Global, object: &Value) -> Result<Table, TableFault>
    ensures { Tells (λ t. t) result (table_in (view object.now)) }
{
    let table = numbers_of(alloc, object)?;
    match least_extra(alloc, object)? {
        Some(name) => Err(TableFault::Extra(name)),
        None => Ok(table),
    }
}
