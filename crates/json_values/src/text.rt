ghost use Rattle.std.specs.Prelude.{◌≡◌, map, false, IsTrue, IfOk, Ok, string_bytes};
ghost use Rattle.hy_bits.specs.Shape.{leaves, AreWordsOf};
ghost use Rattle.serde_json.specs.Data.{number, no_members};
ghost use Rattle.serde_json.specs.Find.{of_integer};
ghost use Rattle.serde_json.specs.View.{view};
ghost use Rattle.serde_json.specs.Written.{has_float};
ghost use Rattle.json_values.specs.Meaning.{Says, IsReadInText, number_of};
ghost use Rattle.json_values.specs.Walk.{words_at};
ghost use Rattle.json_values.specs.Text.{scalar_value, value_made, text_value, items_value, fields_value, an_array as made_array, an_object as made_object, making, has_distinct_names};

use crate::leaf::words_end;
use hy_bits::{Field, Memory, Scalar, Shape};
use serde_json::{Map, Value};
use sqlite_items::Items;
use std::alloc::Global;

/// The value of a shape and its words, leaf after leaf: elements from the first on, fields in order. A signed scalar is
/// printed by its signed reading; a leaf without a word is null. A field's name that is no text can't be printed, and is
/// answered as want of memory. It takes time linear in the shape's leaves, but for the members of an object, each of which
/// is put in the order of their names. It calls itself as deep as the shape.
pub fn text_of(alloc: Global, shape: &Shape, words: &[u64]) -> Result<Value, Memory>
    ensures value { IfOk result (λ value. view value ≡ text_value shape.now words.now) }

    // Its numbers are whole.
    ensures whole { IfOk result (λ value. has_float (view value) ≡ false) }

    // One word for each leaf, in its width, is said by the value, where the fields of a struct have names of their own.
    ensures says { AreWordsOf (leaves shape.now) words.now → IsTrue (has_distinct_names shape.now) → IfOk result (λ value. Says shape.now (view value) words.now) }

    // The walk over the value gives such words back.
    ensures read_back { AreWordsOf (leaves shape.now) words.now → IsTrue (has_distinct_names shape.now) → IfOk result (λ value. words_at shape.now (view value) ≡ Ok words.now) }

    // So does a text of one object that has the value as its one member, at a port of this shape.
    ensures in_text { AreWordsOf (leaves shape.now) words.now → IsTrue (has_distinct_names shape.now) → IfOk result (λ value. IsReadInText shape.now (view value) words.now) }
{
    let (value, _rest) = value_of(alloc, shape, words)?;
    Ok(value)
}

/// The value of a shape and the first words, and the words after them.
#[cycle(values)]
fn value_of<'w>(
    alloc: Global,
    shape: &Shape,
    words: &'w [u64],
) -> Result<(Value, &'w [u64]), Memory>
    ensures { IfOk result (λ made. (view made.0, made.1.now) ≡ value_made shape.now words.now) }
{
    match shape {
        Shape::Scalar(scalar) => Ok(scalar_of(*scalar, words)),
        Shape::Array(count, element) => array_of(alloc, *count, element.get(), words),
        Shape::Struct(fields) => object_of(alloc, fields, words),
    }
}

/// The number that the first word is read as, or null where there is none, and the words after it.
fn scalar_of<'w>(scalar: Scalar, words: &'w [u64]) -> (Value, &'w [u64])
    ensures { (view result.0, result.1.now) ≡ scalar_value scalar words.now }
{
    match words {
        [] => (Value::Null, words),
        [word, rest @ ..] => (number_of(scalar, *word), rest),
    }
}

/// The number that a word is read as.
fn number_of(scalar: Scalar, word: u64) -> Value
    ensures { view result ≡ number (of_integer (number_of scalar word)) }
{
    let end = words_end(scalar.width());
    if scalar.signed() && end / 2 <= u128::from(word) {
        let above = (end - 1).saturating_sub(u128::from(word));
        Value::from(-1 - above as i64)
    } else {
        Value::from(word)
    }
}

#[cycle(values)]
fn array_of<'w>(
    alloc: Global,
    count: u32,
    element: &Shape,
    words: &'w [u64],
) -> Result<(Value, &'w [u64]), Memory>
    ensures { IfOk result (λ made. (view made.0, made.1.now) ≡ made_array (items_value count (value_made element.now) words.now)) }
{
    let mut items = Vec::with_capacity(alloc, count as usize)?;
    let mut rest = words;
    for _ in 0..count {
        let (item, after) = value_of(alloc, element, rest)?;
        items.push(item)?;
        rest = after;
    }
    Ok((Value::Array(items), rest))
}

#[cycle(values)]
fn object_of<'w>(
    alloc: Global,
    fields: &Items<Field>,
    words: &'w [u64],
) -> Result<(Value, &'w [u64]), Memory>
    ensures { IfOk result (λ made. (view made.0, made.1.now) ≡ made_object (fields_value (map making fields.now) no_members words.now)) }
{
    let mut members = Map::new(alloc);
    let mut rest = words;
    for field in fields.as_slice() {
        let (value, after) = value_of(alloc, &field.shape, rest)?;
        members.insert(text(alloc, field.name.as_bytes())?, value)?;
        rest = after;
    }
    Ok((Value::Object(members), rest))
}

/// The text of these bytes. Bytes that are none are answered as want of memory.
fn text(alloc: Global, bytes: &[u8]) -> Result<String, Memory>
    ensures { IfOk result (λ text. string_bytes text ≡ bytes.now) }
{
    match str::from_utf8(bytes) {
        Ok(text) => Ok(String::from_str(alloc, text)?),
        Err(_) => Err(Memory),
    }
}
