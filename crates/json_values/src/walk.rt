ghost use Rattle.std.specs.Prelude.{◌≡◌, ℕ, ◌++◌, List, [], map, option_map, codes, IfOk};
ghost use Rattle.serde_json.specs.View.{view, items_view, members_view};
ghost use Rattle.serde_json.specs.Find.{get_member, as_number, as_array, as_object};
ghost use Rattle.json_values.specs.declared.fault.InputKind.TheVariants.{Extra};
ghost use Rattle.json_values.specs.Walk.{Reading, Leaves, IsStop, onto, under, place, named, words_at, items_words, fields_words, scalar_words, array_words as words_of_array, struct_words as words_of_struct, wanted, fault_at, extra as extra_of, names_of, no_extra};
ghost use Rattle.json_values.specs.Names.{IsSetOf};

use crate::fault::{Fault, InputKind, Stop};
use crate::leaf::number_word;
use hy_bits::{Field, Memory, Scalar, Shape, Text};
use serde_json::{Map, Value};
use sqlite_items::Items;
use std::alloc::Global;
use std::collections::BTreeSet;

/// Appends the words that a value gives to a shape, in time linear in the value, but for the look-up of names: a struct of n
/// fields takes n log n comparisons. It calls itself as deep as the shape.
#[cycle(walk)]
#[tactic(auto, using(crate::proofs::Readings::words_at_Scalar, crate::proofs::Readings::words_at_Array, crate::proofs::Readings::words_at_Struct))]
pub fn shape_words(
    alloc: Global,
    shape: &Shape,
    value: &Value,
    words: &mut Vec<u64>,
) -> Result<(), Stop>
    ensures { Leaves words.new.items result (onto words.old.items (words_at shape.now (view value.now))) }
{
    match shape {
        Shape::Scalar(scalar) => scalar_word(alloc, *scalar, value, words),
        Shape::Array(count, element) => { array_words(alloc, *count, element.get(), value, words) }
        Shape::Struct(fields) => struct_words(alloc, fields, value, words),
    }
}

/// The word of a value that should be a number.
fn scalar_word(
    alloc: Global,
    scalar: Scalar,
    value: &Value,
    words: &mut Vec<u64>,
) -> Result<(), Stop>
    ensures { Leaves words.new.items result (onto words.old.items (scalar_words scalar (as_number (view value.now)))) }
{
    let Some(number) = value.as_number() else {
        return Err(fault(alloc, InputKind::Shape));
    };
    match number_word(scalar, number) {
        Ok(word) => {
            words.push(word)?;
            Ok(())
        }
        Err(kind) => Err(fault(alloc, kind)),
    }
}

/// The words of a value that should be an array of this length.
#[cycle(walk)]
fn array_words(
    alloc: Global,
    count: u32,
    element: &Shape,
    value: &Value,
    words: &mut Vec<u64>,
) -> Result<(), Stop>
    ensures { Leaves words.new.items result (onto words.old.items (words_of_array count (words_at element.now) (as_array (view value.now)))) }
{
    let Some(items) = value.as_array() else {
        return Err(fault(alloc, InputKind::Shape));
    };
    if items.len() == count as usize {
        element_words(alloc, element, items, words)
    } else {
        Err(fault(alloc, InputKind::Shape))
    }
}

/// The words of a value that should be an object with these members.
#[cycle(walk)]
fn struct_words(
    alloc: Global,
    fields: &Items<Field>,
    value: &Value,
    words: &mut Vec<u64>,
) -> Result<(), Stop>
    ensures { Leaves words.new.items result (onto words.old.items (words_of_struct (map named fields.now) (as_object (view value.now)))) }
{
    let Some(members) = value.as_object() else {
        return Err(fault(alloc, InputKind::Shape));
    };
    field_words(alloc, fields, members, words)?;
    no_extra_field(alloc, fields, members)
}

#[cycle(walk)]
fn element_words(
    alloc: Global,
    element: &Shape,
    items: &Vec<Value>,
    words: &mut Vec<u64>,
) -> Result<(), Stop>
    ensures { Leaves words.new.items result (onto words.old.items (items_words (words_at element.now) 0 (items_view items.now.items))) }
{
    let mut at = 0;
    for item in items {
        if let Err(stop) = shape_words(alloc, element, item, words) {
            return Err(at_place(alloc, at, stop));
        }
        at += 1;
    }
    Ok(())
}

#[cycle(walk)]
fn field_words(
    alloc: Global,
    fields: &Items<Field>,
    members: &Map<String, Value>,
    words: &mut Vec<u64>,
) -> Result<(), Stop>
    ensures { Leaves words.new.items result (onto words.old.items (fields_words (map named fields.now) (members_view members.now.entries))) }
{
    for field in fields.as_slice() {
        if let Err(stop) = member_words(
            alloc,
            field.name.as_bytes(),
            &field.shape,
            members,
            words,
        ) {
            return Err(stop_under(alloc, b".", field.name.as_bytes(), stop));
        }
    }
    Ok(())
}

/// Appends the words that the member of this name gives to a shape.
#[cycle(walk)]
pub fn member_words(
    alloc: Global,
    name: &[u8],
    shape: &Shape,
    members: &Map<String, Value>,
    words: &mut Vec<u64>,
) -> Result<(), Stop>
    ensures { Leaves words.new.items result (onto words.old.items (wanted (words_at shape.now) (get_member name.now (members_view members.now.entries)))) }
{
    match member_of(members, name) {
        Some(value) => shape_words(alloc, shape, value, words),
        None => Err(fault(alloc, InputKind::Missing)),
    }
}

/// The value of the member of this name. No name of a member is of bytes that are not UTF-8.
fn member_of<'a>(members: &'a Map<String, Value>, name: &[u8]) -> Option<&'a Value>
    ensures { option_map (λ v. view v.now) result ≡ get_member name.now (members_view members.now.entries) }
{
    match str::from_utf8(name) {
        Ok(name) => members.get(name),
        Err(_) => None,
    }
}

/// Stops at the least member by bytes that is none of the fields.
fn no_extra_field(
    alloc: Global,
    fields: &Items<Field>,
    members: &Map<String, Value>,
) -> Result<(), Stop>
    ensures { (words : List ℕ) → Leaves words result (onto words (under (codes ".") (no_extra (extra_of (names_of (map named fields.now)) (members_view members.now.entries))))) }
{
    let names = field_names(alloc, fields)?;
    match extra_member(&names, members) {
        Some(name) => Err(stop_under(alloc, b".", &[], extra_stop(alloc, name))),
        None => Ok(()),
    }
}

/// The names of a struct's fields.
fn field_names(alloc: Global, fields: &Items<Field>) -> Result<BTreeSet<&[u8]>, Memory>
    ensures { IfOk result (IsSetOf (names_of (map named fields.now))) }
{
    let mut names = BTreeSet::new(alloc);
    for field in fields.as_slice() {
        names.insert(field.name.as_bytes())?;
    }
    Ok(names)
}

/// The least name by bytes of the members that have none of these names: members stand in the order of their names.
pub fn extra_member<'a>(
    names: &BTreeSet<&[u8]>,
    members: &'a Map<String, Value>,
) -> Option<&'a [u8]>
    ensures { (listed : List (List ℕ)) → IsSetOf listed names.now → option_map (λ name. name.now) result ≡ extra_of listed (members_view members.now.entries) }
{
    for (name, _) in members.iter() {
        if !names.contains(name.as_bytes()) {
            return Some(name.as_bytes());
        }
    }
    None
}

/// A fault where the walk stands.
pub fn fault(alloc: Global, kind: InputKind) -> Stop
    ensures { IsStop result (fault_at kind []) }
{
    let path = Text::new(Vec::new(alloc));
    Stop::Fault(Fault { kind, path })
}

/// The fault of the first name of a member that should not be there, or none.
pub fn extra_stop(alloc: Global, name: &[u8]) -> Stop
    ensures { IsStop result (fault_at Extra name.now) }
{
    match Text::copy_of(alloc, name) {
        Ok(path) => Stop::Fault(Fault {
            kind: InputKind::Extra,
            path,
        }),
        Err(Memory) => Stop::Memory,
    }
}

/// A stop in the element of this place, seen from the array.
fn at_place(alloc: Global, at: usize, stop: Stop) -> Stop
    ensures { (reading : Reading) → IsStop stop reading → IsStop result (under (place at) reading) }
{
    match format!(in alloc; "[{at}]") {
        Ok(step) => stop_under(alloc, step.as_bytes(), &[], stop),
        Err(_) => Stop::Memory,
    }
}

/// A stop, seen from further out, where the path to it begins with the mark and the name.
pub fn stop_under(alloc: Global, mark: &[u8], name: &[u8], stop: Stop) -> Stop
    ensures { (reading : Reading) → IsStop stop reading → IsStop result (under (mark.now ++ name.now) reading) }
{
    match stop {
        Stop::Fault(fault) => match path_under(alloc, mark, name, fault.path.as_bytes()) {
            Ok(path) => Stop::Fault(Fault {
                kind: fault.kind,
                path,
            }),
            Err(Memory) => Stop::Memory,
        },
        Stop::Memory => Stop::Memory,
    }
}

fn path_under(alloc: Global, mark: &[u8], name: &[u8], path: &[u8]) -> Result<Text, Memory>
    ensures { IfOk result (λ text. text ≡ (mark.now ++ name.now) ++ path.now) }
{
    let mut bytes = Vec::from_slice(alloc, mark)?;
    bytes.extend_from_slice(name)?;
    bytes.extend_from_slice(path)?;
    Ok(Text::new(bytes))
}
