//! The cells of all objects at the begin of a run.
ghost use Rattle.std.specs.Prelude.{◌≡◌, ℕ, List, ◌+◌, ◌*◌, ◌≤◌, ◌<◌, length, map, take, drop, IfOk, IfErr, OnOk};
ghost use Rattle.std.specs.List.{All};
ghost use Rattle.word_graph.specs.declared.graph.GraphFault;
ghost use Rattle.word_graph.specs.Growth.{Grows};
ghost use Rattle.word_graph.specs.Meaning.{InputsFit};
ghost use Rattle.word_graph.specs.Size.{graph_size};
ghost use Rattle.word_nodes.specs.Nodes.{AllStand, Extends, IsFull, worths};
ghost use Rattle.node_lists.specs.Lists.{HasWords};
ghost use Rattle.c_meaning.specs.StatementRules.{IsTyped, cells_in};
ghost use Rattle.c_place.specs.Boards.{HeldFits, IsBoard, Layout, cells_held, held_layout, layout, objects_held};
ghost use Rattle.place_start.specs.Starts.{held_at_start, main_arguments, main_widths, object_layout, program_layout, start_held, with_arguments};
ghost use Rattle.place_start.specs.Begins.{AreZeros, Enters, IsEntered, IsOne, StartsWell, start_words};

use crate::arguments::{
    Argument, argument_widths, arguments_of, is_pointer, object_widths, params_of,
};
use c_meaning::{Object, StructType, Typed, TypedParts};
use c_place::{Board, Cells, Held, Target, Targets, Zeros};
use hy_bits::Width;
use node_lists::{constants, inputs};
use std::alloc::Global;
use word_graph::{Graph, GraphFault, Node};
use word_nodes::constant;

/// The zeros of all widths.
fn make_zeros(graph: &mut Graph) -> Result<Zeros, GraphFault>
    ensures zeros { IfOk result (AreZeros graph.new) }
    ensures extends { Extends 0 graph.old graph.new }
    ensures nodes { length graph.new ≤ length graph.old + 5 }
    ensures gates { graph_size graph.new ≤ graph_size graph.old }
    ensures full { IfErr result (IsFull graph.new) }
{
    let w1 = constant(graph, Width::W1, 0)?;
    let w8 = constant(graph, Width::W8, 0)?;
    let w16 = constant(graph, Width::W16, 0)?;
    let w32 = constant(graph, Width::W32, 0)?;
    let w64 = constant(graph, Width::W64, 0)?;
    Ok(Zeros {
        w1,
        w8,
        w16,
        w32,
        w64,
    })
}

/// The words that an object begins with: those of its initializer, or zeros.
fn first_words(alloc: Global, object: &Object) -> Result<Vec<u64>, GraphFault>
    ensures words { IfOk result (λ r. r.items ≡ start_words object.now.cells object.now.start) }
    ensures memory { IfErr result (λ e. e ≡ GraphFault.Memory) }
{
    match &object.start {
        Some(words) => Ok(Vec::from_slice(alloc, words.as_slice())?),
        None => Ok(vec![in alloc; 0; object.cells as usize]?),
    }
}

/// What an object holds before `mpc_main` has its arguments. A pointer is null, by the node `null`, which is 1.
fn start_object(
    alloc: Global,
    graph: &mut Graph,
    null: Node,
    structs: &[StructType],
    object: &Object,
) -> Result<Held, GraphFault>
    requires null { IsOne graph.old null }
    requires object { StartsWell structs.now object.now }
    ensures fits { IfOk result (λ h. (l : Layout) → HeldFits graph.new l h) }
    ensures layout { IfOk result (λ h. held_layout graph.new h ≡ object_layout structs.now object.now) }
    ensures value { IfOk result (λ h. (ins : List ℕ) → InputsFit graph.old ins → cells_held graph.new ins h ≡ start_held object.now) }
    ensures extends { Extends 0 graph.old graph.new }
    ensures nodes { length graph.new ≤ length graph.old + object.now.cells }
    ensures gates { graph_size graph.new ≤ graph_size graph.old }
    ensures full { IfErr result (IsFull graph.new) }
{
    if is_pointer(&object.ctype) {
        return Ok(Held::Pointer(Targets {
            null,
            list: Vec::new(alloc),
        }));
    }
    let widths = object_widths(alloc, structs, object)?;
    let words = first_words(alloc, object)?;
    Ok(Held::Words(constants(alloc, graph, &widths, &words)?))
}

/// What all objects hold before `mpc_main` has its arguments.
fn start_objects(
    alloc: Global,
    graph: &mut Graph,
    structs: &[StructType],
    objects: &[Object],
) -> Result<Vec<Held>, GraphFault>
    requires { All (StartsWell structs.now) objects.now }
    ensures fits { IfOk result (λ r. (l : Layout) → All (HeldFits graph.new l) r.items) }
    ensures layout { IfOk result (λ r. map (held_layout graph.new) r.items ≡ map (object_layout structs.now) objects.now) }
    ensures value { IfOk result (λ r. (ins : List ℕ) → InputsFit graph.old ins → map (cells_held graph.new ins) r.items ≡ map start_held objects.now) }
    ensures extends { Extends 0 graph.old graph.new }
    ensures nodes { length graph.new ≤ length graph.old + 1 + cells_in objects.now }
    ensures gates { graph_size graph.new ≤ graph_size graph.old }
    ensures full { IfErr result (IsFull graph.new) }
{
    let null = constant(graph, Width::W1, 1)?;
    let mut held = Vec::with_capacity(alloc, objects.len())?;
    for object in objects {
        held.push(start_object(alloc, graph, null, structs, object)?)?;
    }
    Ok(held)
}

/// At most the first `count` nodes, and those after them.
fn split(nodes: &[Node], count: u32) -> (&[Node], &[Node])
    ensures first { result.0.now ≡ take count nodes.now }
    ensures rest { result.1.now ≡ drop count nodes.now }
{
    let count = count as usize;
    if count < nodes.len() {
        (&nodes[..count], &nodes[count..])
    } else {
        (nodes, &[])
    }
}

/// Gives a parameter its words. A pointer points to the first element of its array: `one` is 1, `no` 0 and `origin` the index 0.
fn enter_one(
    alloc: Global,
    argument: &Argument,
    words: &[Node],
    one: Node,
    zeros: Zeros,
    held: &mut Vec<Held>,
) -> Result<(), GraphFault>
    requires object { argument.now.object < length held.old.items }
    requires parameter { argument.now.parameter < length held.old.items }
    ensures objects { OnOk result (IsEntered argument.now words.now one zeros held.old.items held.new.items) }
    ensures memory { IfErr result (λ e. e ≡ GraphFault.Memory) }
{
    held[argument.object as usize] = Held::Words(Vec::from_slice(alloc, words)?);
    match argument.points_to {
        None => Ok(()),
        Some(place) => {
            let mut list = Vec::new(alloc);
            list.push(Target {
                guard: one,
                object: place.object,
                first: place.first,
                size: place.size,
                length: place.length,
                index: zeros.w64,
            })?;
            held[argument.parameter as usize] = Held::Pointer(Targets {
                null: zeros.w1,
                list,
            });
            Ok(())
        }
    }
}

/// Gives the parameters their words, one after another.
fn enter(
    alloc: Global,
    graph: &mut Graph,
    zeros: Zeros,
    arguments: &[Argument],
    words: &[Node],
    held: &mut Vec<Held>,
) -> Result<(), GraphFault>
    requires zeros { AreZeros graph.old zeros }
    requires held { All (HeldFits graph.old (map (held_layout graph.old) held.old.items)) held.old.items }
    requires stand { All (λ n. n.index < length graph.old) words.now }
    requires arguments { Enters graph.old (map (held_layout graph.old) held.old.items) arguments.now words.now }
    ensures fits { OnOk result (All (HeldFits graph.new (map (held_layout graph.new) held.new.items)) held.new.items) }
    ensures layout { OnOk result (map (held_layout graph.new) held.new.items ≡ map (held_layout graph.old) held.old.items) }
    ensures value { OnOk result ((ins : List ℕ) → InputsFit graph.old ins → map (cells_held graph.new ins) held.new.items ≡ with_arguments arguments.now (worths graph.old ins words.now) (map (cells_held graph.old ins) held.old.items)) }
    ensures extends { Extends 0 graph.old graph.new }
    ensures nodes { length graph.new ≤ length graph.old + 1 }
    ensures gates { graph_size graph.new ≤ graph_size graph.old }
    ensures full { IfErr result (IsFull graph.new) }
{
    let one = constant(graph, Width::W1, 1)?;
    let mut rest = words;
    for argument in arguments {
        let (first, others) = split(rest, argument.cells);
        enter_one(alloc, argument, first, one, zeros, held)?;
        rest = others;
    }
    Ok(())
}
/// The parameters of `mpc_main`, and the nodes of their words, one after another.
#[derive(Debug, Drop)]
struct MainInputs {
    arguments: Vec<Argument>,
    words: Vec<Node>,
}

/// Makes the inputs of a program, numbered from 0 on in the order of the parameters of `mpc_main`.
fn main_inputs(
    alloc: Global,
    graph: &mut Graph,
    parts: &TypedParts,
) -> Result<MainInputs, GraphFault>
    ensures arguments { IfOk result (λ m. m.arguments.items ≡ main_arguments parts.now) }
    ensures stand { IfOk result (λ m. AllStand graph.new (main_widths parts.now) m.words.items) }
    ensures value { IfOk result (λ m. (ins : List ℕ) → InputsFit graph.new ins → worths graph.new ins m.words.items ≡ take (length (main_widths parts.now)) ins) }
    ensures there { OnOk result ((ins : List ℕ) → InputsFit graph.new ins → length (main_widths parts.now) ≤ length ins) }
    ensures fit { OnOk result ((ins : List ℕ) → InputsFit graph.old ins → HasWords (main_widths parts.now) ins → InputsFit graph.new ins) }
    ensures grows { Grows graph.old graph.new (length (main_widths parts.now)) 0 }
    ensures full { IfErr result (IsFull graph.new) }
{
    let structs = parts.structs.as_slice();
    let objects = parts.objects.as_slice();
    let arguments = arguments_of(alloc, structs, objects, params_of(parts))?;
    let widths = argument_widths(alloc, structs, objects, arguments.as_slice())?;
    let words = inputs(alloc, graph, widths.as_slice())?;
    Ok(MainInputs { arguments, words })
}

/// The cells of the objects of the program of these parts, which keeps the rules of types.
fn start_parts(alloc: Global, parts: &TypedParts, graph: &mut Graph) -> Result<Cells, GraphFault>
    requires { IsTyped parts.now }
    ensures board { IfOk result (IsBoard graph.new) }
    ensures layout { IfOk result (λ cells. layout graph.new cells ≡ program_layout parts.now) }
    ensures objects { IfOk result (λ cells. (ins : List ℕ) → InputsFit graph.new ins → objects_held graph.new ins cells ≡ held_at_start parts.now ins) }
    ensures there { OnOk result ((ins : List ℕ) → InputsFit graph.new ins → length (main_widths parts.now) ≤ length ins) }
    ensures fit { OnOk result ((ins : List ℕ) → InputsFit graph.old ins → HasWords (main_widths parts.now) ins → InputsFit graph.new ins) }
    ensures grows { Grows graph.old graph.new (length (main_widths parts.now) + parts.now.cells + 7) 0 }
    ensures full { IfErr result (IsFull graph.new) }
{
    let structs = parts.structs.as_slice();
    let objects = parts.objects.as_slice();
    let main = main_inputs(alloc, graph, parts)?;
    let zeros = make_zeros(graph)?;
    let mut held = start_objects(alloc, graph, structs, objects)?;
    let arguments = main.arguments.as_slice();
    let words = main.words.as_slice();
    enter(alloc, graph, zeros, arguments, words, &mut held)?;
    Ok(Cells::of(Board {
        zeros,
        objects: held,
    }))
}

/// The cells of the objects of a typed program as the body of `mpc_main` begins, over a graph that gets the inputs, numbered from 0 on in
/// the order of the parameters. An object of file scope holds the words that it begins with, a parameter its inputs, or a pointer to the first
/// element of the array that holds them, and every other object zeros, or a null pointer. It takes time linear in the cells.
///
/// # Errors
///
/// `NodeLimit` where the graph is full, and `Memory`. The graph may have more nodes.
pub fn start(alloc: Global, typed: &Typed, graph: &mut Graph) -> Result<Cells, GraphFault>
    // The objects, for all inputs that fit, and which do.
    ensures board { IfOk result (IsBoard graph.new) }
    ensures layout { IfOk result (λ cells. layout graph.new cells ≡ program_layout typed.now) }
    ensures objects { IfOk result (λ cells. (ins : List ℕ) → InputsFit graph.new ins → objects_held graph.new ins cells ≡ held_at_start typed.now ins) }
    ensures there { OnOk result ((ins : List ℕ) → InputsFit graph.new ins → length (main_widths typed.now) ≤ length ins) }
    ensures fit { OnOk result ((ins : List ℕ) → InputsFit graph.old ins → HasWords (main_widths typed.now) ins → InputsFit graph.new ins) }

    // The nodes, also after an Err.
    ensures grows { Grows graph.old graph.new (2 * typed.now.cells + 7) 0 }
    ensures full { IfErr result (IsFull graph.new) }
{
    start_parts(alloc, typed.parts(), graph)
}
