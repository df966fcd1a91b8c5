//! The cut of a graph.
ghost use Rattle.std.specs.Prelude.{◌≡◌, ◌<◌, ◌≤◌, ◌^◌, ◌++◌, [], ℕ, false, is_some, not, length, filter, get_or, map, slice_get, IfOk, OnOk};
ghost use Rattle.std.specs.List.{All, flat_map, list_all, list_any};
ghost use Rattle.word_graph.specs.Shape.{IsGraph, constant_word, node_limit};
ghost use Rattle.module_split.specs.Lists.{at};
ghost use Rattle.module_split.specs.Homes.{home_at, is_arithmetic};
ghost use Rattle.module_split.specs.Cut.{below, class_of, crosses_into, cut_of, edge_with, edges_to, is_of, is_result, is_variable, ins_of, layer_in, module_of, nodes_of, region_in};
ghost use Rattle.module_split.specs.Steps.{AreUsers, IsBelow, groups_words, is_out, module_number, module_with, places_of_modules};
ghost use Rattle.module_split.specs.Parts.{IsBelonging, IsUsing};
ghost use Rattle.module_split.specs.Modules.{layer_limit};

use crate::homes::{Group, Home, groups_of, home_at, homes_of};
use crate::lists::Lists;
use crate::module::{Class, EdgeWords, Module, Modules, Places};
use crate::order::{numbers_of, order_of};
use crate::uses::{crossings, nodes_of, number_at, users_of};
use hy_bits::{Memory, Op};
use indexmap::IndexSet;
use std::alloc::Global;
use word_graph::{Entry, Graph, Node};

/// Whether a node is no constant.
fn is_variable(entry: &Entry) -> bool
    ensures { result ≡ not (is_some (constant_word entry.now.op entry.now.number)) }
{
    match entry.op {
        Op::Const => false,
        _ => true,
    }
}

/// The places of the nodes that are no constants, ascending.
fn variables(alloc: Global, entries: &[Entry]) -> Result<Vec<u32>, Memory>
    requires { length entries.now ≤ node_limit }
    ensures { IfOk result (λ places. places.items ≡ filter (is_variable entries.now) (below (length entries.now))) }
{
    let mut places = Vec::new(alloc);
    for (place, entry) in entries.iter().enumerate() {
        if is_variable(entry) {
            places.push(place as u32)?;
        }
    }
    Ok(places)
}

/// The nodes of all modules, module by module.
fn joined(alloc: Global, nodes: &Lists, count: usize) -> Result<Vec<u32>, Memory>
    requires { length nodes.now ≡ count }
    ensures { IfOk result (λ places. places.items ≡ flat_map (at nodes.now) (below count)) }
{
    let mut places = Vec::new(alloc);
    for module in 0..count {
        places.extend_from_slice(nodes.get(module))?;
    }
    Ok(places)
}

/// Which nodes are results.
fn wanted_of(alloc: Global, results: &[Node], count: usize) -> Result<Vec<bool>, Memory>
    requires { All (λ node. node.index < count) results.now }
    ensures count { IfOk result (λ wanted. length wanted.items ≡ count) }
    ensures each { IfOk result (λ wanted. (k : ℕ) → k < count → get_or wanted.items k false ≡ is_result results.now k) }
{
    let mut wanted = vec![in alloc; false; count]?;
    for node in results {
        wanted[node.index as usize] = true;
    }
    Ok(wanted)
}

/// Whether some of the users lies in another module.
fn is_used_outside(number: usize, users: &[u32], numbers: &[Option<usize>]) -> bool
    ensures { result ≡ list_any (λ user. not (is_of numbers.now number user)) users.now }
{
    users
        .iter()
        .any(|user| number_at(numbers, *user) != Some(number))
}

/// Whether a node of a module is a result or is used outside.
fn is_out(
    number: usize,
    node: u32,
    users: &Lists,
    numbers: &[Option<usize>],
    wanted: &[bool],
) -> bool
    requires stand { node < length users.now }
    requires wanted { length wanted.now ≡ length users.now }
    ensures { result ≡ is_out wanted.now users.now numbers.now number node }
{
    let place = node as usize;
    wanted[place] || is_used_outside(number, users.get(place), numbers)
}

/// The nodes of a module that are results or are used outside.
fn outs_of(
    alloc: Global,
    number: usize,
    nodes: &[u32],
    users: &Lists,
    numbers: &[Option<usize>],
    wanted: &[bool],
) -> Result<Vec<u32>, Memory>
    requires stand { All (λ k. k < length users.now) nodes.now }
    requires wanted { length wanted.now ≡ length users.now }
    ensures { IfOk result (λ outs. outs.items ≡ filter (is_out wanted.now users.now numbers.now number) nodes.now) }
{
    let mut outs = Vec::new(alloc);
    for node in nodes {
        if is_out(number, *node, users, numbers, wanted) {
            outs.push(*node)?;
        }
    }
    Ok(outs)
}

/// The region of a node in a module.
fn region_in(home: Home) -> u32
    ensures { result ≡ region_in home }
{
    match home {
        Home::Inside(group) => group.region,
        Home::Input | Home::Constant => 0,
    }
}

/// Whether all of these nodes are of the arithmetic class.
fn are_arithmetic(homes: &[Home], nodes: &[u32]) -> bool
    ensures { result ≡ list_all (λ k. is_arithmetic (home_at homes.now k)) nodes.now }
{
    nodes
        .iter()
        .all(|node| home_at(homes, *node).is_arithmetic())
}

/// The class of a module of these nodes.
fn class_of(homes: &[Home], nodes: &[u32]) -> Class
    ensures { result ≡ class_of (list_all (λ k. is_arithmetic (home_at homes.now k)) nodes.now) }
{
    if are_arithmetic(homes, nodes) {
        Class::Arithmetic
    } else {
        Class::Boolean
    }
}

/// The region of the first of these nodes.
fn first_region(homes: &[Home], nodes: &[u32]) -> u32
    ensures { result ≡ region_in (home_at homes.now (get_or nodes.now 0 0)) }
{
    let first = nodes.first().copied().unwrap_or(0);
    region_in(home_at(homes, first))
}

/// A copy of a list of places.
fn places(alloc: Global, list: &[u32]) -> Result<Places, Memory>
    ensures { IfOk result (λ places. places ≡ list.now) }
{
    Ok(Places::new(Vec::from_slice(alloc, list)?))
}

/// A module of these nodes.
fn module_with(
    alloc: Global,
    homes: &[Home],
    layer: u32,
    nodes: &[u32],
    ins: &[u32],
    outs: Vec<u32>,
) -> Result<Module, Memory>
    ensures { IfOk result (λ m. m ≡ module_with homes.now layer nodes.now ins.now outs.items) }
{
    let class = class_of(homes, nodes);
    let region = first_region(homes, nodes);
    let node_places = places(alloc, nodes)?;
    let in_places = places(alloc, ins)?;
    Ok(Module {
        class,
        layer,
        region,
        nodes: node_places,
        ins: in_places,
        outs: Places::new(outs),
    })
}

/// Adds the edges to a module, which uses these nodes of others, given module by module.
fn add_edges(
    alloc: Global,
    edges: &mut Vec<EdgeWords>,
    to: u32,
    crossing: &[u32],
    numbers: &[Option<usize>],
) -> Result<(), Memory>
    requires { All (IsBelow (2 ^ 32)) numbers.now }
    ensures { OnOk result (edges.new.items ≡ edges.old.items ++ groups_words numbers.now to 0 [] crossing.now) }
{
    let mut from = 0;
    let mut words = Vec::new(alloc);
    for node in crossing {
        let module = module_number(numbers, *node);
        if module != from {
            add_edge(edges, to, from, words)?;
            from = module;
            words = Vec::new(alloc);
        }
        words.push(*node)?;
    }
    add_edge(edges, to, from, words)?;
    Ok(())
}

/// The number of the module of a node that lies in one.
fn module_number(numbers: &[Option<usize>], node: u32) -> u32
    requires { All (IsBelow (2 ^ 32)) numbers.now }
    ensures { result ≡ module_number numbers.now node }
{
    match number_at(numbers, node) {
        Some(module) => module as u32,
        None => 0,
    }
}

/// Adds an edge with these words, if there are any.
fn add_edge(edges: &mut Vec<EdgeWords>, to: u32, from: u32, words: Vec<u32>) -> Result<(), Memory>
    ensures { OnOk result (edges.new.items ≡ edges.old.items ++ edge_with to from words.items) }
{
    if !words.is_empty() {
        edges.push(EdgeWords {
            from,
            to,
            words: Places::new(words),
        })?;
    }
    Ok(())
}

/// Where the nodes of a graph belong: their homes, the groups of the modules, and the number of each node's module.
#[derive(Drop)]
struct Belonging {
    homes: Vec<Home>,
    order: IndexSet<Group>,
    numbers: Vec<Option<usize>>,
}

/// Who uses whom: the users of each node, the nodes of each module, and what each module uses without having it, by place
/// but for constants, and module by module.
#[derive(Drop)]
struct Using {
    users: Lists,
    nodes: Lists,
    ins: Lists,
    crossing: Lists,
}

/// Where the nodes of a graph belong.
fn belonging_of(alloc: Global, entries: &[Entry], layers: u32) -> Result<Belonging, Memory>
    requires limit { length entries.now ≤ node_limit }
    requires some { 0 < layers }
    requires few { layers ≤ 64 }
    ensures { IfOk result (IsBelonging entries.now layers) }
{
    let homes = homes_of(alloc, layers, entries)?;
    let groups = groups_of(alloc, layers, &homes)?;
    let order = order_of(alloc, layers, &groups)?;
    let numbers = numbers_of(alloc, &order, &groups)?;
    Ok(Belonging {
        homes,
        order,
        numbers,
    })
}

/// What each module uses without having it, by place but for constants.
fn ins_of(
    alloc: Global,
    entries: &[Entry],
    users: &Lists,
    numbers: &[Option<usize>],
    count: usize,
) -> Result<Lists, Memory>
    requires limit { length entries.now ≤ node_limit }
    requires users { AreUsers entries.now users.now }
    requires low { All (IsBelow count) numbers.now }
    ensures count { IfOk result (λ ins. length ins ≡ count) }
    ensures ins { IfOk result (λ ins. (m : ℕ) → m < count → at ins m ≡ ins_of entries.now numbers.now m) }
{
    let places = variables(alloc, entries)?;
    let ins = crossings(alloc, &places, users, numbers, count)?;
    Ok(ins)
}

/// What each module uses without having it, module by module.
fn crossing_of(
    alloc: Global,
    entries: &[Entry],
    users: &Lists,
    nodes: &Lists,
    numbers: &[Option<usize>],
    count: usize,
) -> Result<Lists, Memory>
    requires entries { length numbers.now ≡ length entries.now }
    requires users { AreUsers entries.now users.now }
    requires low { All (IsBelow count) numbers.now }
    requires count { length nodes.now ≡ count }
    requires nodes { (m : ℕ) → m < count → at nodes.now m ≡ nodes_of numbers.now m }
    ensures count { IfOk result (λ crossing. length crossing ≡ count) }
    ensures crossing { IfOk result (λ crossing. (m : ℕ) → m < count → at crossing m ≡ filter (crosses_into entries.now numbers.now m) (places_of_modules numbers.now count)) }
{
    let _size = entries.len();
    let places = joined(alloc, nodes, count)?;
    let crossing = crossings(alloc, &places, users, numbers, count)?;
    Ok(crossing)
}

/// Who uses whom.
fn using_of(
    alloc: Global,
    entries: &[Entry],
    numbers: &[Option<usize>],
    count: usize,
) -> Result<Using, Memory>
    requires graph { IsGraph entries.now }
    requires entries { length numbers.now ≡ length entries.now }
    requires low { All (IsBelow count) numbers.now }
    ensures { IfOk result (IsUsing entries.now numbers.now count) }
{
    let users = users_of(alloc, entries)?;
    let nodes = nodes_of(alloc, numbers, count)?;
    let ins = ins_of(alloc, entries, &users, numbers, count)?;
    let crossing = crossing_of(alloc, entries, &users, &nodes, numbers, count)?;
    Ok(Using {
        users,
        nodes,
        ins,
        crossing,
    })
}

/// The modules of a cut.
fn modules_of(
    alloc: Global,
    entries: &[Entry],
    results: &[Node],
    belonging: &Belonging,
    uses: &Using,
) -> Result<Vec<Module>, Memory>
    requires stand { All (λ node. node.index < length entries.now) results.now }
    requires entries { length belonging.now.numbers.items ≡ length entries.now }
    requires uses { IsUsing entries.now belonging.now.numbers.items (length belonging.now.order.keys) uses.now }
    ensures { IfOk result (λ list. list.items ≡ map (module_of entries.now belonging.now.homes.items belonging.now.order.keys belonging.now.numbers.items results.now) (below (length belonging.now.order.keys))) }
{
    let wanted = wanted_of(alloc, results, entries.len())?;
    let numbers = belonging.numbers.as_slice();
    let mut list = Vec::new(alloc);
    for number in 0..belonging.order.len() {
        let layer = layer_at(&belonging.order, number);
        let nodes = uses.nodes.get(number);
        let outs = outs_of(alloc, number, nodes, &uses.users, numbers, &wanted)?;
        let ins = uses.ins.get(number);
        let module = module_with(alloc, &belonging.homes, layer, nodes, ins, outs)?;
        list.push(module)?;
    }
    Ok(list)
}

/// The layer of a module.
fn layer_at(order: &IndexSet<Group>, number: usize) -> u32
    ensures { result ≡ layer_in (slice_get order.now.keys number) }
{
    match order.get_index(number) {
        Some(group) => group.layer,
        None => 0,
    }
}

/// The edges of a cut.
fn edges_of(
    alloc: Global,
    entries: &[Entry],
    numbers: &[Option<usize>],
    count: usize,
    crossing: &Lists,
) -> Result<Vec<EdgeWords>, Memory>
    requires few { count < 2 ^ 32 }
    requires low { All (IsBelow count) numbers.now }
    requires count { length crossing.now ≡ count }
    requires crossing { (m : ℕ) → m < count → at crossing.now m ≡ filter (crosses_into entries.now numbers.now m) (places_of_modules numbers.now count) }
    ensures { IfOk result (λ edges. edges.items ≡ flat_map (edges_to entries.now numbers.now count) (below count)) }
{
    let _size = entries.len();
    let mut edges = Vec::new(alloc);
    for to in 0..count {
        add_edges(alloc, &mut edges, to as u32, crossing.get(to), numbers)?;
    }
    Ok(edges)
}

/// The most layers of a cut.
pub const LAYER_LIMIT: u32 = 64;

/// The modules of a graph and the edges between them, where the nodes `results` are the results and there are at most `layers`
/// layers, of which there may be `LAYER_LIMIT`. Time grows with the number of nodes.
///
/// # Errors
///
/// Memory ran out.
pub fn split(alloc: Global, graph: &Graph, results: &[Node], layers: u32) -> Result<Modules, Memory>
    requires stand { All (λ node. node.index < length graph.now) results.now }
    requires some { 0 < layers }
    requires few { layers ≤ layer_limit }
    ensures { IfOk result (λ modules. modules ≡ cut_of graph.now results.now layers) }
{
    let entries = graph.entries();
    let belonging = belonging_of(alloc, entries, layers)?;
    let numbers = belonging.numbers.as_slice();
    let count = belonging.order.len();
    let uses = using_of(alloc, entries, numbers, count)?;
    let list = modules_of(alloc, entries, results, &belonging, &uses)?;
    let edges = edges_of(alloc, entries, numbers, count, &uses.crossing)?;
    Ok(Modules::new(list, edges))
}
