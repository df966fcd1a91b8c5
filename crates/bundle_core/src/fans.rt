//! What it costs to convert the words that modules hand on.
ghost use Rattle.std.specs.Prelude.{◌≡◌, ◌==◌, ◌^◌, ◌≤◌, ◌<◌, ◌++◌, ◌∷◌, [], ℕ, cond, get_or, length, map, replicate, slice_set, IfOk, OnOk, IsPermutation, IsSortedByKey};
ghost use Rattle.std.specs.List.{All, list_any};
ghost use Rattle.std.specs.Ordering.{nat_cmp};
ghost use Rattle.std.specs.Cmp.Lexicographic.{slice_cmp};
ghost use Rattle.module_split.specs.declared.module.Module.{Module};
ghost use Rattle.module_split.specs.Steps.{IsDistinct};
ghost use Rattle.choice_core.specs.declared.problems.Fan.{Fan};
ghost use Rattle.choice_core.specs.declared.sharings.Sharing.TheVariants.{Arithmetic, Boolean, Yao};
ghost use Rattle.bundle_core.specs.Costs.{fans_of, width_place, word_price};
ghost use Rattle.bundle_core.specs.Fans.{AreLowRows, AreUsers, AreUsersOf, fan_by, goes_to, last_of, list_at, lists_by, plus_row, plus_rows, with_more, with_used};

use choice_core::{Fan, Table};
use hy_bits::{Memory, Sequence, Width};
use module_split::Module;
use std::alloc::Global;
use std::cmp::Ordering;
use word_graph::Entry;

/// The place of a width in a row of conversions.
fn width_place(w: Width) -> usize
    ensures is { result ≡ width_place w }
    ensures small { result < 5 }
{
    match w {
        Width::W1 => 0,
        Width::W8 => 1,
        Width::W16 => 2,
        Width::W32 => 3,
        Width::W64 => 4,
    }
}

/// The number for a width in a row of conversions.
fn conversion(row: &[u32; 5], w: Width) -> u64
    ensures is { result ≡ get_or row.now (width_place w) 0 }
    ensures small { result < 2 ^ 32 }
{
    u64::from(row[width_place(w)])
}

/// The prices of a word of this width, by the producer's and then the consumer's sharing.
fn word_prices(table: &Table, w: Width) -> [[u64; 3]; 3]
    ensures low { AreLowRows (2 ^ 32) result }
    ensures is { result ≡ (0 ∷ word_price table.now Arithmetic Boolean w ∷ word_price table.now Arithmetic Yao w ∷ []) ∷ (word_price table.now Boolean Arithmetic w ∷ 0 ∷ word_price table.now Boolean Yao w ∷ []) ∷ (word_price table.now Yao Arithmetic w ∷ word_price table.now Yao Boolean w ∷ 0 ∷ []) ∷ [] }
{
    [
        [0, conversion(&table.a2b, w), conversion(&table.a2y, w)],
        [conversion(&table.b2a, w), 0, conversion(&table.b2y, w)],
        [conversion(&table.y2a, w), conversion(&table.y2b, w), 0],
    ]
}

/// The sums of two rows of prices.
fn plus_row(a: &[u64; 3], b: &[u64; 3]) -> [u64; 3]
    requires left { All (λ x. x < 2 ^ 63) a.now }
    requires right { All (λ x. x < 2 ^ 63) b.now }
    ensures { result ≡ plus_row a.now b.now }
{
    [a[0] + b[0], a[1] + b[1], a[2] + b[2]]
}

/// The sums of two lists of prices.
fn plus(a: &[[u64; 3]; 3], b: &[[u64; 3]; 3]) -> [[u64; 3]; 3]
    requires left { All (λ row. All (λ x. x < 2 ^ 63) row) a.now }
    requires right { All (λ row. All (λ x. x < 2 ^ 63) row) b.now }
    ensures { result ≡ plus_rows a.now b.now }
{
    [
        plus_row(&a[0], &b[0]),
        plus_row(&a[1], &b[1]),
        plus_row(&a[2], &b[2]),
    ]
}

/// The modules that use the node at a place.
fn users_at(users: &[Sequence<u32>], place: u32) -> &[u32]
    ensures { result.now ≡ list_at users.now place }
{
    match users.get(place as usize) {
        Some(list) => list.as_slice(),
        None => &[],
    }
}

/// The order of two nodes by the lists of modules that use them.
fn compare(users: &[Sequence<u32>], a: u32, b: u32) -> Ordering
    ensures { result ≡ slice_cmp nat_cmp (list_at users.now a) (list_at users.now b) }
{
    users_at(users, a).cmp(&users_at(users, b))
}

/// Puts a module after those that use a node.
fn add(users: &mut [Sequence<u32>], place: usize, number: u32) -> Result<(), Memory>
    requires { place < length users.old }
    ensures { OnOk result (users.new ≡ slice_set users.old place (list_at users.old place ++ number ∷ [])) }
{
    users[place].push(number)?;
    Ok(())
}

/// Puts a module after those that use each of these nodes.
fn add_user(users: &mut [Sequence<u32>], places: &[u32], number: u32) -> Result<(), Memory>
    requires stand { All (λ k. k < length users.old) places.now }
    requires distinct { IsDistinct places.now }
    ensures size { OnOk result (length users.new ≡ length users.old) }
    ensures lists { OnOk result ((k : ℕ) → list_at users.new k ≡ list_at users.old k ++ cond (list_any (λ used. used == k) places.now) (number ∷ []) []) }
{
    for place in places {
        add(users, *place as usize, number)?;
    }
    Ok(())
}

/// As many empty lists.
fn empty_lists(alloc: Global, count: usize) -> Result<Vec<Sequence<u32>>, Memory>
    ensures { IfOk result (λ lists. lists.items ≡ replicate count []) }
{
    let mut lists = Vec::with_capacity(alloc, count)?;
    for _ in 0..count {
        lists.push(Sequence::new(Vec::new(alloc)))?;
    }
    Ok(lists)
}

/// Puts each module after those that use each of its nodes of outside.
fn add_users(users: &mut [Sequence<u32>], list: &[Module]) -> Result<(), Memory>
    requires stand { All (λ (part : Module). All (λ k. k < length users.old) part.ins) list.now }
    requires distinct { All (λ (part : Module). IsDistinct part.ins) list.now }
    requires few { length list.now < 2 ^ 32 }
    requires empty { AreUsersOf list.now 0 (length users.old) users.old }
    ensures { OnOk result (AreUsers list.now (length users.old) users.new) }
{
    for (number, part) in list.iter().enumerate() {
        add_user(users, part.ins.as_slice(), number as u32)?;
    }
    Ok(())
}

/// For each of `count` nodes the modules that use it, ascending.
fn users_of(alloc: Global, list: &[Module], count: usize) -> Result<Vec<Sequence<u32>>, Memory>
    requires stand { All (λ (part : Module). All (λ k. k < count) part.ins) list.now }
    requires distinct { All (λ (part : Module). IsDistinct part.ins) list.now }
    requires few { length list.now < 2 ^ 32 }
    ensures { IfOk result (λ users. AreUsers list.now count users.items) }
{
    let mut users = empty_lists(alloc, count)?;
    add_users(users.as_mut_slice(), list)?;
    Ok(users)
}

/// Whether the last fan goes to these modules.
fn ends_at(fans: &[Fan], to: &[u32]) -> bool
    ensures { result ≡ goes_to (last_of fans.now) to.now }
{
    match fans {
        [.., last] => last.to.as_slice() == to,
        [] => false,
    }
}

/// Puts a word with these prices into the last fan, or into a new one where that goes to other modules.
fn add_word(
    alloc: Global,
    fans: &mut Vec<Fan>,
    from: u32,
    to: &[u32],
    prices: &[[u64; 3]; 3],
) -> Result<(), Memory>
    requires left { All (λ (fan : Fan). All (λ row. All (λ x. x < 2 ^ 63) row) fan.price) fans.old.items }
    requires right { All (λ row. All (λ x. x < 2 ^ 63) row) prices.now }
    ensures { OnOk result (fans.new.items ≡ with_more from to.now prices.now fans.old.items) }
{
    if ends_at(fans, to) {
        let last = fans.len() - 1;
        let fan = &mut fans[last];
        fan.price = plus(&fan.price, prices);
    } else {
        let to = Sequence::new(Vec::from_slice(alloc, to)?);
        let price = *prices;
        fans.push(Fan { from, to, price })?;
    }
    Ok(())
}

/// Puts a word with the list `to` of modules that use it, which may be none, into the fans.
fn add_used(
    alloc: Global,
    fans: &mut Vec<Fan>,
    from: u32,
    to: &[u32],
    prices: &[[u64; 3]; 3],
) -> Result<(), Memory>
    requires left { All (λ (fan : Fan). All (λ row. All (λ x. x < 2 ^ 63) row) fan.price) fans.old.items }
    requires right { All (λ row. All (λ x. x < 2 ^ 63) row) prices.now }
    ensures { OnOk result (fans.new.items ≡ with_used from to.now prices.now fans.old.items) }
{
    if !to.is_empty() {
        add_word(alloc, fans, from, to, prices)?;
    }
    Ok(())
}

/// The nodes in the order of the lists of modules that use them.
fn sorted_by_users(
    alloc: Global,
    users: &[Sequence<u32>],
    places: &[u32],
) -> Result<Vec<u32>, Memory>
    ensures permutation { IfOk result (λ sorted. IsPermutation places.now sorted.items) }
    ensures sorted { IfOk result (λ sorted. IsSortedByKey (list_at users.now) (slice_cmp nat_cmp) sorted.items) }
{
    let mut sorted = Vec::from_slice(alloc, places)?;
    sorted.sort_by(|a, b| compare(users, *a, *b))?;
    Ok(sorted)
}

/// The fans of the producer `from`, whose words are those of the nodes `outs`.
fn fans_from(
    alloc: Global,
    table: &Table,
    entries: &[Entry],
    users: &[Sequence<u32>],
    from: u32,
    outs: &[u32],
) -> Result<Vec<Fan>, Memory>
    requires stand { All (λ k. k < length entries.now) outs.now }
    requires few { length outs.now ≤ 2 ^ 21 }
    ensures { IfOk result (λ fans. fans.items ≡ map (fan_by table.now entries.now (list_at users.now) from outs.now) (lists_by (list_at users.now) outs.now)) }
{
    let sorted = sorted_by_users(alloc, users, outs)?;
    let mut fans = Vec::new(alloc);
    for place in &sorted {
        let prices = word_prices(table, entries[*place as usize].width);
        add_used(alloc, &mut fans, from, users_at(users, *place), &prices)?;
    }
    Ok(fans)
}

/// The fans of all modules.
pub fn fans_of(
    alloc: Global,
    table: &Table,
    entries: &[Entry],
    list: &[Module],
) -> Result<Vec<Fan>, Memory>
    requires ins { All (λ (part : Module). All (λ k. k < length entries.now) part.ins) list.now }
    requires outs { All (λ (part : Module). All (λ k. k < length entries.now) part.outs) list.now }
    requires distinct { All (λ (part : Module). IsDistinct part.ins) list.now }
    requires few_outs { All (λ (part : Module). length part.outs ≤ 2 ^ 21) list.now }
    requires few { length list.now < 2 ^ 32 }
    ensures { IfOk result (λ fans. fans.items ≡ fans_of table.now entries.now list.now) }
{
    let users = users_of(alloc, list, entries.len())?;
    let mut fans = Vec::new(alloc);
    for (number, part) in list.iter().enumerate() {
        let outs = part.outs.as_slice();
        let mut own = fans_from(alloc, table, entries, &users, number as u32, outs)?;
        fans.append(&mut own)?;
    }
    Ok(fans)
}
