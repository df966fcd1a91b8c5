//! Carries by look-ahead: the prefix adder, which is a tree of parallel prefixes by halves (Sklansky), and a tree for the last carry alone.
ghost use Rattle.std.specs.Prelude.{◌≡◌, ℕ, ◌+◌, ◌-◌, ◌*◌, ◌^◌, ◌≤◌, ◌<◌, Bool, List, ◌∷◌, ◌&&◌, length, map, take, IfOk, IfErr};
ghost use Rattle.std.specs.List.{All};
ghost use Rattle.hy_bits.specs.Bits.{xor, next_carry, sum_bit, sum_bits, carry_out, bitwise, bitwise_three};
ghost use Rattle.hy_bits.specs.Sizes.{adder_size};
ghost use Rattle.gate_net.specs.Circuit.{Stands};
ghost use Rattle.gate_net.specs.Meaning.{value, level};
ghost use Rattle.gate_net.specs.Growth.{Grows, StopsWithin};
ghost use Rattle.gate_net.specs.Spelled.{values, AllStand, AllWithin};
ghost use Rattle.adder_blocks.specs.Cells.{CellStands, CellWithin, carried, carries, carries_out, carry_after};

use crate::adder::majority;
use gate_net::{GateFault, Lit, Net};
use std::alloc::{AllocFailed, Global};

/// What a place of a sum, or several places one after another, make of the carry `c` into them:
/// `generate ^ (propagate & c)`.
#[derive(Clone, Copy)]
pub(crate) struct Cell {
    pub(crate) generate: Lit,
    pub(crate) propagate: Lit,
}

/// The places of `low` and then those of `high`.
fn compose(net: &mut Net, high: Cell, low: Cell) -> Result<Cell, GateFault>
    requires first { CellStands net.old high }
    requires second { CellStands net.old low }
    ensures stands { IfOk result (CellStands net.new) }
    ensures value { IfOk result (λ r. (bits : List Bool) (c : Bool) → carried net.new bits c r ≡ carried net.old bits (carried net.old bits c low) high) }
    ensures level { IfOk result (λ r. (p : ℕ) → CellWithin net.old p high → CellWithin net.old p low → CellWithin net.new (p + 1) r) }
    ensures grows { Grows net.old net.new 3 2 }
    ensures stops { IfErr result (StopsWithin net.old net.new 3) }
{
    let taken = net.and(high.propagate, low.generate)?;
    let generate = net.xor(high.generate, taken)?;
    let propagate = net.and(high.propagate, low.propagate)?;
    Ok(Cell {
        generate,
        propagate,
    })
}

/// Each of the cells after `low`.
fn after(alloc: Global, net: &mut Net, cells: &[Cell], low: Cell) -> Result<Vec<Cell>, GateFault>
    requires first { All (CellStands net.old) cells.now }
    requires second { CellStands net.old low }
    ensures stands { IfOk result (λ r. All (CellStands net.new) r.items) }
    ensures value { IfOk result (λ r. (bits : List Bool) (c : Bool) → map (carried net.new bits c) r.items ≡ map (carried net.old bits (carried net.old bits c low)) cells.now) }
    ensures level { IfOk result (λ r. (p : ℕ) → All (CellWithin net.old p) cells.now → CellWithin net.old p low → All (CellWithin net.new (p + 1)) r.items) }
    ensures grows { Grows net.old net.new (3 * length cells.now) (2 * length cells.now) }
    ensures stops { IfErr result (StopsWithin net.old net.new (3 * length cells.now)) }
{
    let mut out = Vec::new(alloc);
    for cell in cells {
        let both = compose(net, *cell, low)?;
        out.push(both)?;
    }
    Ok(out)
}

/// The cells of the places 0 to k, for each k: a tree by halves.
fn prefixes(alloc: Global, net: &mut Net, cells: &[Cell]) -> Result<Vec<Cell>, GateFault>
    requires { All (CellStands net.old) cells.now }
    ensures stands { IfOk result (λ r. All (CellStands net.new) r.items) }
    ensures same { IfOk result (λ r. length r.items ≡ length cells.now) }
    ensures value { IfOk result (λ r. (bits : List Bool) (c : Bool) → map (carried net.new bits c) r.items ≡ carries net.old bits cells.now c) }
    ensures level { IfOk result (λ r. (p k : ℕ) → length cells.now ≤ 2 ^ k → All (CellWithin net.old p) cells.now → All (CellWithin net.new (p + k)) r.items) }
    ensures grows { (k : ℕ) → length cells.now ≤ 2 ^ k → Grows net.old net.new (3 * (length cells.now * k)) (2 * (length cells.now * k)) }
    ensures stops { IfErr result (λ e. (k : ℕ) → length cells.now ≤ 2 ^ k → StopsWithin net.old net.new (3 * (length cells.now * k)) e) }
{
    if cells.len() <= 1 {
        let all = cells.to_vec(alloc)?;
        return Ok(all);
    }
    let (low, high) = cells.split_at(cells.len() - cells.len() / 2);
    let mut done = prefixes(alloc, net, low)?;
    let rest = prefixes(alloc, net, high)?;
    let last = done[done.len() - 1];
    let more = after(alloc, net, &rest, last)?;
    done.extend_from_slice(&more)?;
    Ok(done)
}

/// The cells of the places of `a + b`.
fn places(alloc: Global, net: &mut Net, a: &[Lit], b: &[Lit]) -> Result<Vec<Cell>, GateFault>
    requires first { AllStand net.old a.now }
    requires second { AllStand net.old b.now }
    requires same_length { length a.now ≡ length b.now }
    ensures stands { IfOk result (λ r. All (CellStands net.new) r.items) }
    ensures same { IfOk result (λ r. length r.items ≡ length a.now) }
    ensures value { IfOk result (λ r. (bits : List Bool) (s : Bool) → map (carried net.new bits s) r.items ≡ bitwise (λ x y. next_carry x y s) (values net.old bits a.now) (values net.old bits b.now)) }
    ensures level { IfOk result (λ r. (d : ℕ) → AllWithin net.old d a.now → AllWithin net.old d b.now → All (CellWithin net.new d) r.items) }
    ensures grows { Grows net.old net.new (2 * length a.now) (length a.now) }
    ensures stops { IfErr result (StopsWithin net.old net.new (2 * length a.now)) }
{
    let mut out = Vec::new(alloc);
    for place in 0..a.len() {
        let propagate = net.xor(a[place], b[place])?;
        let generate = net.and(a[place], b[place])?;
        out.push(Cell {
            generate,
            propagate,
        })?;
    }
    Ok(out)
}

/// The cell of the lowest place of `a + b`, with the carry `start` into it: it makes the carry into the next place, whatever comes in,
/// so that cells after it cost one AND each.
fn first_place(net: &mut Net, a: Lit, b: Lit, start: Lit) -> Result<Cell, GateFault>
    requires first { Stands net.old a }
    requires second { Stands net.old b }
    requires carry { Stands net.old start }
    ensures stands { IfOk result (CellStands net.new) }
    ensures value { IfOk result (λ r. (bits : List Bool) (c : Bool) → carried net.new bits c r ≡ next_carry (value net.old bits a) (value net.old bits b) (value net.old bits start)) }
    ensures level { IfOk result (λ r. (d : ℕ) → level net.old a ≤ d → level net.old b ≤ d → level net.old start ≤ d → CellWithin net.new d r) }
    ensures grows { Grows net.old net.new 4 1 }
    ensures stops { IfErr result (StopsWithin net.old net.new 4) }
{
    let generate = majority(net, a, b, start)?;
    Ok(Cell {
        generate,
        propagate: Lit::FALSE,
    })
}

/// The cells of the places of `a + b`, with the carry `start` into the lowest one: whatever comes in, they make the sum's carries.
fn cells(
    alloc: Global,
    net: &mut Net,
    a: &[Lit],
    b: &[Lit],
    start: Lit,
) -> Result<Vec<Cell>, GateFault>
    requires first { AllStand net.old a.now }
    requires second { AllStand net.old b.now }
    requires carry { Stands net.old start }
    requires same_length { length a.now ≡ length b.now }
    ensures stands { IfOk result (λ r. All (CellStands net.new) r.items) }
    ensures same { IfOk result (λ r. length r.items ≡ length a.now) }
    ensures value { IfOk result (λ r. (bits : List Bool) (c : Bool) → carries net.new bits r.items c ≡ carries_out (value net.old bits start) (values net.old bits a.now) (values net.old bits b.now)) }
    ensures level { IfOk result (λ r. (d : ℕ) → AllWithin net.old d a.now → AllWithin net.old d b.now → level net.old start ≤ d → All (CellWithin net.new d) r.items) }
    ensures grows { Grows net.old net.new (4 * length a.now) (length a.now) }
    ensures stops { IfErr result (StopsWithin net.old net.new (4 * length a.now)) }
{
    let mut cells = Vec::new(alloc);
    if a.is_empty() {
        return Ok(cells);
    }
    let first = first_place(net, a[0], b[0], start)?;
    let rest = places(alloc, net, &a[1..], &b[1..])?;
    cells.push(first)?;
    cells.extend_from_slice(&rest)?;
    Ok(cells)
}

/// The carry `start`, and then what each of the cells makes where no carry comes in.
fn carries_of(alloc: Global, start: Lit, cells: &[Cell]) -> Result<Vec<Lit>, AllocFailed<Lit>>
    ensures { IfOk result (λ r. r.items ≡ start ∷ map (λ x. x.generate) cells.now) }
{
    let mut out = Vec::new(alloc);
    out.push(start)?;
    for cell in cells {
        out.push(cell.generate)?;
    }
    Ok(out)
}

/// All of the cells, one after another, as one: a tree by halves.
fn joined(net: &mut Net, cells: &[Cell]) -> Result<Cell, GateFault>
    requires stand { All (CellStands net.old) cells.now }
    requires some { 0 < length cells.now }
    ensures stands { IfOk result (CellStands net.new) }
    ensures value { IfOk result (λ r. (bits : List Bool) (c : Bool) → carried net.new bits c r ≡ carry_after net.old bits cells.now c) }
    ensures level { IfOk result (λ r. (p k : ℕ) → length cells.now ≤ 2 ^ k → All (CellWithin net.old p) cells.now → CellWithin net.new (p + k) r) }
    ensures grows { Grows net.old net.new (3 * (length cells.now - 1)) (2 * (length cells.now - 1)) }
    ensures stops { IfErr result (StopsWithin net.old net.new (3 * (length cells.now - 1))) }
{
    if cells.len() == 1 {
        return Ok(cells[0]);
    }
    let (low, high) = cells.split_at(cells.len() - cells.len() / 2);
    let first = joined(net, low)?;
    let second = joined(net, high)?;
    let both = compose(net, second, first)?;
    Ok(both)
}

/// The sum bits of all places, whose carries stand in `into`.
fn sum_places(
    alloc: Global,
    net: &mut Net,
    a: &[Lit],
    b: &[Lit],
    into: &[Lit],
) -> Result<Vec<Lit>, GateFault>
    requires first { AllStand net.old a.now }
    requires second { AllStand net.old b.now }
    requires third { AllStand net.old into.now }
    requires same_second { length b.now ≡ length a.now }
    requires same_third { length into.now ≡ length a.now }
    ensures stands { IfOk result (λ r. AllStand net.new r.items) }
    ensures value { IfOk result (λ r. (bits : List Bool) → values net.new bits r.items ≡ bitwise_three sum_bit (values net.old bits a.now) (values net.old bits b.now) (values net.old bits into.now)) }
    ensures level { IfOk result (λ r. (d : ℕ) → AllWithin net.old d a.now → AllWithin net.old d b.now → AllWithin net.old d into.now → AllWithin net.new d r.items) }
    ensures grows { Grows net.old net.new (2 * length a.now) 0 }
    ensures stops { IfErr result (StopsWithin net.old net.new (2 * length a.now)) }
{
    let mut out = Vec::new(alloc);
    for place in 0..a.len() {
        let differ = net.xor(a[place], b[place])?;
        let bit = net.xor(differ, into[place])?;
        out.push(bit)?;
    }
    Ok(out)
}

/// The bits of `a + b` and a carry into the lowest place, with the carries by look-ahead.
pub(crate) fn lookahead_sum(
    alloc: Global,
    net: &mut Net,
    a: &[Lit],
    b: &[Lit],
    start: Lit,
) -> Result<Vec<Lit>, GateFault>
    requires first { AllStand net.old a.now }
    requires second { AllStand net.old b.now }
    requires carry { Stands net.old start }
    requires same_length { length a.now ≡ length b.now }
    requires some { 0 < length a.now }
    ensures stands { IfOk result (λ r. AllStand net.new r.items) }
    ensures value { IfOk result (λ r. (bits : List Bool) → values net.new bits r.items ≡ sum_bits (value net.old bits start) (values net.old bits a.now) (values net.old bits b.now)) }
    ensures level { IfOk result (λ r. (d k : ℕ) → length a.now ≤ 2 ^ k → AllWithin net.old d a.now → AllWithin net.old d b.now → level net.old start ≤ d → AllWithin net.new (d + 1 + k) r.items) }
    ensures grows { (k : ℕ) → length a.now ≤ 2 ^ k → Grows net.old net.new (adder_size (length a.now) k) (adder_size (length a.now) k) }
    ensures stops { IfErr result (λ e. (k : ℕ) → length a.now ≤ 2 ^ k → StopsWithin net.old net.new (adder_size (length a.now) k) e) }
{
    let top = a.len() - 1;
    let cells = cells(alloc, net, &a[..top], &b[..top], start)?;
    let fronts = prefixes(alloc, net, &cells)?;
    let into = carries_of(alloc, start, &fronts)?;
    let out = sum_places(alloc, net, a, b, &into)?;
    Ok(out)
}

/// The carry out of the top of `a + b` and a carry into the lowest place, by look-ahead.
pub(crate) fn lookahead_carry(
    alloc: Global,
    net: &mut Net,
    a: &[Lit],
    b: &[Lit],
    start: Lit,
) -> Result<Lit, GateFault>
    requires first { AllStand net.old a.now }
    requires second { AllStand net.old b.now }
    requires carry { Stands net.old start }
    requires same_length { length a.now ≡ length b.now }
    requires some { 0 < length a.now }
    ensures stands { IfOk result (Stands net.new) }
    ensures value { IfOk result (λ r. (bits : List Bool) → value net.new bits r ≡ carry_out (value net.old bits start) (values net.old bits a.now) (values net.old bits b.now)) }
    ensures level { IfOk result (λ r. (d k : ℕ) → length a.now ≤ 2 ^ k → AllWithin net.old d a.now → AllWithin net.old d b.now → level net.old start ≤ d → level net.new r ≤ d + 1 + k) }
    ensures grows { (k : ℕ) → length a.now ≤ 2 ^ k → Grows net.old net.new (adder_size (length a.now) k) (adder_size (length a.now) k) }
    ensures stops { IfErr result (λ e. (k : ℕ) → length a.now ≤ 2 ^ k → StopsWithin net.old net.new (adder_size (length a.now) k) e) }
{
    let cells = cells(alloc, net, a, b, start)?;
    let whole = joined(net, &cells)?;
    Ok(whole.generate)
}
