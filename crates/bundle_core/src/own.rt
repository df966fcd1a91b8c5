//! What each module costs by itself.
ghost use Rattle.std.specs.Prelude.{◌≡◌, ◌*◌, ◌^◌, ◌≤◌, ◌<◌, length, map, sum_by, IfOk};
ghost use Rattle.std.specs.List.{All};
ghost use Rattle.gate_net.specs.Meaning.{and_count};
ghost use Rattle.gate_net.specs.Shape.{gate_limit};
ghost use Rattle.bundle_core.specs.declared.parts.Variant.{Variant};
ghost use Rattle.bundle_core.specs.Parts.{ring_gate_limit, ring_size};
ghost use Rattle.bundle_core.specs.Costs.{IsSmall, boolean_cost, own_costs, ring_cost, yao_cost};

use crate::parts::Variant;
use choice_core::Table;
use gate_net::Net;
use hy_bits::{Memory, Width};
use ring_net::RingNet;
use std::alloc::Global;

/// The numbers of a row are below 2^32.
fn row_is_small(row: &[u32])
    ensures { All (λ n. n < 2 ^ 32) row.now }
{
    let _count = row.len();
}

/// A number is below 2^32.
fn number_is_small(number: u32)
    ensures { number < 2 ^ 32 }
{
    let _number = number;
}

/// The numbers of a table are below 2^32. It does nothing: callers cite what it ensures.
pub fn table_is_small(table: &Table)
    ensures { IsSmall table.now }
{
    // For the proof: what is handed to these is known to be in its type's range.
    row_is_small(&table.a_mul);
    row_is_small(&table.a2b);
    row_is_small(&table.a2y);
    row_is_small(&table.b2a);
    row_is_small(&table.b2y);
    row_is_small(&table.y2a);
    row_is_small(&table.y2b);
    number_is_small(table.b_and);
    number_is_small(table.b_level);
    number_is_small(table.y_and);
}

/// What so many things cost at a price each.
fn charge(count: u64, price: u32) -> u64
    requires { count ≤ 2 ^ 22 }
    ensures value { result ≡ count * price }
    ensures small { result < 2 ^ 54 }
{
    count * u64::from(price)
}

/// The cost at A: that of the products of two variables, by their width.
fn ring_cost(table: &Table, ring: &RingNet) -> u64
    requires { length ring.now.gates ≤ ring_gate_limit }
    ensures { result ≡ ring_cost table.now ring.now }
{
    let [w8, w16, w32, w64] = table.a_mul;
    charge(ring.products(Width::W8), w8)
        + charge(ring.products(Width::W16), w16)
        + charge(ring.products(Width::W32), w32)
        + charge(ring.products(Width::W64), w64)
}

/// The cost at Y: that of the And gates.
fn yao_cost(table: &Table, net: &Net) -> u64
    requires { length net.now.gates ≤ gate_limit }
    ensures { result ≡ yao_cost table.now net.now }
{
    charge(u64::from(net.ands()), table.y_and)
}

/// The cost at B: that of the And gates, and of those on the longest path.
fn boolean_cost(alloc: Global, table: &Table, net: &Net) -> Result<u64, Memory>
    requires { length net.now.gates ≤ gate_limit }
    ensures { IfOk result (λ cost. cost ≡ boolean_cost table.now net.now) }
{
    let depth = net.depth(alloc)?;
    let ands = charge(u64::from(net.ands()), table.b_and);
    Ok(ands + charge(u64::from(depth), table.b_level))
}

/// The costs of a module with these circuits, by its choices A, Y, C and S.
fn own_costs(alloc: Global, table: &Table, variant: &Variant) -> Result<[Option<u64>; 4], Memory>
    requires ring { ring_size variant.now.ring ≤ ring_gate_limit }
    requires compact { length variant.now.compact.gates ≤ gate_limit }
    requires shallow { length variant.now.shallow.gates ≤ gate_limit }
    ensures { IfOk result (λ row. row ≡ own_costs table.now variant.now) }
{
    let ring = match &variant.ring {
        Some(ring) => Some(ring_cost(table, ring)),
        None => None,
    };
    let yao = yao_cost(table, &variant.compact);
    let compact = boolean_cost(alloc, table, &variant.compact)?;
    let shallow = boolean_cost(alloc, table, &variant.shallow)?;
    Ok([ring, Some(yao), Some(compact), Some(shallow)])
}

/// The costs of all modules with these circuits.
pub fn rows_of(
    alloc: Global,
    table: &Table,
    variants: &[Variant],
) -> Result<Vec<[Option<u64>; 4]>, Memory>
    requires ring { sum_by (λ (variant : Variant). ring_size variant.ring) variants.now ≤ ring_gate_limit }
    requires compact { sum_by (λ (variant : Variant). length variant.compact.gates) variants.now ≤ gate_limit }
    requires shallow { sum_by (λ (variant : Variant). length variant.shallow.gates) variants.now ≤ gate_limit }
    ensures { IfOk result (λ rows. rows.items ≡ map (own_costs table.now) variants.now) }
{
    let mut rows = Vec::with_capacity(alloc, variants.len())?;
    for variant in variants {
        rows.push(own_costs(alloc, table, variant)?)?;
    }
    Ok(rows)
}
