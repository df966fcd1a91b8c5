//! The owners of leaves.
ghost use Rattle.std.specs.Prelude.{◌≡◌, ◌++◌, length, min, replicate, IfOk, OnOk};
ghost use Rattle.hy_bits.specs.Ports.{owners};
ghost use Rattle.hy_bits.specs.Shape.{leaves};
ghost use Rattle.share_plan.specs.Leaves.{count_limit, field_leaves};

use hy_bits::{Field, Memory, Port, Role, Shape};
use sqlite_items::Items;
use std::alloc::Global;

/// No more leaves than these are counted.
const COUNT_LIMIT: u64 = 1 << 31;

/// How many leaves a shape has, as far as they are counted. It calls itself as deep as the shape.
#[cycle(counts)]
fn leaf_count(shape: &Shape) -> u64
    ensures { result ≡ min (length (leaves shape.now)) count_limit }
{
    match shape {
        Shape::Scalar(_) => 1,
        Shape::Array(count, element) => {
            let each = leaf_count(element.get());
            (u64::from(*count) * each).min(COUNT_LIMIT)
        }
        Shape::Struct(fields) => field_count(fields),
    }
}

/// How many leaves fields have, as far as they are counted.
#[cycle(counts)]
fn field_count(fields: &Items<Field>) -> u64
    ensures { result ≡ min (length (field_leaves fields.now)) count_limit }
{
    let mut total = 0;
    for field in fields.as_slice() {
        total = (total + leaf_count(&field.shape)).min(COUNT_LIMIT);
    }
    total
}

/// Puts the owner of so many leaves after the others.
fn add_owner(owners: &mut Vec<Role>, role: Role, count: u64) -> Result<(), Memory>
    ensures { OnOk result (owners.new.items ≡ owners.old.items ++ replicate count role) }
{
    for _ in 0..count {
        owners.push(role)?;
    }
    Ok(())
}

/// Puts the owner of each leaf of a port after the others.
fn add_owners(owners: &mut Vec<Role>, port: &Port) -> Result<(), Memory>
    ensures { OnOk result (owners.new.items ≡ owners.old.items ++ replicate (length (leaves port.now.shape)) port.now.role) }
{
    let count = leaf_count(&port.shape);
    if count < COUNT_LIMIT {
        add_owner(owners, port.role, count)
    } else {
        Err(Memory)
    }
}

/// The owner of each leaf of the ports, in order.
///
/// # Errors
///
/// Memory ran out, or so many leaves would take more than there is.
pub fn owners_of(alloc: Global, ports: &[Port]) -> Result<Vec<Role>, Memory>
    ensures { IfOk result (λ o. o.items ≡ owners ports.now) }
{
    let mut owners = Vec::new(alloc);
    for port in ports {
        add_owners(&mut owners, port)?;
    }
    Ok(owners)
}
