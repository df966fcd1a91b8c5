//! The addresses that functions take.

ghost use Rattle.std.specs.Prelude.{◌≡◌, OnOk, IfOk, map};
ghost use Rattle.c_addresses.specs.Scans.{in_turn};
ghost use Rattle.c_addresses.specs.Addresses as spec;

use crate::expressions::{scan_dimensions, scan_specs};
use crate::scan::Scanning;
use crate::statements::scan_block;
use c_tree::{Function, Parameter, Parameters};
use hy_bits::Memory;
use sqlite_items::Items;
use std::alloc::Global;

/// Scans a parameter.
fn scan_parameter(of: &Parameter, alloc: Global, scan: &mut Scanning) -> Result<(), Memory>
    ensures { OnOk result (scan.new ≡ spec.scans_parameter of.now scan.old) }
{
    scan_specs(&of.specs, alloc, scan)?;
    scan_dimensions(of.dimensions.as_slice(), alloc, scan)?;
    scan.declare(alloc, of.name.text.as_bytes())
}

/// Scans parameters.
fn scan_list(list: &[Parameter], alloc: Global, scan: &mut Scanning) -> Result<(), Memory>
    ensures { OnOk result (scan.new ≡ in_turn (map spec.scans_parameter list.now) scan.old) }
{
    for next in list {
        scan_parameter(next, alloc, scan)?;
    }
    Ok(())
}

/// Scans the parameters of a function.
fn scan_parameters(of: &Parameters, alloc: Global, scan: &mut Scanning) -> Result<(), Memory>
    ensures { OnOk result (scan.new ≡ spec.parameters_scan of.now scan.old) }
{
    match of {
        Parameters::List(list) => scan_list(list.as_slice(), alloc, scan),
        Parameters::Nothing | Parameters::Void(_) => Ok(()),
    }
}

/// For each name that a function declares, in the order of the text, parameters first: whether the function takes its address by that name. It
/// takes time linear in the function.
///
/// # Errors
///
/// Memory ran out.
pub fn addressed_in(alloc: Global, of: &Function) -> Result<Items<bool>, Memory>
    ensures { IfOk result (λ addressed. addressed ≡ spec.addressed_in of.now) }
{
    let mut scan = Scanning::new(alloc);
    scan_parameters(&of.parameters, alloc, &mut scan)?;
    scan_block(&of.body, alloc, &mut scan)?;
    let Scanning { addressed, .. } = scan;
    Ok(addressed)
}
