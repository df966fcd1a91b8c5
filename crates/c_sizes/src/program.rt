//! The sizes of whole programs.

ghost use Rattle.std.specs.Prelude.{◌≡◌, ◌^◌, ◌<◌, [], IfOk, length};
ghost use Rattle.c_meaning.specs.Sizes as sizes;
ghost use Rattle.c_meaning.specs.SizeFolds as folds;
ghost use Rattle.c_sizes.specs.Totals.{totals_of};
ghost use Rattle.c_sizes.specs.Views.{declared_as, IsKept, IsTable, IsSized, main_of, params_of, assigned_of};

use crate::measure::{Around, function_size, is_pointer, kind_of, program_start};
use crate::statements::block_size;
use crate::totals::{Totals, plus, visit};
use c_meaning::{Object, TypedFunction, TypedParts};
use c_uses::{mark_assigned, mark_numbers};
use hy_bits::Memory;
use sqlite_items::at;
use std::alloc::Global;

/// The number of pointers among objects.
fn pointer_count(objects: &[Object]) -> u64
    ensures count { result ≡ folds.pointer_count objects.now }
    ensures few { result < 2 ^ 63 }
{
    let mut count = 0u64;
    for object in objects {
        if is_pointer(kind_of(&object.ctype)) {
            count += 1;
        }
    }
    count
}

/// A table of the parameters of `mpc_main`.
///
/// # Errors
///
/// Memory ran out.
fn params_table(alloc: Global, program: &TypedParts) -> Result<Vec<bool>, Memory>
    ensures { IfOk result (λ marks. IsTable program.now.objects marks.items (params_of (main_of program.now))) }
{
    let mut marks = vec![in alloc; false; program.objects.len()]?;
    if let Some(main) = at(program.functions.as_slice(), program.main_function as usize) {
        mark_numbers(main.params.as_slice(), marks.as_mut_slice());
    }
    Ok(marks)
}

/// A table of the objects that the body of `mpc_main` assigns to.
///
/// # Errors
///
/// Memory ran out.
fn assigned_table(alloc: Global, program: &TypedParts) -> Result<Vec<bool>, Memory>
    ensures { IfOk result (λ marks. IsTable program.now.objects marks.items (assigned_of (main_of program.now))) }
{
    let mut marks = vec![in alloc; false; program.objects.len()]?;
    if let Some(main) = at(program.functions.as_slice(), program.main_function as usize) {
        mark_assigned(&main.body, marks.as_mut_slice());
    }
    Ok(marks)
}

/// The size of a function.
///
/// # Errors
///
/// Memory ran out.
#[tactic(auto, using(crate::proofs::Saturation::joined_totals))]
fn function_total(m: &Around, function: &TypedFunction) -> Result<Totals, Memory>
    requires { IsKept m.now }
    ensures { IfOk result (λ total. total ≡ totals_of (sizes.plus sizes.visit (folds.size_of_block (declared_as m.now) function.now.body []))) }
{
    let body = block_size(m, &function.body, &[])?;
    Ok(plus(visit(), body))
}

/// The sizes of all functions, each by those that stand before it.
///
/// # Errors
///
/// Memory ran out.
fn function_totals(start: &Around) -> Result<Vec<Totals>, Memory>
    requires { IsKept start.now }
    ensures { IfOk result (λ all. IsSized start.now.program.now (length start.now.program.now.functions) all.items) }
{
    let functions = start.program.functions.as_slice();
    let mut all = Vec::with_capacity(start.alloc, functions.len())?;
    for function in functions {
        let m = Around {
            before: all.as_slice(),
            ..*start
        };
        let total = function_total(&m, function)?;
        all.push(total)?;
    }
    Ok(all)
}

/// The sizes of a program's runs together.
///
/// # Errors
///
/// Memory ran out.
fn whole_size(start: &Around) -> Result<Totals, Memory>
    requires kept { IsKept start.now }
    requires none { start.now.before.now ≡ [] }
    ensures { IfOk result (λ total. total ≡ totals_of (folds.program_size start.now.program.now)) }
{
    let all = function_totals(start)?;
    let whole = Around {
        before: all.as_slice(),
        ..*start
    };
    let main = function_size(&whole, start.program.main_function);
    Ok(plus(main, program_start(&whole)))
}

/// The sizes of a program's runs, whether or not it keeps the rules of types. The time is linear in the program, but that each name is
/// sought among the counters of the loops around it; the stack is as deep as the program is nested.
///
/// # Errors
///
/// Memory ran out.
#[tactic(auto, unfolding(crate::specs::Totals::totals_of))]
pub fn program_size(alloc: Global, program: &TypedParts) -> Result<Totals, Memory>
    ensures visits { IfOk result (λ total. total.visits ≡ folds.saturated (folds.program_size program.now).visits) }
    ensures nodes { IfOk result (λ total. total.nodes ≡ folds.saturated (folds.program_size program.now).nodes) }
    ensures gates { IfOk result (λ total. total.gates ≡ folds.saturated (folds.program_size program.now).gates) }
{
    let params = params_table(alloc, program)?;
    let assigned = assigned_table(alloc, program)?;
    let start = Around {
        alloc,
        program,
        pointers: pointer_count(program.objects.as_slice()),
        params: params.as_slice(),
        assigned: assigned.as_slice(),
        before: &[],
    };
    whole_size(&start)
}
