//! The parameters of `mpc_main`, and where their words go.
ghost use Rattle.std.specs.Prelude.{◌≡◌, ◌++◌, map, slice_get, IfOk, IfErr};
ghost use Rattle.std.specs.List.{flat_map};
ghost use Rattle.word_graph.specs.declared.graph.GraphFault;
ghost use Rattle.c_meaning.specs.Programs as programs;
ghost use Rattle.c_meaning.specs.SizeFolds as folds;
ghost use Rattle.c_meaning.specs.Types as types;
ghost use Rattle.cell_widths.specs.Widths as spec_widths;
ghost use Rattle.place_start.specs.Starts as spec;

use c_meaning::{CType, Object, StructType, TypedParts};
use c_place::Place;
use cell_widths::widths_of;
use hy_bits::Width;
use sqlite_items::at;
use std::alloc::Global;
use word_graph::GraphFault;

/// Where the words of a parameter go: to the `cells` cells of the object `object`. That is the object `parameter`, or it is an array, and the
/// object `parameter` points to the first element of the place `points_to`.
#[derive(Clone, Copy, Debug, PartialEq, Eq)]
pub struct Argument {
    pub parameter: u32,
    pub object: u32,
    pub cells: u32,
    pub points_to: Option<Place>,
}

/// Whether it is the type of a pointer.
pub fn is_pointer(ctype: &CType) -> bool
    ensures { result ≡ folds.is_pointer (types.kind_of ctype.now) }
{
    match ctype {
        CType::Pointer(..) => true,
        CType::Void | CType::Int(_) | CType::Array(..) | CType::Struct(_) => false,
    }
}

/// The number of cells of a type, where it is below 2^32.
fn cells_of(structs: &[StructType], ctype: &CType) -> Result<u32, GraphFault>
    ensures cells { IfOk result (λ cells. cells ≡ types.cells_of (types.struct_cells structs.now) ctype.now) }
    ensures memory { IfErr result (λ e. e ≡ GraphFault.Memory) }
{
    match ctype {
        CType::Void => Ok(0),
        CType::Int(_) => Ok(1),
        CType::Array(count, element) => {
            let cells = cells_of(structs, element.get())?;
            count.checked_mul(cells).ok_or(GraphFault::Memory)
        }
        CType::Struct(number) => match structs.get(*number as usize) {
            Some(of) => Ok(of.cells),
            None => Ok(0),
        },
        CType::Pointer(..) => Ok(1),
    }
}

/// The elements of an array that is the object of this number.
fn elements_of(structs: &[StructType], number: u32, array: &CType) -> Result<Place, GraphFault>
    ensures place { IfOk result (λ place. place ≡ spec.place_in number (programs.row_of (types.struct_cells structs.now) array.now)) }
    ensures memory { IfErr result (λ e. e ≡ GraphFault.Memory) }
{
    let (length, size) = match array {
        CType::Array(count, element) => (*count, cells_of(structs, element.get())?),
        _ => (0, 0),
    };
    Ok(Place {
        object: number,
        first: 0,
        size,
        length,
    })
}

/// Where the words of a parameter go that is a pointer: to the array after it.
fn array_argument(
    structs: &[StructType],
    objects: &[Object],
    parameter: u32,
) -> Result<Argument, GraphFault>
    ensures argument { IfOk result (λ a. a ≡ spec.array_argument (types.struct_cells structs.now) objects.now parameter) }
    ensures memory { IfErr result (λ e. e ≡ GraphFault.Memory) }
{
    let number = parameter.checked_add(1).ok_or(GraphFault::Memory)?;
    match at(objects, number as usize) {
        Some(array) => Ok(Argument {
            parameter,
            object: number,
            cells: array.cells,
            points_to: Some(elements_of(structs, number, &array.ctype)?),
        }),
        None => Ok(Argument {
            parameter,
            object: number,
            cells: 0,
            points_to: None,
        }),
    }
}

/// Where the words of a parameter go.
fn argument_of(
    structs: &[StructType],
    objects: &[Object],
    parameter: u32,
) -> Result<Argument, GraphFault>
    ensures argument { IfOk result (λ a. a ≡ spec.argument_of (types.struct_cells structs.now) objects.now parameter) }
    ensures memory { IfErr result (λ e. e ≡ GraphFault.Memory) }
{
    match at(objects, parameter as usize) {
        Some(object) => {
            if is_pointer(&object.ctype) {
                array_argument(structs, objects, parameter)
            } else {
                Ok(Argument {
                    parameter,
                    object: parameter,
                    cells: object.cells,
                    points_to: None,
                })
            }
        }
        None => Ok(Argument {
            parameter,
            object: parameter,
            cells: 0,
            points_to: None,
        }),
    }
}

/// Where the words of all parameters go, in order.
pub fn arguments_of(
    alloc: Global,
    structs: &[StructType],
    objects: &[Object],
    params: &[u32],
) -> Result<Vec<Argument>, GraphFault>
    ensures arguments { IfOk result (λ made. made.items ≡ map (spec.argument_of (types.struct_cells structs.now) objects.now) params.now) }
    ensures memory { IfErr result (λ e. e ≡ GraphFault.Memory) }
{
    let mut made = Vec::with_capacity(alloc, params.len())?;
    for parameter in params {
        made.push(argument_of(structs, objects, *parameter)?)?;
    }
    Ok(made)
}

/// The numbers of the parameters of `mpc_main`.
pub fn params_of(parts: &TypedParts) -> &[u32]
    ensures { result.now ≡ spec.main_params parts.now }
{
    match at(parts.functions.as_slice(), parts.main_function as usize) {
        Some(main) => main.params.as_slice(),
        None => &[],
    }
}

/// The width of each cell of an object.
pub fn object_widths(
    alloc: Global,
    structs: &[StructType],
    object: &Object,
) -> Result<Vec<Width>, GraphFault>
    ensures widths { IfOk result (λ widths. widths.items ≡ spec_widths.widths_of structs.now object.now.ctype) }
    ensures memory { IfErr result (λ e. e ≡ GraphFault.Memory) }
{
    match widths_of(alloc, structs, &object.ctype) {
        Ok(widths) => Ok(widths),
        Err(_) => Err(GraphFault::Memory),
    }
}

/// The widths of the words of all parameters, in order.
pub fn argument_widths(
    alloc: Global,
    structs: &[StructType],
    objects: &[Object],
    arguments: &[Argument],
) -> Result<Vec<Width>, GraphFault>
    ensures widths { IfOk result (λ widths. widths.items ≡ flat_map (spec.words_widths structs.now objects.now) arguments.now) }
    ensures memory { IfErr result (λ e. e ≡ GraphFault.Memory) }
{
    let mut widths = Vec::new(alloc);
    for argument in arguments {
        if let Some(object) = at(objects, argument.object as usize) {
            widths.extend_from_slice(&object_widths(alloc, structs, object)?)?;
        }
    }
    Ok(widths)
}
