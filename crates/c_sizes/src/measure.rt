//! What sizes are counted by: the program, the functions that stand before the one that is counted, and the costs of operators.

ghost use Rattle.std.specs.Prelude.{◌≡◌, ◌*◌, ◌&&◌, not, false, map, get_or, slice_get};
ghost use Rattle.c_meaning.specs.declared.types.CType.{out-CType};
ghost use Rattle.c_meaning.specs.Types.{kind_of};
ghost use Rattle.c_meaning.specs.Sizes as sizes;
ghost use Rattle.c_meaning.specs.SizeFolds as folds;
ghost use Rattle.c_sizes.specs.Totals.{totals_of};
ghost use Rattle.c_sizes.specs.Views.{measure_as, kinds_as, IsKept, moved_to};

use crate::totals::{Totals, gates_alone, nothing, plus, saturate};
use c_meaning::{
    ArithmeticOperator, ArithmeticSign, CType, Comparison, IntegerOperation, Object, Operation,
    TypedParts, ValueKind,
};
use hy_bits::{Op, Scalar, Width};
use sqlite_items::at;
use std::alloc::Global;

/// What the parts of a function are counted by: the program, its pointers, tables of the parameters of `mpc_main` and of the objects
/// that its body assigns to, and the sizes of the functions that stand before.
#[derive(Clone, Copy)]
pub struct Around<'a> {
    pub alloc: Global,
    pub program: &'a TypedParts,
    pub pointers: u64,
    pub params: &'a [bool],
    pub assigned: &'a [bool],
    pub before: &'a [Totals],
}

/// The size of an expression, whether it is built from constants and counters, and whether it points to the first element of a
/// fixed array.
#[derive(Clone, Copy, Debug, PartialEq, Eq)]
pub struct Measured {
    pub total: Totals,
    pub is_number: bool,
    pub is_row: bool,
}

/// The object that an lvalue names, if it is a name, whether it is a fixed place, and its size.
#[derive(Clone, Copy, Debug, PartialEq, Eq)]
pub struct Located {
    pub named: Option<u32>,
    pub is_fixed: bool,
    pub total: Totals,
}

// ---- costs that the program's cells and pointers tell

/// The cost of an access.
#[tactic(auto, unfolding(crate::specs::Totals::totals_of, crate::specs::Views::measure_as))]
pub fn access(m: &Around) -> Totals
    ensures { result ≡ totals_of (sizes.access (measure_as m.now)) }
{
    let cells = u64::from(m.program.cells) + 1;
    Totals {
        visits: 0,
        nodes: 64 * cells,
        gates: 8192 * cells,
    }
}

/// The cost of a comparison of pointers, besides that of an access.
#[tactic(auto, unfolding(crate::specs::Totals::totals_of, crate::specs::Views::measure_as))]
fn pointer_comparison(m: &Around) -> Totals
    ensures { result ≡ totals_of (sizes.pointer_comparison (measure_as m.now)) }
{
    Totals {
        visits: 0,
        nodes: 0,
        gates: 65536 * (u64::from(m.program.cells) + 1),
    }
}

/// A product that stands still at 2^63.
fn product(a: u64, b: u64) -> u64
    ensures { result ≡ folds.saturated (a * b) }
{
    saturate(a.saturating_mul(b))
}

/// The cost of a visit of an `if` or a `switch`, of a turn or of a call.
#[tactic(auto, unfolding(crate::specs::Totals::totals_of, crate::specs::Views::measure_as))]
pub fn branch(m: &Around) -> Totals
    requires { IsKept m.now }
    ensures { result ≡ totals_of (sizes.branch (measure_as m.now)) }
{
    let cells = u64::from(m.program.cells) + 1;
    Totals {
        visits: 0,
        nodes: product(16 * cells, m.pointers + 1),
        gates: product(64 * cells, m.pointers + 8),
    }
}

/// The cost of a program's start.
#[tactic(auto, unfolding(crate::specs::Totals::totals_of, crate::specs::Views::measure_as))]
pub fn program_start(m: &Around) -> Totals
    ensures { result ≡ totals_of (sizes.program_start (measure_as m.now)) }
{
    let cells = u64::from(m.program.cells) + 1;
    Totals {
        visits: 0,
        nodes: 16 * cells,
        gates: 512 * cells,
    }
}

/// The cost of a value that is moved as a whole.
pub fn moved_size(m: &Around, kind: ValueKind) -> Totals
    ensures { result ≡ totals_of (sizes.moved_size (measure_as m.now) kind) }
{
    match kind {
        ValueKind::Void => nothing(),
        ValueKind::Integer(_) => nothing(),
        ValueKind::Pointer => access(m),
        ValueKind::Struct(_) => access(m),
    }
}

// ---- objects

/// The kind of a value of a type.
pub fn kind_of(ctype: &CType) -> ValueKind
    ensures { result ≡ kind_of ctype.now }
{
    match ctype {
        CType::Void => ValueKind::Void,
        CType::Int(scalar) => ValueKind::Integer(*scalar),
        CType::Array(..) => ValueKind::Void,
        CType::Struct(number) => ValueKind::Struct(*number),
        CType::Pointer(..) => ValueKind::Pointer,
    }
}

/// The kind of the values of an object, by its number.
pub fn kind_in(objects: &[Object], object: u32) -> ValueKind
    ensures { result ≡ folds.kinds_in objects.now object }
{
    match at(objects, object as usize) {
        Some(object) => kind_of(&object.ctype),
        None => ValueKind::Void,
    }
}

/// Whether values of the kind are pointers.
pub fn is_pointer(kind: ValueKind) -> bool
    ensures { result ≡ folds.is_pointer kind }
{
    match kind {
        ValueKind::Pointer => true,
        ValueKind::Void => false,
        ValueKind::Integer(_) => false,
        ValueKind::Struct(_) => false,
    }
}

/// Whether a type is that of an array.
fn is_array_type(ctype: &CType) -> bool
    ensures { result ≡ folds.layer_is_array (out-CType ctype.now) }
{
    match ctype {
        CType::Array(..) => true,
        CType::Void => false,
        CType::Int(_) => false,
        CType::Struct(_) => false,
        CType::Pointer(..) => false,
    }
}

/// Whether the object of the number is an array.
fn is_array_in(objects: &[Object], object: u32) -> bool
    ensures { result ≡ folds.is_array_in (slice_get objects.now object) }
{
    match at(objects, object as usize) {
        Some(object) => is_array_type(&object.ctype),
        None => false,
    }
}

/// Whether the object of the number is an array.
#[tactic(auto, unfolding(crate::specs::Views::measure_as))]
pub fn is_array(m: &Around, object: u32) -> bool
    ensures { result ≡ (measure_as m.now).is_array object }
{
    is_array_in(m.program.objects.as_slice(), object)
}

/// Whether a table has a number marked.
fn is_marked(marks: &[bool], object: u32) -> bool
    ensures { result ≡ get_or marks.now object false }
{
    let number = object as usize;
    if number < marks.len() {
        marks[number]
    } else {
        false
    }
}

/// Whether a pointer is a parameter to which nothing is assigned.
fn is_fixed_pointer(is_pointer: bool, is_param: bool, is_assigned: bool) -> bool
    ensures { result ≡ (is_pointer && is_param && not is_assigned) }
{
    is_pointer && is_param && !is_assigned
}

/// Whether the object of the number is a parameter of `mpc_main` that always points to the first element of its array.
pub fn is_steady(m: &Around, object: u32) -> bool
    requires { IsKept m.now }
    ensures { result ≡ (measure_as m.now).is_steady object }
{
    let kind = kind_in(m.program.objects.as_slice(), object);
    let is_param = is_marked(m.params, object);
    let is_assigned = is_marked(m.assigned, object);
    is_fixed_pointer(is_pointer(kind), is_param, is_assigned)
}

/// The cost of an initialization of the object of the number.
#[tactic(auto, unfolding(crate::specs::Views::kinds_as))]
pub fn whole_size(m: &Around, object: u32) -> Totals
    ensures { result ≡ totals_of (folds.whole_size (measure_as m.now) ((measure_as m.now).is_array object) (kinds_as m.now object)) }
{
    if is_array(m, object) {
        access(m)
    } else {
        moved_size(m, kind_in(m.program.objects.as_slice(), object))
    }
}

// ---- integer operators, at the width that their operands are converted to

fn arithmetic_gates(operator: ArithmeticOperator, width: Width) -> u32
    ensures { result ≡ sizes.arithmetic_gates operator width }
{
    let op = match operator {
        ArithmeticOperator::Multiply => Op::Mul,
        ArithmeticOperator::Divide => Op::DivU,
        ArithmeticOperator::Remainder => Op::RemU,
        ArithmeticOperator::Add => Op::Add,
        ArithmeticOperator::Subtract => Op::Sub,
        ArithmeticOperator::And => Op::And,
        ArithmeticOperator::Xor => Op::Xor,
        ArithmeticOperator::Or => Op::Or,
    };
    op.size(width, width, width)
}

/// The gates of an operation on two integers.
pub fn integer_gates(operation: IntegerOperation) -> u32
    ensures { result ≡ sizes.integer_gates operation }
{
    match operation {
        IntegerOperation::Arithmetic(operator, scalar) => arithmetic_gates(
            operator,
            scalar.width(),
        ),
        IntegerOperation::Shift { scalar, count, .. } => {
            Op::Shl.size(scalar.width(), scalar.width(), count.width())
        }
    }
}

fn comparison_gates(comparison: Comparison, width: Width) -> u32
    ensures { result ≡ sizes.comparison_gates comparison width }
{
    match comparison {
        Comparison::Less => Op::LtU.size(Width::W1, width, width),
        Comparison::Greater => Op::LtU.size(Width::W1, width, width),
        Comparison::LessOrEqual => Op::LtU.size(Width::W1, width, width),
        Comparison::GreaterOrEqual => Op::LtU.size(Width::W1, width, width),
        Comparison::Equal => Op::Eq.size(Width::W1, width, width),
        Comparison::Unequal => Op::Eq.size(Width::W1, width, width),
    }
}

/// The cost of a binary operator.
#[tactic(auto, using(crate::proofs::Saturation::joined_totals))]
pub fn operation_cost(m: &Around, operation: Operation) -> Totals
    ensures { result ≡ totals_of (sizes.operation_cost (measure_as m.now) operation) }
{
    match operation {
        Operation::Integer(operation) => gates_alone(integer_gates(operation)),
        Operation::Comparison(comparison, scalar) => {
            gates_alone(comparison_gates(comparison, scalar.width()))
        }
        Operation::Offset { .. } => access(m),
        Operation::OffsetOnLeft(_) => access(m),
        Operation::Pointers(_) => plus(access(m), pointer_comparison(m)),
    }
}

/// The gates of a unary operator.
pub fn sign_gates(operator: ArithmeticSign, width: Width) -> u32
    ensures { result ≡ sizes.sign_gates operator width }
{
    match operator {
        ArithmeticSign::Plus => 0,
        ArithmeticSign::Minus => Op::Neg.size(width, width, width),
        ArithmeticSign::Complement => Op::Not.size(width, width, width),
    }
}

/// The type that a small one is promoted to (C11 6.3.1.1).
fn promoted(scalar: Scalar) -> Scalar
    ensures { result ≡ sizes.promoted scalar }
{
    match scalar {
        Scalar::U32 => Scalar::U32,
        Scalar::S64 => Scalar::S64,
        Scalar::U64 => Scalar::U64,
        Scalar::B1 => Scalar::S32,
        Scalar::S8 => Scalar::S32,
        Scalar::U8 => Scalar::S32,
        Scalar::S16 => Scalar::S32,
        Scalar::U16 => Scalar::S32,
        Scalar::S32 => Scalar::S32,
    }
}

/// The cost of `!` on a value of the kind.
pub fn not_cost(kind: ValueKind) -> Totals
    ensures { result ≡ totals_of (sizes.not_cost kind) }
{
    match kind {
        ValueKind::Integer(scalar) => {
            gates_alone(comparison_gates(Comparison::Equal, promoted(scalar).width()))
        }
        ValueKind::Void => nothing(),
        ValueKind::Pointer => nothing(),
        ValueKind::Struct(_) => nothing(),
    }
}

// ---- functions

/// The size of the function of the number, which stands before.
pub fn function_size(m: &Around, function: u32) -> Totals
    requires { IsKept m.now }
    ensures { result ≡ totals_of (sizes.function_at (measure_as m.now) function).size }
{
    let number = function as usize;
    if number < m.before.len() {
        m.before[number]
    } else {
        nothing()
    }
}

/// The objects that are the parameters of the function of the number, which stands before.
pub fn parameters<'a>(m: &Around<'a>, function: u32) -> &'a [u32]
    requires { IsKept m.now }
    ensures { map (kinds_as m.now) result.now ≡ (sizes.function_at (measure_as m.now) function).parameters }
{
    let number = function as usize;
    if number < m.before.len() {
        m.program.functions.as_slice()[number].params.as_slice()
    } else {
        &[]
    }
}

/// What it costs to move an argument to the parameter at the place in a list.
#[tactic(auto, unfolding(crate::specs::Views::kinds_as))]
pub fn whole_parameter(m: &Around, params: &[u32], number: usize) -> Totals
    ensures { result ≡ totals_of (moved_to (measure_as m.now) (map (kinds_as m.now) params.now) number) }
{
    if number < params.len() {
        moved_size(m, kind_in(m.program.objects.as_slice(), params[number]))
    } else {
        nothing()
    }
}
