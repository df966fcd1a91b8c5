//! Values with their types, and what they are to operators.

ghost use Rattle.std.specs.Prelude.{◌≡◌, IfOk};
ghost use Rattle.c_meaning.specs.declared.types.CType.{out-CType};
ghost use Rattle.c_meaning.specs.Operations as operations;
ghost use Rattle.c_typing.specs.Values as spec;

use c_constants::constant_word;
use c_conversions::{Operand, Pointees, cells, kind, same_type};
use c_meaning::{
    CType, Conversion, IntegerOperation, Lvalue, Operation, Qualifier, StructType, TypedExpr,
    ValueKind,
};
use hy_bits::{Memory, Scalar};
use sqlite_items::Boxed;
use std::alloc::Global;

/// An expression in a value's place, with its type.
#[derive(Drop)]
pub struct TypedValue {
    pub expr: TypedExpr,
    pub ctype: CType,
}

/// What an expression is: an lvalue, with the type of what it designates and its qualifier, or a value (C11 6.3.2.1).
#[derive(Drop)]
pub enum Typing {
    Designates {
        lvalue: Lvalue,
        ctype: CType,
        qualifier: Qualifier,
    },
    Gives(TypedValue),
}

/// The value of an expression: that of what an lvalue designates, an array as a pointer to its first element (C11 6.3.2.1).
///
/// # Errors
///
/// Memory ran out.
pub fn value(alloc: Global, structs: &[StructType], typing: Typing) -> Result<TypedValue, Memory>
    ensures { IfOk result (λ value. value ≡ spec.value_of structs.now typing) }
{
    match typing {
        Typing::Gives(value) => Ok(value),
        Typing::Designates {
            lvalue,
            ctype,
            qualifier,
        } => designated(Boxed::new(alloc, lvalue)?, structs, ctype, qualifier),
    }
}

/// The value of what an lvalue designates, of the type and the qualifier.
fn designated(
    from: Boxed<Lvalue>,
    structs: &[StructType],
    ctype: CType,
    qualifier: Qualifier,
) -> Result<TypedValue, Memory>
    ensures { IfOk result (λ value. value ≡ spec.layer_value structs.now from ctype qualifier (out-CType ctype)) }
{
    match ctype {
        CType::Array(length, element) => {
            let cells = cells(structs, element.get());
            let expr = TypedExpr::Decay {
                cells,
                length,
                from,
            };
            let ctype = CType::Pointer(qualifier, element);
            Ok(TypedValue { expr, ctype })
        }
        ctype => {
            let expr = TypedExpr::Load {
                kind: kind(&ctype),
                from,
            };
            Ok(TypedValue { expr, ctype })
        }
    }
}

/// What a value is to an operator. It takes time linear in the size of an integer's expression.
fn operand(value: &TypedValue) -> Operand
    ensures { result ≡ spec.operand_of value.now }
{
    match kind(&value.ctype) {
        ValueKind::Void => Operand::Void,
        ValueKind::Integer(scalar) => match constant_word(&value.expr) {
            Some(0) => Operand::NullConstant(scalar),
            _ => Operand::Integer(scalar),
        },
        ValueKind::Pointer => Operand::Pointer,
        ValueKind::Struct(number) => Operand::Struct(number),
    }
}

/// What a value is to an operator where no null pointer constant is wanted.
pub fn kind_operand(kind: ValueKind) -> Operand
    ensures { result ≡ spec.kind_operand kind }
{
    match kind {
        ValueKind::Void => Operand::Void,
        ValueKind::Integer(scalar) => Operand::Integer(scalar),
        ValueKind::Pointer => Operand::Pointer,
        ValueKind::Struct(number) => Operand::Struct(number),
    }
}

/// What a value is to an operator beside a value of the kind. It takes time linear in the size of an integer's expression beside a
/// pointer, and a fixed time elsewhere.
pub fn operand_beside(beside: ValueKind, value: &TypedValue) -> Operand
    ensures { result ≡ spec.operand_beside beside value.now }
{
    match beside {
        ValueKind::Pointer => operand(value),
        _ => kind_operand(kind(&value.ctype)),
    }
}

/// An expression with its conversion, if there is one.
///
/// # Errors
///
/// Memory ran out.
pub fn converted(
    alloc: Global,
    conversion: Option<Conversion>,
    expr: TypedExpr,
) -> Result<TypedExpr, Memory>
    ensures { IfOk result (λ converted. converted ≡ spec.converted conversion expr) }
{
    match conversion {
        None => Ok(expr),
        Some(conversion) => Ok(TypedExpr::Converted {
            conversion,
            operand: Boxed::new(alloc, expr)?,
        }),
    }
}

/// Whether two pointers may be compared, or stand as the second and the third operand of `?:`: they point to one type.
pub fn pointees(left: &CType, right: &CType) -> Pointees
    ensures { result ≡ spec.pointees left.now right.now }
{
    match (left, right) {
        (CType::Pointer(_, to), CType::Pointer(_, of)) => compatible_if(same_type(
            to.get(),
            of.get(),
        )),
        _ => Pointees::Incompatible,
    }
}

fn compatible_if(same: bool) -> Pointees
    ensures { result ≡ spec.compatible_if same }
{
    if same {
        Pointees::Compatible
    } else {
        Pointees::Incompatible
    }
}

/// Whether an object of the type `target` may hold a pointer of the type `value`: they point to one type, and no `const` of what is
/// pointed to is lost.
pub fn admits(target: &CType, value: &CType) -> Pointees
    ensures { result ≡ spec.admits target.now value.now }
{
    match (target, value) {
        (CType::Pointer(Qualifier::Unqualified, _), CType::Pointer(Qualifier::Const, _)) => {
            Pointees::Incompatible
        }
        (CType::Pointer(_, to), CType::Pointer(_, of)) => compatible_if(same_type(
            to.get(),
            of.get(),
        )),
        _ => Pointees::Incompatible,
    }
}

/// The type of an integer.
pub fn scalar(ctype: &CType) -> Option<Scalar>
    ensures { result ≡ spec.scalar_of ctype.now }
{
    match ctype {
        CType::Int(scalar) => Some(*scalar),
        _ => None,
    }
}

/// The type of what an operation on integers gives: that of its left operand.
fn left_type(operation: IntegerOperation) -> Scalar
    ensures { result ≡ operations.left_type operation }
{
    match operation {
        IntegerOperation::Arithmetic(_, scalar) => scalar,
        IntegerOperation::Shift { scalar, .. } => scalar,
    }
}

/// The type of what an operation gives on operands of these types.
pub fn combined_type(operation: Operation, left: CType, right: CType) -> CType
    ensures { result ≡ spec.combined_ctype operation left right }
{
    match operation {
        Operation::Integer(operation) => CType::Int(left_type(operation)),
        Operation::Comparison(_, _) | Operation::Pointers(_) => CType::Int(Scalar::S32),
        Operation::Offset { .. } => left,
        Operation::OffsetOnLeft(_) => right,
    }
}
