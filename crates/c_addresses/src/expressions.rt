//! The addresses that expressions and specifiers of types take.

ghost use Rattle.std.specs.Prelude.{◌≡◌, OnOk, map};
ghost use Rattle.std.specs.Option.{option_copied, option_map};
ghost use Rattle.c_addresses.specs.Scans.{in_turn};
ghost use Rattle.c_addresses.specs.Addresses as spec;

use crate::scan::Scanning;
use c_tree::{
    Dimension, Enumerator, Expr, Identifier, Operand, Specifiers, StructDeclaration,
    StructDeclarator, Suffix, TagSpecifier, TypeSpecifier, UnaryOperator,
};
use hy_bits::Memory;
use std::alloc::Global;

/// The name that an expression is, whatever brackets stand around it.
fn bare_name(expr: &Expr) -> Option<&Identifier>
    ensures { option_map (λ name. name.text) (option_copied result) ≡ (spec.scans_expr expr.now).name }
{
    match expr {
        Expr::Name(name) => Some(name),
        Expr::Parenthesized(_, inner) => bare_name(inner.get()),
        _ => None,
    }
}

/// Scans an expression.
#[cycle(scans)]
pub fn scan_expr(expr: &Expr, alloc: Global, scan: &mut Scanning) -> Result<(), Memory>
    ensures { OnOk result (scan.new ≡ spec.scan_of expr.now scan.old) }
{
    match expr {
        Expr::Name(_) | Expr::Literal(..) => Ok(()),
        Expr::Call { arguments, .. } => scan_exprs(arguments.as_slice(), alloc, scan),
        Expr::Parenthesized(_, inner) => scan_expr(inner.get(), alloc, scan),
        Expr::Postfix(first, suffixes) => {
            scan_expr(first.get(), alloc, scan)?;
            scan_suffixes(suffixes.as_slice(), alloc, scan)
        }
        Expr::Unary {
            operator,
            operand,
            ..
        } => {
            note_address(scan, *operator, operand.get());
            scan_expr(operand.get(), alloc, scan)
        }
        Expr::Cast { specs, operand, .. } => {
            scan_specs(specs.get(), alloc, scan)?;
            scan_expr(operand.get(), alloc, scan)
        }
        Expr::BinaryChain(first, operands) => {
            scan_expr(first.get(), alloc, scan)?;
            scan_operands(operands.as_slice(), alloc, scan)
        }
        Expr::Conditional {
            condition,
            second,
            third,
            ..
        } => {
            scan_expr(condition.get(), alloc, scan)?;
            scan_expr(second.get(), alloc, scan)?;
            scan_expr(third.get(), alloc, scan)
        }
    }
}

/// Notes the address that an operator takes, where its operand is a name.
fn note_address(scan: &mut Scanning, operator: UnaryOperator, operand: &Expr)
    ensures { scan.new ≡ spec.noted operator (spec.scans_expr operand.now).name scan.old }
{
    if let (UnaryOperator::Address, Some(name)) = (operator, bare_name(operand)) {
        scan.take(name.text.as_bytes());
    }
}

/// Scans expressions.
#[cycle(scans)]
fn scan_exprs(list: &[Expr], alloc: Global, scan: &mut Scanning) -> Result<(), Memory>
    ensures { OnOk result (scan.new ≡ spec.exprs_in_turn (map spec.scans_expr list.now) scan.old) }
{
    for next in list {
        scan_expr(next, alloc, scan)?;
    }
    Ok(())
}

/// Scans subscripts and members.
#[cycle(scans)]
fn scan_suffixes(list: &[Suffix], alloc: Global, scan: &mut Scanning) -> Result<(), Memory>
    ensures { OnOk result (scan.new ≡ in_turn (map spec.scans_suffix list.now) scan.old) }
{
    for next in list {
        scan_suffix(next, alloc, scan)?;
    }
    Ok(())
}

/// Scans a subscript or a member.
#[cycle(scans)]
fn scan_suffix(of: &Suffix, alloc: Global, scan: &mut Scanning) -> Result<(), Memory>
    ensures { OnOk result (scan.new ≡ spec.scans_suffix of.now scan.old) }
{
    match of {
        Suffix::Index(_, index) => scan_expr(index, alloc, scan),
        Suffix::Member(..) | Suffix::Arrow(..) => Ok(()),
    }
}

/// Scans operands.
#[cycle(scans)]
fn scan_operands(list: &[Operand], alloc: Global, scan: &mut Scanning) -> Result<(), Memory>
    ensures { OnOk result (scan.new ≡ in_turn (map spec.scans_operand list.now) scan.old) }
{
    for next in list {
        scan_operand(next, alloc, scan)?;
    }
    Ok(())
}

/// Scans an operand.
#[cycle(scans)]
fn scan_operand(of: &Operand, alloc: Global, scan: &mut Scanning) -> Result<(), Memory>
    ensures { OnOk result (scan.new ≡ spec.scans_operand of.now scan.old) }
{
    scan_expr(&of.value, alloc, scan)
}

/// Scans the specifiers of a type.
#[cycle(scans)]
pub fn scan_specs(specs: &Specifiers, alloc: Global, scan: &mut Scanning) -> Result<(), Memory>
    ensures { OnOk result (scan.new ≡ spec.scans_specs specs.now scan.old) }
{
    scan_spelling(&specs.kind, alloc, scan)
}

/// Scans what names a type.
#[cycle(scans)]
fn scan_spelling(kind: &TypeSpecifier, alloc: Global, scan: &mut Scanning) -> Result<(), Memory>
    ensures { OnOk result (scan.new ≡ spec.scans_spelling kind.now scan.old) }
{
    match kind {
        TypeSpecifier::TagSpecifier(tag) => scan_tag(tag, alloc, scan),
        TypeSpecifier::Words(..) | TypeSpecifier::TypeName(_) => Ok(()),
    }
}

/// Scans a struct or an enum.
#[cycle(scans)]
pub fn scan_tag(tag: &TagSpecifier, alloc: Global, scan: &mut Scanning) -> Result<(), Memory>
    ensures { OnOk result (scan.new ≡ spec.scans_tag tag.now scan.old) }
{
    match tag {
        TagSpecifier::Struct {
            members: Some(members),
            ..
        } => scan_members(members.as_slice(), alloc, scan),
        TagSpecifier::Enum {
            enumerators: Some(constants),
            ..
        } => scan_enumerators(constants.as_slice(), alloc, scan),
        TagSpecifier::Struct { .. } | TagSpecifier::Enum { .. } => Ok(()),
    }
}

/// Scans the members of a struct.
#[cycle(scans)]
fn scan_members(
    list: &[StructDeclaration],
    alloc: Global,
    scan: &mut Scanning,
) -> Result<(), Memory>
    ensures { OnOk result (scan.new ≡ in_turn (map spec.scans_member list.now) scan.old) }
{
    for next in list {
        scan_member(next, alloc, scan)?;
    }
    Ok(())
}

/// Scans members of one type.
#[cycle(scans)]
fn scan_member(of: &StructDeclaration, alloc: Global, scan: &mut Scanning) -> Result<(), Memory>
    ensures { OnOk result (scan.new ≡ spec.scans_member of.now scan.old) }
{
    scan_specs(&of.specs, alloc, scan)?;
    scan_declarators(of.names.as_slice(), alloc, scan)
}

/// Scans the names of members.
#[cycle(scans)]
fn scan_declarators(
    list: &[StructDeclarator],
    alloc: Global,
    scan: &mut Scanning,
) -> Result<(), Memory>
    ensures { OnOk result (scan.new ≡ in_turn (map spec.scans_declarator list.now) scan.old) }
{
    for next in list {
        scan_declarator(next, alloc, scan)?;
    }
    Ok(())
}

/// Scans the name of a member.
#[cycle(scans)]
fn scan_declarator(of: &StructDeclarator, alloc: Global, scan: &mut Scanning) -> Result<(), Memory>
    ensures { OnOk result (scan.new ≡ spec.scans_declarator of.now scan.old) }
{
    scan_dimensions(of.dimensions.as_slice(), alloc, scan)
}

/// Scans dimensions.
#[cycle(scans)]
pub fn scan_dimensions(list: &[Dimension], alloc: Global, scan: &mut Scanning) -> Result<(), Memory>
    ensures { OnOk result (scan.new ≡ in_turn (map spec.scans_dimension list.now) scan.old) }
{
    for next in list {
        scan_dimension(next, alloc, scan)?;
    }
    Ok(())
}

/// Scans a dimension.
#[cycle(scans)]
fn scan_dimension(of: &Dimension, alloc: Global, scan: &mut Scanning) -> Result<(), Memory>
    ensures { OnOk result (scan.new ≡ spec.scans_dimension of.now scan.old) }
{
    match &of.size {
        Some(size) => scan_expr(size, alloc, scan),
        None => Ok(()),
    }
}

/// Scans enumerators.
#[cycle(scans)]
fn scan_enumerators(list: &[Enumerator], alloc: Global, scan: &mut Scanning) -> Result<(), Memory>
    ensures { OnOk result (scan.new ≡ in_turn (map spec.scans_enumerator list.now) scan.old) }
{
    for next in list {
        scan_enumerator(next, alloc, scan)?;
    }
    Ok(())
}

/// Scans an enumerator.
#[cycle(scans)]
fn scan_enumerator(of: &Enumerator, alloc: Global, scan: &mut Scanning) -> Result<(), Memory>
    ensures { OnOk result (scan.new ≡ spec.scans_enumerator of.now scan.old) }
{
    if let Some(value) = &of.value {
        scan_expr(value, alloc, scan)?;
    }
    scan.declare(alloc, of.name.text.as_bytes())
}
