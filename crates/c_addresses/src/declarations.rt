//! The addresses that declarations and expression statements take.

ghost use Rattle.std.specs.Prelude.{◌≡◌, OnOk, map};
ghost use Rattle.c_addresses.specs.Scans.{in_turn};
ghost use Rattle.c_addresses.specs.Addresses as spec;

use crate::expressions::{scan_dimensions, scan_expr, scan_specs};
use crate::scan::Scanning;
use c_tree::{
    Declaration, Expr, ExpressionStatement, First, InitDeclarator, Initialization, Initializer,
    Label,
};
use hy_bits::Memory;
use std::alloc::Global;

/// Scans an initializer.
#[cycle(inits)]
fn scan_init(init: &Initializer, alloc: Global, scan: &mut Scanning) -> Result<(), Memory>
    ensures { OnOk result (scan.new ≡ spec.scans_init init.now scan.old) }
{
    match init {
        Initializer::Expression(value) => scan_expr(value, alloc, scan),
        Initializer::List { parts, .. } => scan_inits(parts.as_slice(), alloc, scan),
    }
}

/// Scans initializers in braces.
#[cycle(inits)]
fn scan_inits(list: &[Initializer], alloc: Global, scan: &mut Scanning) -> Result<(), Memory>
    ensures { OnOk result (scan.new ≡ in_turn (map spec.scans_init list.now) scan.old) }
{
    for next in list {
        scan_init(next, alloc, scan)?;
    }
    Ok(())
}

/// Scans the initializer of an object, if it has one.
fn scan_start(
    start: &Option<Initialization>,
    alloc: Global,
    scan: &mut Scanning,
) -> Result<(), Memory>
    ensures { OnOk result (scan.new ≡ spec.start_scan start.now scan.old) }
{
    match start {
        Some(start) => scan_init(&start.value, alloc, scan),
        None => Ok(()),
    }
}

/// Scans a declarator.
fn scan_declared(of: &InitDeclarator, alloc: Global, scan: &mut Scanning) -> Result<(), Memory>
    ensures { OnOk result (scan.new ≡ spec.scans_declared of.now scan.old) }
{
    scan_dimensions(of.dimensions.as_slice(), alloc, scan)?;
    scan.declare(alloc, of.name.text.as_bytes())?;
    scan_start(&of.start, alloc, scan)
}

/// Scans declarators.
fn scan_declarators(
    list: &[InitDeclarator],
    alloc: Global,
    scan: &mut Scanning,
) -> Result<(), Memory>
    ensures { OnOk result (scan.new ≡ in_turn (map spec.scans_declared list.now) scan.old) }
{
    for next in list {
        scan_declared(next, alloc, scan)?;
    }
    Ok(())
}

/// Scans a declaration of objects.
pub fn scan_declaration(of: &Declaration, alloc: Global, scan: &mut Scanning) -> Result<(), Memory>
    ensures { OnOk result (scan.new ≡ spec.scans_declaration of.now scan.old) }
{
    scan_specs(&of.specs, alloc, scan)?;
    scan_declarators(of.declarators.as_slice(), alloc, scan)
}

/// Scans the expression of an expression statement.
pub fn scan_simple(
    of: &ExpressionStatement,
    alloc: Global,
    scan: &mut Scanning,
) -> Result<(), Memory>
    ensures { OnOk result (scan.new ≡ spec.scans_simple of.now scan.old) }
{
    match of {
        ExpressionStatement::Assignment { target, value, .. } => {
            scan_expr(target, alloc, scan)?;
            scan_expr(value, alloc, scan)
        }
        ExpressionStatement::PostfixStep { operand, .. } => scan_expr(operand, alloc, scan),
        ExpressionStatement::PrefixStep { operand, .. } => scan_expr(operand, alloc, scan),
        ExpressionStatement::Call(call) => scan_expr(call, alloc, scan),
    }
}

/// Scans the last part of the head of a `for`.
pub fn scan_step(
    of: &Option<ExpressionStatement>,
    alloc: Global,
    scan: &mut Scanning,
) -> Result<(), Memory>
    ensures { OnOk result (scan.new ≡ spec.simple_where of.now scan.old) }
{
    match of {
        Some(of) => scan_simple(of, alloc, scan),
        None => Ok(()),
    }
}

/// Scans the first part of a `for`.
pub fn scan_first(of: &First, alloc: Global, scan: &mut Scanning) -> Result<(), Memory>
    ensures { OnOk result (scan.new ≡ spec.first_scan of.now scan.old) }
{
    match of {
        First::Nothing => Ok(()),
        First::Declaration(of) => scan_declaration(of, alloc, scan),
        First::Expression(of) => scan_simple(of, alloc, scan),
    }
}

/// Scans an expression, if there is one.
pub fn scan_value(of: &Option<Expr>, alloc: Global, scan: &mut Scanning) -> Result<(), Memory>
    ensures { OnOk result (scan.new ≡ spec.scan_where of.now scan.old) }
{
    match of {
        Some(of) => scan_expr(of, alloc, scan),
        None => Ok(()),
    }
}

/// Scans the labels of a section.
pub fn scan_labels(list: &[Label], alloc: Global, scan: &mut Scanning) -> Result<(), Memory>
    ensures { OnOk result (scan.new ≡ in_turn (map spec.scans_label list.now) scan.old) }
{
    for next in list {
        scan_label(next, alloc, scan)?;
    }
    Ok(())
}

/// Scans a label.
fn scan_label(of: &Label, alloc: Global, scan: &mut Scanning) -> Result<(), Memory>
    ensures { OnOk result (scan.new ≡ spec.scans_label of.now scan.old) }
{
    match of {
        Label::Case(_, value) => scan_expr(value, alloc, scan),
        Label::Default(_) => Ok(()),
    }
}
