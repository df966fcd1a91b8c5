//! The addresses that statements take.

ghost use Rattle.std.specs.Prelude.{◌≡◌, OnOk, map};
ghost use Rattle.std.specs.Option.{option_map};
ghost use Rattle.c_addresses.specs.Scans.{in_turn, scoped};
ghost use Rattle.c_addresses.specs.Addresses as spec;

use crate::declarations::{
    scan_declaration, scan_first, scan_labels, scan_simple, scan_step, scan_value,
};
use crate::expressions::{scan_expr, scan_tag};
use crate::scan::Scanning;
use c_tree::{Block, BlockItem, Iteration, LabelledSection, Selection, Statement};
use hy_bits::Memory;
use std::alloc::Global;

/// Scans a statement.
#[cycle(statements)]
fn scan_statement(of: &Statement, alloc: Global, scan: &mut Scanning) -> Result<(), Memory>
    ensures { OnOk result (scan.new ≡ spec.scans_statement of.now scan.old) }
{
    match of {
        Statement::Block(block) => {
            scan.open()?;
            scan_block(block.get(), alloc, scan)?;
            scan.close();
            Ok(())
        }
        Statement::Expression(of) => scan_simple(of.get(), alloc, scan),
        Statement::Return(_, value) => scan_value(value.get(), alloc, scan),
        Statement::Selection(of) => {
            scan.open()?;
            scan_selection(of.get(), alloc, scan)?;
            scan.close();
            Ok(())
        }
        Statement::Iteration(of) => {
            scan.open()?;
            scan_iteration(of.get(), alloc, scan)?;
            scan.close();
            Ok(())
        }
        Statement::Empty(_) | Statement::Break(_) | Statement::Continue(_) => Ok(()),
    }
}

/// Scans a statement in a scope of its own.
#[cycle(statements)]
fn scan_inner(of: &Statement, alloc: Global, scan: &mut Scanning) -> Result<(), Memory>
    ensures { OnOk result (scan.new ≡ scoped (spec.scans_statement of.now) scan.old) }
{
    scan.open()?;
    scan_statement(of, alloc, scan)?;
    scan.close();
    Ok(())
}

/// Scans statements.
#[cycle(statements)]
fn scan_statements(list: &[Statement], alloc: Global, scan: &mut Scanning) -> Result<(), Memory>
    ensures { OnOk result (scan.new ≡ in_turn (map spec.scans_statement list.now) scan.old) }
{
    for next in list {
        scan_statement(next, alloc, scan)?;
    }
    Ok(())
}

/// Scans a block, whose scope is open.
#[cycle(statements)]
pub fn scan_block(of: &Block, alloc: Global, scan: &mut Scanning) -> Result<(), Memory>
    ensures { OnOk result (scan.new ≡ spec.scans_block of.now scan.old) }
{
    scan_items(of.parts.as_slice(), alloc, scan)
}

/// Scans the items of a block.
#[cycle(statements)]
fn scan_items(list: &[BlockItem], alloc: Global, scan: &mut Scanning) -> Result<(), Memory>
    ensures { OnOk result (scan.new ≡ in_turn (map spec.scans_item list.now) scan.old) }
{
    for next in list {
        scan_item(next, alloc, scan)?;
    }
    Ok(())
}

/// Scans an item of a block.
#[cycle(statements)]
fn scan_item(of: &BlockItem, alloc: Global, scan: &mut Scanning) -> Result<(), Memory>
    ensures { OnOk result (scan.new ≡ spec.scans_item of.now scan.old) }
{
    match of {
        BlockItem::Statement(of) => scan_statement(of, alloc, scan),
        BlockItem::Declaration(of) => scan_declaration(of.get(), alloc, scan),
        BlockItem::TagSpecifier(of) => scan_tag(of.get(), alloc, scan),
    }
}

/// Scans a selection statement.
#[cycle(statements)]
fn scan_selection(of: &Selection, alloc: Global, scan: &mut Scanning) -> Result<(), Memory>
    ensures { OnOk result (scan.new ≡ spec.scans_selection of.now scan.old) }
{
    match of {
        Selection::If {
            condition,
            then,
            otherwise,
            ..
        } => {
            scan_expr(condition, alloc, scan)?;
            scan_inner(then, alloc, scan)?;
            scan_otherwise(otherwise, alloc, scan)
        }
        Selection::Switch {
            value,
            sections,
            ..
        } => {
            scan_expr(value, alloc, scan)?;
            scan.open()?;
            scan_sections(sections.as_slice(), alloc, scan)?;
            scan.close();
            Ok(())
        }
    }
}

/// Scans the second statement of an `if`, if there is one.
#[cycle(statements)]
fn scan_otherwise(of: &Option<Statement>, alloc: Global, scan: &mut Scanning) -> Result<(), Memory>
    ensures { OnOk result (scan.new ≡ spec.scoped_where (option_map spec.scans_statement of.now) scan.old) }
{
    match of {
        Some(of) => scan_inner(of, alloc, scan),
        None => Ok(()),
    }
}

/// Scans the sections of a `switch`.
#[cycle(statements)]
fn scan_sections(list: &[LabelledSection], alloc: Global, scan: &mut Scanning) -> Result<(), Memory>
    ensures { OnOk result (scan.new ≡ in_turn (map spec.scans_section list.now) scan.old) }
{
    for next in list {
        scan_section(next, alloc, scan)?;
    }
    Ok(())
}

/// Scans a section of a `switch`.
#[cycle(statements)]
fn scan_section(of: &LabelledSection, alloc: Global, scan: &mut Scanning) -> Result<(), Memory>
    ensures { OnOk result (scan.new ≡ spec.scans_section of.now scan.old) }
{
    scan_labels(of.labels.as_slice(), alloc, scan)?;
    scan_statements(of.statements.as_slice(), alloc, scan)
}

/// Scans an iteration statement.
#[cycle(statements)]
fn scan_iteration(of: &Iteration, alloc: Global, scan: &mut Scanning) -> Result<(), Memory>
    ensures { OnOk result (scan.new ≡ spec.scans_iteration of.now scan.old) }
{
    match of {
        Iteration::While {
            condition,
            body,
            ..
        } => {
            scan_expr(condition, alloc, scan)?;
            scan_inner(body, alloc, scan)
        }
        Iteration::Do {
            body,
            condition,
            ..
        } => {
            scan_inner(body, alloc, scan)?;
            scan_expr(condition, alloc, scan)
        }
        Iteration::For {
            first,
            condition,
            step,
            body,
            ..
        } => {
            scan_first(first, alloc, scan)?;
            scan_value(condition, alloc, scan)?;
            scan_step(step, alloc, scan)?;
            scan_inner(body, alloc, scan)
        }
    }
}
