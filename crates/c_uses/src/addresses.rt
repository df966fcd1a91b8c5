//! The objects whose addresses expressions take, marked in a table.

ghost use Rattle.std.specs.Prelude.{◌≡◌, ℕ, ◌<◌, ◌==◌, ◌||◌, false, length, get_or, map};
ghost use Rattle.std.specs.List.{list_any};
ghost use Rattle.c_meaning.specs.Uses as uses;
ghost use Rattle.c_uses.specs.Marks.{marked, lvalue_taken, step_taken, operand_taken};

use crate::names::named_object;
use crate::uses::mark;
use c_meaning::{ChainStep, LogicalOperand, Lvalue, TypedExpr};

/// Marks the object that an lvalue names.
fn mark_named(lvalue: &Lvalue, marks: &mut [bool])
    ensures { marks.new ≡ marked marks.old (lvalue_taken lvalue.now).named }
{
    if let Some(object) = named_object(lvalue) {
        mark(object, marks);
    }
}

/// Marks the objects whose addresses an lvalue takes.
#[cycle(addresses)]
#[tactic(auto, using(crate::proofs::Marking::marked_append))]
pub fn mark_lvalue(lvalue: &Lvalue, marks: &mut [bool])
    ensures { marks.new ≡ marked marks.old (uses.taken_by_lvalue lvalue.now) }
{
    match lvalue {
        Lvalue::Object { .. } => {}
        Lvalue::Indirection { pointer, .. } => mark_expr(pointer.get(), marks),
        Lvalue::Subscript { pointer, index, .. } => {
            mark_expr(pointer.get(), marks);
            mark_expr(index.get(), marks);
        }
        Lvalue::Member { of, .. } => mark_lvalue(of.get(), marks),
        Lvalue::Arrow { pointer, .. } => mark_expr(pointer.get(), marks),
    }
}

/// Marks the objects whose addresses an expression takes.
#[cycle(addresses)]
#[tactic(auto, using(crate::proofs::Marking::marked_append))]
pub fn mark_expr(expr: &TypedExpr, marks: &mut [bool])
    ensures { marks.new ≡ marked marks.old (uses.taken_in expr.now) }
{
    match expr {
        TypedExpr::Constant { .. } => {}
        TypedExpr::Load { from, .. } => mark_lvalue(from.get(), marks),
        TypedExpr::Decay { from, .. } => mark_lvalue(from.get(), marks),
        TypedExpr::Address { of, .. } => {
            mark_named(of.get(), marks);
            mark_lvalue(of.get(), marks);
        }
        TypedExpr::Converted { operand, .. } => mark_expr(operand.get(), marks),
        TypedExpr::Cast { operand, .. } => mark_expr(operand.get(), marks),
        TypedExpr::Unary { operand, .. } => mark_expr(operand.get(), marks),
        TypedExpr::Not { operand, .. } => mark_expr(operand.get(), marks),
        TypedExpr::Chain { first, steps } => {
            mark_expr(first.get(), marks);
            mark_steps(steps.as_slice(), marks);
        }
        TypedExpr::LogicalAnd { first, rest } => {
            mark_expr(first.get(), marks);
            mark_operands(rest.as_slice(), marks);
        }
        TypedExpr::LogicalOr { first, rest } => {
            mark_expr(first.get(), marks);
            mark_operands(rest.as_slice(), marks);
        }
        TypedExpr::Conditional {
            condition,
            second,
            third,
            ..
        } => {
            mark_expr(condition.get(), marks);
            mark_expr(second.get(), marks);
            mark_expr(third.get(), marks);
        }
        TypedExpr::Call { arguments, .. } => mark_exprs(arguments.as_slice(), marks),
    }
}

/// Marks the objects whose addresses steps of a chain take.
#[cycle(addresses)]
fn mark_steps(steps: &[ChainStep], marks: &mut [bool])
    ensures { marks.new ≡ marked marks.old (uses.all_of (map step_taken steps.now)) }
{
    for step in steps {
        mark_step(step, marks);
    }
}

/// Marks the objects whose addresses a step of a chain takes.
#[cycle(addresses)]
fn mark_step(step: &ChainStep, marks: &mut [bool])
    ensures { marks.new ≡ marked marks.old (step_taken step.now) }
{
    mark_expr(&step.right, marks);
}

/// Marks the objects whose addresses operands of `&&` or `||` take.
#[cycle(addresses)]
fn mark_operands(operands: &[LogicalOperand], marks: &mut [bool])
    ensures { marks.new ≡ marked marks.old (uses.all_of (map operand_taken operands.now)) }
{
    for operand in operands {
        mark_operand(operand, marks);
    }
}

/// Marks the objects whose addresses an operand of `&&` or `||` takes.
#[cycle(addresses)]
fn mark_operand(operand: &LogicalOperand, marks: &mut [bool])
    ensures { marks.new ≡ marked marks.old (operand_taken operand.now) }
{
    mark_expr(&operand.operand, marks);
}

/// Marks the objects whose addresses arguments take.
#[cycle(addresses)]
fn mark_exprs(arguments: &[TypedExpr], marks: &mut [bool])
    ensures { marks.new ≡ marked marks.old (uses.all_of (map uses.taken_in arguments.now)) }
{
    for argument in arguments {
        mark_expr(argument, marks);
    }
}

/// Marks in a table by the numbers of objects whose addresses an expression takes; objects after the end of the table are left out. The time
/// is linear in the expression.
#[tactic(auto, using(crate::proofs::Marking::marked_at, crate::proofs::Marking::length_marked))]
pub fn mark_taken_in(expr: &TypedExpr, marks: &mut [bool])
    ensures length { length marks.new ≡ length marks.old }
    ensures marks { (k : ℕ) → k < length marks.old → get_or marks.new k false ≡ (get_or marks.old k false || list_any (λ j. k == j) (uses.taken_in expr.now)) }
{
    mark_expr(expr, marks);
}
