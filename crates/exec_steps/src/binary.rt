//! Operators on two values, of which the left one stands already (C11 6.5.5 to 6.5.12).
ghost use Rattle.std.specs.Prelude.{◌≡◌, IfOk, IfErr};
ghost use Rattle.hy_bits.specs.Scalar.{scalar_width};
ghost use Rattle.hy_bits.specs.declared.width.Width.TheVariants.{W32};
ghost use Rattle.word_nodes.specs.Nodes.{IsFull};
ghost use Rattle.c_meaning.specs.Expressions as expressions;
ghost use Rattle.c_meaning.specs.declared.operators.Operation.TheVariants as variant;
ghost use Rattle.c_meaning.specs.Operations.{left_type, right_type};
ghost use Rattle.exec_values.specs.Makes.{HasPointer, HasWord};
ghost use Rattle.exec_steps.specs.Running.{IsRunning, OnlyGrows, TurnsRight};

use crate::running::Running;
use c_meaning::{Comparison, Equality, IntegerOperation};
use c_tree::Place;
use exec_values::{WordValue, compare_values, equal_values, operate_values};
use hy_bits::Scalar;
use word_graph::GraphFault;

/// The value of an operation on integers, at the operator's place, of which the contract alone speaks.
///
/// # Errors
///
/// `NodeLimit` where the graph is full, and `Memory`.
pub fn operated(
    _place: Place,
    operation: IntegerOperation,
    left: &WordValue,
    right: &WordValue,
    running: &mut Running,
    region: u32,
) -> Result<WordValue, GraphFault>
    requires running { IsRunning running.old }
    requires left { HasWord running.old.graph (scalar_width (left_type operation)) left.now }
    requires right { HasWord running.old.graph (scalar_width (right_type operation)) right.now }
    ensures stands { IfOk result (HasWord running.new.graph (scalar_width (left_type operation))) }
    ensures follows { IfOk result (TurnsRight (expressions.combined (variant.Integer operation) _place) running.old running.new left.now right.now) }
    ensures grows { OnlyGrows region running.old running.new }
    ensures full { IfErr result (IsFull running.new.graph) }
{
    operate_values(&mut running.graph, operation, left, right, region)
}

/// The value of a comparison of integers.
///
/// # Errors
///
/// `NodeLimit` where the graph is full, and `Memory`.
pub fn compared(
    _place: Place,
    comparison: Comparison,
    scalar: Scalar,
    left: &WordValue,
    right: &WordValue,
    running: &mut Running,
    region: u32,
) -> Result<WordValue, GraphFault>
    requires running { IsRunning running.old }
    requires left { HasWord running.old.graph (scalar_width scalar) left.now }
    requires right { HasWord running.old.graph (scalar_width scalar) right.now }
    ensures stands { IfOk result (HasWord running.new.graph W32) }
    ensures follows { IfOk result (TurnsRight (expressions.combined (variant.Comparison comparison scalar) _place) running.old running.new left.now right.now) }
    ensures grows { OnlyGrows region running.old running.new }
    ensures full { IfErr result (IsFull running.new.graph) }
{
    compare_values(&mut running.graph, comparison, scalar, left, right, region)
}

/// Whether two pointers are equal, or unequal.
///
/// # Errors
///
/// `NodeLimit` where the graph is full, and `Memory`.
pub fn equated(
    _place: Place,
    equality: Equality,
    left: &WordValue,
    right: &WordValue,
    running: &mut Running,
    region: u32,
) -> Result<WordValue, GraphFault>
    requires running { IsRunning running.old }
    requires left { HasPointer running.old.graph left.now }
    requires right { HasPointer running.old.graph right.now }
    ensures stands { IfOk result (HasWord running.new.graph W32) }
    ensures follows { IfOk result (TurnsRight (expressions.combined (variant.Pointers equality) _place) running.old running.new left.now right.now) }
    ensures grows { OnlyGrows region running.old running.new }
    ensures full { IfErr result (IsFull running.new.graph) }
{
    equal_values(&mut running.graph, equality, left, right, region)
}
