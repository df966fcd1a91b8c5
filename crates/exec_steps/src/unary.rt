//! Operators on one value (C11 6.3, 6.5.3.3, 6.8.4.1).
ghost use Rattle.std.specs.Prelude.{◌≡◌, ℕ, List, not, IfOk, IfErr, OnOk};
ghost use Rattle.hy_bits.specs.Scalar.{scalar_width};
ghost use Rattle.hy_bits.specs.declared.width.Width.TheVariants.{W1, W32};
ghost use Rattle.word_graph.specs.Meaning.{InputsFit};
ghost use Rattle.word_nodes.specs.Nodes.{Stands, IsFull, worth};
ghost use Rattle.c_meaning.specs.Expressions as expressions;
ghost use Rattle.exec_values.specs.Views.{ValueStands, value_cells};
ghost use Rattle.exec_values.specs.Makes.{GivenBy, HasWord, TakenBy};
ghost use Rattle.exec_steps.specs.Running.{IsRunning, OnlyGrows, Turns, TurnsTruth};
ghost use Rattle.exec_state.specs.Operands.{holding};

use crate::running::Running;
use c_meaning::{ArithmeticSign, Conversion};
use c_tree::Place;
use exec_values::{WordValue, convert_value, negate_value, sign_value, truth_of};
use hy_bits::Scalar;
use std::alloc::Global;
use word_graph::{GraphFault, Node};

/// A value after a conversion.
///
/// # Errors
///
/// `NodeLimit` where the graph is full, and `Memory`.
pub fn converted(
    alloc: Global,
    conversion: Conversion,
    value: &WordValue,
    running: &mut Running,
    region: u32,
) -> Result<WordValue, GraphFault>
    requires running { IsRunning running.old }
    requires value { ValueStands running.old.graph value.now }
    requires takes { TakenBy running.old.graph conversion value.now }
    ensures stands { IfOk result (GivenBy running.new.graph conversion) }
    ensures follows { IfOk result (Turns (expressions.converted_value conversion) running.old running.new value.now) }
    ensures grows { OnlyGrows region running.old running.new }
    ensures full { IfErr result (IsFull running.new.graph) }
{
    convert_value(alloc, &mut running.graph, conversion, value, region)
}

/// A value after a unary operator on integers, at the operator's place, of which the contract alone speaks.
///
/// # Errors
///
/// `NodeLimit` where the graph is full, and `Memory`.
pub fn signed(
    _place: Place,
    sign: ArithmeticSign,
    scalar: Scalar,
    value: &WordValue,
    running: &mut Running,
    region: u32,
) -> Result<WordValue, GraphFault>
    requires running { IsRunning running.old }
    requires value { ValueStands running.old.graph value.now }
    requires takes { HasWord running.old.graph (scalar_width scalar) value.now }
    ensures stands { IfOk result (HasWord running.new.graph (scalar_width scalar)) }
    ensures follows { IfOk result (Turns (expressions.unary_value _place sign scalar) running.old running.new value.now) }
    ensures grows { OnlyGrows region running.old running.new }
    ensures full { IfErr result (IsFull running.new.graph) }
{
    sign_value(&mut running.graph, sign, scalar, value, region)
}

/// Whether a value is equal to 0, as an `int`.
///
/// # Errors
///
/// `NodeLimit` where the graph is full, and `Memory`.
pub fn negated(
    value: &WordValue,
    running: &mut Running,
    region: u32,
) -> Result<WordValue, GraphFault>
    requires running { IsRunning running.old }
    requires value { ValueStands running.old.graph value.now }
    ensures stands { IfOk result (HasWord running.new.graph W32) }
    ensures follows { IfOk result (Turns expressions.not_value running.old running.new value.now) }
    ensures grows { OnlyGrows region running.old running.new }
    ensures full { IfErr result (IsFull running.new.graph) }
{
    negate_value(&mut running.graph, value, region)
}

/// Whether a value compares unequal to 0.
///
/// # Errors
///
/// `NodeLimit` where the graph is full, and `Memory`.
pub fn tested(value: &WordValue, running: &mut Running, region: u32) -> Result<Node, GraphFault>
    requires running { IsRunning running.old }
    requires value { ValueStands running.old.graph value.now }
    ensures stands { IfOk result (Stands running.new.graph W1) }
    ensures follows { IfOk result (TurnsTruth holding running.old running.new value.now) }
    ensures grows { OnlyGrows region running.old running.new }
    ensures full { IfErr result (IsFull running.new.graph) }
{
    truth_of(&mut running.graph, value, region)
}
