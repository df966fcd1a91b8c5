//! Operators on integers (C11 6.5.3.3, 6.5.5 to 6.5.12).
ghost use Rattle.std.specs.Prelude.{◌≡◌, ℕ, List, ◌+◌, ◌≤◌, length, IfOk, IfErr};
ghost use Rattle.hy_bits.specs.Bits.{bit};
ghost use Rattle.hy_bits.specs.Scalar.{scalar_width};
ghost use Rattle.hy_bits.specs.Sizes.{sum_size};
ghost use Rattle.hy_bits.specs.declared.width.Width;
ghost use Rattle.word_graph.specs.Meaning.{InputsFit};
ghost use Rattle.word_graph.specs.Size.{graph_size};
ghost use Rattle.word_nodes.specs.Nodes.{Stands, Extends, IsFull, IsOfOne, IsOfTwo};
ghost use Rattle.c_meaning.specs.Operations as operations;
ghost use Rattle.c_meaning.specs.Operations.{left_type, right_type};
ghost use Rattle.c_meaning.specs.Sizes.{comparison_gates, integer_gates, sign_gates};
ghost use Rattle.exec_expressions.specs.Choices.{arithmetic_op, less_op, shift_op};

use crate::nodes::{apply_one, apply_two};
use c_meaning::{ArithmeticOperator, ArithmeticSign, Comparison, IntegerOperation, ShiftOperator};
use hy_bits::{Op, Scalar, Width};
use word_graph::{Graph, GraphFault, Node};
use word_nodes::{complement, equality};

/// The operation on words of an arithmetic operator at a type, by whether the type is signed.
fn arithmetic_op(operator: ArithmeticOperator, signed: bool) -> Op
    ensures { result ≡ arithmetic_op operator signed }
{
    match operator {
        ArithmeticOperator::Multiply => Op::Mul,
        ArithmeticOperator::Divide if signed => Op::DivS,
        ArithmeticOperator::Divide => Op::DivU,
        ArithmeticOperator::Remainder if signed => Op::RemS,
        ArithmeticOperator::Remainder => Op::RemU,
        ArithmeticOperator::Add => Op::Add,
        ArithmeticOperator::Subtract => Op::Sub,
        ArithmeticOperator::And => Op::And,
        ArithmeticOperator::Xor => Op::Xor,
        ArithmeticOperator::Or => Op::Or,
    }
}

/// The operation on words of a shift of a type, by whether the type is signed.
fn shift_op(operator: ShiftOperator, signed: bool) -> Op
    ensures { result ≡ shift_op operator signed }
{
    match operator {
        ShiftOperator::Left => Op::Shl,
        ShiftOperator::Right if signed => Op::ShrS,
        ShiftOperator::Right => Op::ShrU,
    }
}

/// The result of an operation on the words `left` and `right`, each of its type.
///
/// # Errors
///
/// `NodeLimit` where the graph is full, and `Memory`. The graph is as before.
pub fn operate(
    graph: &mut Graph,
    operation: IntegerOperation,
    left: Node,
    right: Node,
    region: u32,
) -> Result<Node, GraphFault>
    requires left { Stands graph.old (scalar_width (left_type operation)) left }
    requires right { Stands graph.old (scalar_width (right_type operation)) right }
    ensures stands { IfOk result (Stands graph.new (scalar_width (left_type operation))) }
    ensures value { IfOk result (IsOfTwo (operations.operated operation) graph.old graph.new left right) }
    ensures extends { Extends region graph.old graph.new }
    ensures nodes { length graph.new ≤ length graph.old + 1 }
    ensures gates { graph_size graph.new ≤ graph_size graph.old + integer_gates operation }
    ensures full { IfErr result (IsFull graph.new) }
{
    let _entries = graph.entries();
    match operation {
        IntegerOperation::Arithmetic(operator, scalar) => {
            let op = arithmetic_op(operator, scalar.signed());
            apply_two(graph, op, scalar.width(), left, right, region)
        }
        IntegerOperation::Shift {
            operator,
            scalar,
            ..
        } => {
            let op = shift_op(operator, scalar.signed());
            apply_two(graph, op, scalar.width(), left, right, region)
        }
    }
}

/// The operation that tells which of two words is less, by whether they are signed.
fn less_op(signed: bool) -> Op
    ensures { result ≡ less_op signed }
{
    if signed { Op::LtS } else { Op::LtU }
}

/// Whether the word `left` is less than `right`, both of the type `scalar`.
fn less(
    graph: &mut Graph,
    scalar: Scalar,
    left: Node,
    right: Node,
    region: u32,
) -> Result<Node, GraphFault>
    requires left { Stands graph.old (scalar_width scalar) left }
    requires right { Stands graph.old (scalar_width scalar) right }
    ensures stands { IfOk result (Stands graph.new Width.W1) }
    ensures value { IfOk result (IsOfTwo (λ x y. bit (operations.is_less scalar (operations.low scalar x) (operations.low scalar y))) graph.old graph.new left right) }
    ensures extends { Extends region graph.old graph.new }
    ensures nodes { length graph.new ≤ length graph.old + 1 }
    ensures gates { graph_size graph.new ≤ graph_size graph.old + sum_size (scalar_width scalar) }
    ensures full { IfErr result (IsFull graph.new) }
{
    let _entries = graph.entries();
    let op = less_op(scalar.signed());
    apply_two(graph, op, Width::W1, left, right, region)
}

/// Whether a comparison of the words `left` and `right`, both of the type `scalar`, holds.
///
/// # Errors
///
/// `NodeLimit` where the graph is full, and `Memory`. The graph may have more nodes.
pub fn compare(
    graph: &mut Graph,
    comparison: Comparison,
    scalar: Scalar,
    left: Node,
    right: Node,
    region: u32,
) -> Result<Node, GraphFault>
    requires left { Stands graph.old (scalar_width scalar) left }
    requires right { Stands graph.old (scalar_width scalar) right }
    ensures stands { IfOk result (Stands graph.new Width.W1) }
    ensures value { IfOk result (IsOfTwo (λ x y. bit (operations.compares comparison scalar x y)) graph.old graph.new left right) }
    ensures extends { Extends region graph.old graph.new }
    ensures nodes { length graph.new ≤ length graph.old + 2 }
    ensures gates { graph_size graph.new ≤ graph_size graph.old + (comparison_gates comparison (scalar_width scalar) + 4) }
    ensures full { IfErr result (IsFull graph.new) }
{
    let _entries = graph.entries();
    match comparison {
        Comparison::Less => less(graph, scalar, left, right, region),
        Comparison::Greater => less(graph, scalar, right, left, region),
        Comparison::LessOrEqual => {
            let greater = less(graph, scalar, right, left, region)?;
            complement(graph, greater, region)
        }
        Comparison::GreaterOrEqual => {
            let smaller = less(graph, scalar, left, right, region)?;
            complement(graph, smaller, region)
        }
        Comparison::Equal => equality(graph, scalar.width(), left, right, region),
        Comparison::Unequal => {
            let equal = equality(graph, scalar.width(), left, right, region)?;
            complement(graph, equal, region)
        }
    }
}

/// The word `word` of the type `scalar` after a unary operator.
///
/// # Errors
///
/// `NodeLimit` where the graph is full, and `Memory`. The graph is as before.
pub fn apply_sign(
    graph: &mut Graph,
    sign: ArithmeticSign,
    scalar: Scalar,
    word: Node,
    region: u32,
) -> Result<Node, GraphFault>
    requires { Stands graph.old (scalar_width scalar) word }
    ensures stands { IfOk result (Stands graph.new (scalar_width scalar)) }
    ensures value { IfOk result (IsOfOne (operations.signed_by sign scalar) graph.old graph.new word) }
    ensures extends { Extends region graph.old graph.new }
    ensures nodes { length graph.new ≤ length graph.old + 1 }
    ensures gates { graph_size graph.new ≤ graph_size graph.old + sign_gates sign (scalar_width scalar) }
    ensures full { IfErr result (IsFull graph.new) }
{
    let _entries = graph.entries();
    match sign {
        ArithmeticSign::Plus => Ok(word),
        ArithmeticSign::Minus => apply_one(graph, Op::Neg, scalar.width(), word, region),
        ArithmeticSign::Complement => apply_one(graph, Op::Not, scalar.width(), word, region),
    }
}
