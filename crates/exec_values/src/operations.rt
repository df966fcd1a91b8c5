//! Operators on values (C11 6.3.1, 6.5.3.3, 6.5.5 to 6.5.12).
ghost use Rattle.std.specs.Prelude.{◌≡◌, ℕ, ◌<◌, ◌==◌, List, [], length, not, IfOk, IfErr};
ghost use Rattle.hy_bits.specs.Bits.{bit};
ghost use Rattle.hy_bits.specs.Scalar.{scalar_width};
ghost use Rattle.hy_bits.specs.declared.width.Width;
ghost use Rattle.word_graph.specs.Meaning.{InputsFit};
ghost use Rattle.word_nodes.specs.Nodes.{Stands, Extends, IsFull, worth};
ghost use Rattle.c_meaning.specs.Operations as operations;
ghost use Rattle.c_meaning.specs.Operations.{left_type, right_type};
ghost use Rattle.c_meaning.specs.Expressions as expressions;
ghost use Rattle.c_meaning.specs.State.{points_alike};
ghost use Rattle.c_place.specs.Aims.{IsPointer, address};
ghost use Rattle.exec_values.specs.Views.{ValueStands, value_cells};
ghost use Rattle.exec_values.specs.Makes.{GivenBy, HasPointer, HasWord, IsPointerValue, IsWordValue, MakesOf, MakesOfTwo, TakenBy};
ghost use Rattle.exec_values.specs.declared.values.WordValue;

use crate::values::WordValue;
use c_meaning::{ArithmeticSign, Comparison, Conversion, Equality, IntegerOperation};
use c_place::{Targets, same};
use exec_expressions::{apply_sign, compare, convert, of_truth, operate, truth};
use hy_bits::{Scalar, Width};
use std::alloc::Global;
use word_graph::{Graph, GraphFault, Node};
use word_nodes::{complement, constant, width_of};

/// The word of a value that is one.
pub fn word_of(value: &WordValue) -> Node
    requires { IsWordValue value.now }
    ensures { value.now ≡ WordValue.Word result }
{
    match value {
        WordValue::Word(node) => *node,
        _ => unreachable!(),
    }
}

/// The pointer of a value that is one.
pub fn pointer_of(value: &WordValue) -> &Targets
    requires { IsPointerValue value.now }
    ensures { value.now ≡ WordValue.Pointer result.now }
{
    match value {
        WordValue::Pointer(targets) => targets,
        _ => unreachable!(),
    }
}

/// Whether a word is unequal to 0.
fn word_truth(graph: &mut Graph, word: Node, region: u32) -> Result<Node, GraphFault>
    requires { word.index < length graph.old }
    ensures stands { IfOk result (Stands graph.new Width.W1) }
    ensures value { IfOk result (λ n. (ins : List ℕ) → InputsFit graph.old ins → worth graph.new ins n ≡ bit (not (worth graph.old ins word == 0))) }
    ensures extends { Extends region graph.old graph.new }
    ensures full { IfErr result (IsFull graph.new) }
{
    let width = width_of(graph, word);
    truth(graph, width, word, region)
}

/// Whether a value compares unequal to 0 (C11 6.8.4.1, 6.5.13).
///
/// # Errors
///
/// `NodeLimit` where the graph is full, and `Memory`. The graph may have more nodes.
pub fn truth_of(graph: &mut Graph, value: &WordValue, region: u32) -> Result<Node, GraphFault>
    requires { ValueStands graph.old value.now }
    ensures stands { IfOk result (Stands graph.new Width.W1) }
    ensures value { IfOk result (λ n. (ins : List ℕ) → InputsFit graph.old ins → worth graph.new ins n ≡ bit (expressions.holds (value_cells graph.old ins value.now))) }
    ensures extends { Extends region graph.old graph.new }
    ensures full { IfErr result (IsFull graph.new) }
{
    match value {
        WordValue::Word(word) => word_truth(graph, *word, region),
        WordValue::Pointer(targets) => complement(graph, targets.null, region),
        WordValue::Struct(words) => match words.first() {
            Some(word) => word_truth(graph, *word, region),
            None => constant(graph, Width::W1, 0),
        },
        WordValue::Nothing => constant(graph, Width::W1, 0),
    }
}

/// A null pointer.
pub fn null_pointer(alloc: Global, graph: &mut Graph) -> Result<Targets, GraphFault>
    ensures pointer { IfOk result (IsPointer graph.new) }
    ensures none { IfOk result (λ p. p.list.items ≡ []) }
    ensures extends { (region : ℕ) → Extends region graph.old graph.new }
    ensures full { IfErr result (IsFull graph.new) }
{
    let null = constant(graph, Width::W1, 1)?;
    Ok(Targets {
        null,
        list: Vec::new(alloc),
    })
}

/// A value after a conversion (C11 6.3).
///
/// # Errors
///
/// `NodeLimit` where the graph is full, and `Memory`. The graph may have more nodes.
pub fn convert_value(
    alloc: Global,
    graph: &mut Graph,
    conversion: Conversion,
    value: &WordValue,
    region: u32,
) -> Result<WordValue, GraphFault>
    requires { TakenBy graph.old conversion value.now }
    ensures stands { IfOk result (GivenBy graph.new conversion) }
    ensures value { IfOk result (MakesOf (expressions.converted conversion) graph.old graph.new value.now) }
    ensures extends { Extends region graph.old graph.new }
    ensures full { IfErr result (IsFull graph.new) }
{
    match conversion {
        Conversion::Integer { from, to } => {
            let word = convert(graph, from, to, word_of(value), region)?;
            Ok(WordValue::Word(word))
        }
        Conversion::NullPointer => Ok(WordValue::Pointer(null_pointer(alloc, graph)?)),
    }
}

/// A value after a unary operator on integers (C11 6.5.3.3).
///
/// # Errors
///
/// `NodeLimit` where the graph is full, and `Memory`. The graph may have more nodes.
pub fn sign_value(
    graph: &mut Graph,
    sign: ArithmeticSign,
    scalar: Scalar,
    value: &WordValue,
    region: u32,
) -> Result<WordValue, GraphFault>
    requires { HasWord graph.old (scalar_width scalar) value.now }
    ensures stands { IfOk result (HasWord graph.new (scalar_width scalar)) }
    ensures value { IfOk result (MakesOf (λ u. expressions.of_word (operations.signed_by sign scalar (expressions.word_in u))) graph.old graph.new value.now) }
    ensures extends { Extends region graph.old graph.new }
    ensures full { IfErr result (IsFull graph.new) }
{
    let word = apply_sign(graph, sign, scalar, word_of(value), region)?;
    Ok(WordValue::Word(word))
}

/// Whether a value is equal to 0, as an `int` (C11 6.5.3.3p5).
///
/// # Errors
///
/// `NodeLimit` where the graph is full, and `Memory`. The graph may have more nodes.
pub fn negate_value(
    graph: &mut Graph,
    value: &WordValue,
    region: u32,
) -> Result<WordValue, GraphFault>
    requires { ValueStands graph.old value.now }
    ensures stands { IfOk result (HasWord graph.new Width.W32) }
    ensures value { IfOk result (MakesOf (λ u. expressions.of_truth (not (expressions.holds u))) graph.old graph.new value.now) }
    ensures extends { Extends region graph.old graph.new }
    ensures full { IfErr result (IsFull graph.new) }
{
    let holds = truth_of(graph, value, region)?;
    let none = complement(graph, holds, region)?;
    Ok(WordValue::Word(of_truth(graph, none, region)?))
}

/// The value of an operation on integers (C11 6.5.5, 6.5.6, 6.5.7, 6.5.10 to 6.5.12).
///
/// # Errors
///
/// `NodeLimit` where the graph is full, and `Memory`. The graph may have more nodes.
pub fn operate_values(
    graph: &mut Graph,
    operation: IntegerOperation,
    left: &WordValue,
    right: &WordValue,
    region: u32,
) -> Result<WordValue, GraphFault>
    requires left { HasWord graph.old (scalar_width (left_type operation)) left.now }
    requires right { HasWord graph.old (scalar_width (right_type operation)) right.now }
    ensures stands { IfOk result (HasWord graph.new (scalar_width (left_type operation))) }
    ensures value { IfOk result (MakesOfTwo (λ u x. expressions.of_word (operations.operated operation (expressions.word_in u) (expressions.word_in x))) graph.old graph.new left.now right.now) }
    ensures extends { Extends region graph.old graph.new }
    ensures full { IfErr result (IsFull graph.new) }
{
    let word = operate(graph, operation, word_of(left), word_of(right), region)?;
    Ok(WordValue::Word(word))
}

/// The value of a comparison of integers (C11 6.5.8, 6.5.9).
///
/// # Errors
///
/// `NodeLimit` where the graph is full, and `Memory`. The graph may have more nodes.
pub fn compare_values(
    graph: &mut Graph,
    comparison: Comparison,
    scalar: Scalar,
    left: &WordValue,
    right: &WordValue,
    region: u32,
) -> Result<WordValue, GraphFault>
    requires left { HasWord graph.old (scalar_width scalar) left.now }
    requires right { HasWord graph.old (scalar_width scalar) right.now }
    ensures stands { IfOk result (HasWord graph.new Width.W32) }
    ensures value { IfOk result (MakesOfTwo (λ u x. expressions.of_truth (operations.compares comparison scalar (expressions.word_in u) (expressions.word_in x))) graph.old graph.new left.now right.now) }
    ensures extends { Extends region graph.old graph.new }
    ensures full { IfErr result (IsFull graph.new) }
{
    let truth = compare(
        graph,
        comparison,
        scalar,
        word_of(left),
        word_of(right),
        region,
    )?;
    Ok(WordValue::Word(of_truth(graph, truth, region)?))
}

/// Whether two pointers are equal, or unequal.
fn equality_truth(
    graph: &mut Graph,
    equality: Equality,
    left: &Targets,
    right: &Targets,
    region: u32,
) -> Result<Node, GraphFault>
    requires left { IsPointer graph.old left.now }
    requires right { IsPointer graph.old right.now }
    ensures stands { IfOk result (Stands graph.new Width.W1) }
    ensures value { IfOk result (λ n. (ins : List ℕ) → InputsFit graph.old ins → worth graph.new ins n ≡ bit (operations.by_equality equality (points_alike (address graph.old ins left.now) (address graph.old ins right.now)))) }
    ensures extends { Extends region graph.old graph.new }
    ensures full { IfErr result (IsFull graph.new) }
{
    let equal = same(graph, left, right, region)?;
    match equality {
        Equality::Equal => Ok(equal),
        Equality::Unequal => complement(graph, equal, region),
    }
}

/// Whether two pointers are equal, or unequal, as an `int` (C11 6.5.9).
///
/// # Errors
///
/// `NodeLimit` where the graph is full, and `Memory`. The graph may have more nodes.
pub fn equal_values(
    graph: &mut Graph,
    equality: Equality,
    left: &WordValue,
    right: &WordValue,
    region: u32,
) -> Result<WordValue, GraphFault>
    requires left { HasPointer graph.old left.now }
    requires right { HasPointer graph.old right.now }
    ensures stands { IfOk result (HasWord graph.new Width.W32) }
    ensures value { IfOk result (MakesOfTwo (λ u x. expressions.of_truth (operations.by_equality equality (points_alike (expressions.address_in u) (expressions.address_in x)))) graph.old graph.new left.now right.now) }
    ensures extends { Extends region graph.old graph.new }
    ensures full { IfErr result (IsFull graph.new) }
{
    let truth = equality_truth(graph, equality, pointer_of(left), pointer_of(right), region)?;
    Ok(WordValue::Word(of_truth(graph, truth, region)?))
}
