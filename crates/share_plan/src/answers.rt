//! Where the words of results come from.
ghost use Rattle.std.specs.Prelude.{◌≡◌, slice_get, IfOk, OnOk};
ghost use Rattle.share_plan.specs.Answers.{answer_of, answers_of, openings_in, with_answer};

use hy_bits::{Memory, Op};
use plan_script::sum;
use std::alloc::Global;
use word_graph::{Entry, Node};

/// Where the word of a result comes from: it is known, or it is that of the opening of this number.
#[derive(Clone, Copy, PartialEq, Eq, Debug)]
pub enum Answer {
    Known(u64),
    Opening(u32),
}

/// Where the word of a node comes from that is a result, `next` being the number of the next opening.
fn answer_of(entries: &[Entry], node: Node, next: u32) -> Answer
    ensures { result ≡ answer_of (slice_get entries.now node.index) next }
{
    match entries.get(node.index as usize) {
        Some(entry) => match entry.op {
            Op::Const => Answer::Known(entry.number),
            _ => Answer::Opening(next),
        },
        None => Answer::Opening(next),
    }
}

/// Puts where the word of a result comes from after the others, and tells the number of the next opening.
#[tactic(auto, unfolding(crate::specs::Answers::with_answer))]
fn add_answer(
    answers: &mut Vec<Answer>,
    entries: &[Entry],
    node: Node,
    next: u32,
) -> Result<u32, Memory>
    requires { next ≡ openings_in answers.old.items }
    ensures answers { OnOk result (answers.new.items ≡ with_answer entries.now answers.old.items node) }
    ensures next { IfOk result (λ n. n ≡ openings_in answers.new.items) }
{
    let answer = answer_of(entries, node, next);
    answers.push(answer)?;
    match answer {
        Answer::Known(_) => Ok(next),
        Answer::Opening(_) => sum(next, 1),
    }
}

/// Where the words of these results come from, in order.
///
/// # Errors
///
/// Memory ran out.
pub fn answers_of(alloc: Global, entries: &[Entry], results: &[Node]) -> Result<Vec<Answer>, Memory>
    ensures { IfOk result (λ answers. answers.items ≡ answers_of entries.now results.now) }
{
    let mut answers = Vec::with_capacity(alloc, results.len())?;
    let mut next = 0;
    for node in results {
        next = add_answer(&mut answers, entries, *node, next)?;
    }
    Ok(answers)
}
