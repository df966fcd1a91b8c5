ghost use Rattle.std.specs.Prelude.{ℕ, ◌≡◌, IfOk, MatchOption};
ghost use Rattle.hycc_top.specs.Source.{Summed};
ghost use Rattle.hycc_top.specs.Endings.{SourceSays, InputSays};
ghost use Rattle.hycc_top.specs.Inner.{IsOutcome, summed};

use crate::input::input_number;
use crate::runner::opened_sum;
use crate::source::{Sum, sum_of};
use c_lex::{LexKind, tokens};
use hy_bits::Memory;
use rand_core::Rng;
use std::alloc::Global;

/// The most bytes that a source or an input may have.
pub const MOST_BYTES: usize = 0x10_0000;

/// How a run of three texts ends.
#[derive(Clone, Copy, Debug, PartialEq, Eq)]
pub enum Outcome {
    /// All are of their forms, and this sum was opened.
    Sum(u64),
    /// The source is too long or not of its form.
    SourceForm,
    /// The source is of its form, and the input of P0 is too long or not of its own.
    AForm,
    /// So for the input of P1, where that of P0 is of its form.
    BForm,
}

/// Reads the three texts in order, and opens the sum where all are of their forms.
pub fn outcome_of<R: Rng>(
    alloc: Global,
    source: &[u8],
    a: &[u8],
    b: &[u8],
    dealer: &mut R,
) -> Result<Outcome, Memory>
    ensures { IfOk result (IsOutcome source.now a.now b.now) }
{
    let Some(sum) = source_sum(alloc, source)? else {
        return Ok(Outcome::SourceForm);
    };
    let Some(x) = number(sum.a.as_bytes(), a) else {
        return Ok(Outcome::AForm);
    };
    let Some(y) = number(sum.b.as_bytes(), b) else {
        return Ok(Outcome::BForm);
    };
    Ok(Outcome::Sum(opened_sum(&sum.terms, x, y, dealer)))
}

/// What a source says, or none where it is too long or not of its form.
fn source_sum(alloc: Global, source: &[u8]) -> Result<Option<Sum>, Memory>
    ensures { IfOk result (λ found. MatchOption found ((said : Summed) → SourceSays said source.now → ⊥) (λ sum. SourceSays (summed sum) source.now)) }
{
    if source.len() > MOST_BYTES {
        return Ok(None);
    }
    match tokens(alloc, source) {
        Ok(tokens) => sum_of(alloc, tokens.as_slice()),
        Err(fault) => match fault.kind {
            LexKind::Memory => Err(Memory),
            _ => Ok(None),
        },
    }
}

/// The number that an input gives to the name, or none where it is too long or not of its form.
fn number(name: &[u8], bytes: &[u8]) -> Option<u64>
    ensures { MatchOption result ((number : ℕ) → InputSays name.now number bytes.now → ⊥) (λ number. InputSays name.now number bytes.now) }
{
    if bytes.len() > MOST_BYTES {
        return None;
    }
    input_number(name, bytes)
}
