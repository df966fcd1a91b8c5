//! The program of a list of tokens, or why it is none.

ghost use Rattle.std.specs.Prelude.{◌≡◌, ◌+◌, ◌^◌, ◌<◌, true, ◌++◌, ◌∷◌, [], length, IfOk, IfErr, MatchResult};
ghost use Rattle.c_tree.specs.Programs.{ProgramTree};
ghost use Rattle.c_reader.specs.Depths.{AreShallow};
ghost use Rattle.c_reader.specs.Firsts.{IsFaultOf};
ghost use Rattle.c_syntax.specs.Outcome.{IsParsed};
ghost use Rattle.c_syntax.specs.Programs.{pieces_of, IsSpelled, ProgramAt};

use crate::items::program;
use c_decl::Rules;
use c_reader::{Cursor, LEVELS, SyntaxFault, Unread, fault_after};
use c_tree::{Program, Token, Tokens};
use std::alloc::Global;

/// The program of `tokens`. The time is linear in the number of tokens.
///
/// # Errors
///
/// `Expected` and `Construct` stand at the first token with which no program begins, `Deep` before it at the first token
/// that is nested too deeply. Where there is a fault, at most three more lists of no more tokens are read. `Memory` tells
/// that memory ran out.
#[tactic(auto, unfolding(c_reader::specs::Firsts::IsFaultOf))]
pub fn parse(alloc: Global, tokens: &Tokens) -> Result<Program, SyntaxFault>
    // The tokens are those of the program and the end, and none is nested more deeply than 200.
    ensures parsed { IfOk result (λ program. IsParsed tokens.now program) }
    // The fault is at the first token with which no program begins, or before it at one that is nested too deeply.
    ensures fault { IfErr result (λ fault. IsFaultOf ProgramAt tokens.now fault) }
    // What is spelled and not nested too deeply is parsed, unless memory runs out.
    ensures whole { (program : ProgramTree) (s : IsSpelled tokens.now program) → AreShallow (pieces_of program s.ending) → MatchResult result (λ found. found ≡ program) (λ fault. fault ≡ SyntaxFault.Memory) }
{
    let list = tokens.as_slice();
    let rules = Rules {
        alloc,
        size: list.len() + 2,
        left: LEVELS,
    };
    let mut cursor = Cursor::new(list, &[]);
    match program(rules, &mut cursor) {
        Ok((items, end)) => Ok(Program::new(items, end)),
        Err(Unread::Bad) => {
            let (before, rest) = list.split_at(list.len() - cursor.left());
            Err(fault_after(alloc, before, &rest[0], |cursor| program(rules, cursor))?)
        }
        Err(Unread::Deep) => Err(SyntaxFault::Deep(cursor.peek().place)),
        Err(Unread::Memory) => Err(SyntaxFault::Memory),
    }
}
