//! From the bytes of a source to its typed program.

ghost use Rattle.std.specs.Prelude.{◌≡◌, ◌^◌, ◌<◌, length, MatchResult};
ghost use Rattle.c_meaning.specs.declared.typed.TypedParts.{TypedParts};
ghost use Rattle.c_front.specs.declared.fault.SourceFault.TheVariants.{Memory as WantOfMemory};
ghost use Rattle.c_front.specs.Front.{IsTypedSource, IsSourceFault};

use crate::fault::SourceFault;
use c_lex::tokens;
use c_meaning::TypedParts;
use c_programs::program_parts;
use c_syntax::parse;
use std::alloc::Global;

/// The typed program of a source. `bound` is the bound of loops that have none of their own. The time is that of [`program_parts`],
/// and but for what that counts linear in the source's bytes and in those of the tokens that its macros stand for.
///
/// # Errors
///
/// The first fault: of all the tokens, then of the syntax, then of the types; or memory ran out.
pub fn front(alloc: Global, source: &[u8], bound: Option<u32>) -> Result<TypedParts, SourceFault>
    requires { length source.now < 2 ^ 31 }
    // The source spells this typed program, or the fault is its first.
    ensures exact { MatchResult result (IsTypedSource source.now bound) (IsSourceFault source.now bound) }
    // Where it spells a typed program, only memory can be wanting.
    ensures whole { (parts : TypedParts) → IsTypedSource source.now bound parts → MatchResult result (λ found. found ≡ parts) (λ fault. fault ≡ WantOfMemory) }
{
    let tokens = tokens(alloc, source)?;
    let program = parse(alloc, &tokens)?;
    Ok(program_parts(alloc, &program, bound)?)
}
