//! The typed program of a source: its tokens (C11 5.1.1.2), their program, and the types of that.
//!
//! # Guarantees
//!
//! | call | guarantee | clause | definitions to read, in order |
//! |---|---|---|---|
//! | [`front`] | the typed program that the bytes of a source spell, or the first fault: of all the tokens, then of the syntax, then of the types; a source that spells a typed program is refused for want of memory alone | `src/source.rt` | `specs/Front.antt`, then `tokens_of` of c_lex, `IsParsed` and `IsFaultOf` of c_syntax and c_reader, `typing_of` of c_programs |
#![tactic(auto)]

mod fault;
mod source;

pub use fault::SourceFault;
pub use source::front;
