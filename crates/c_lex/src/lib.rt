//! The tokens of a source text (C11 6.4 and 6.10): white space and comments taken away, literals with their types, directives
//! followed, object-like macros replaced, names of types told from other names.
//!
//! | definitions | of |
//! |---|---|
//! | `c_scan`'s `specs/Pieces.antt` | the pieces of a text |
//! | `specs/Lines.antt` | its lines |
//! | `specs/Macros.antt` | the tokens that the pieces of a line stand for |
//! | `specs/Directives.antt` | what each line does |
//! | `specs/Typedefs.antt` | which names are names of types |
//! | `specs/Lexing.antt` | the tokens of a text, or its first fault |
//! | `specs/Names.antt` | names and macros in lists |
//! | `specs/Answer.antt`, `specs/Inner.antt`, `specs/Scopes.antt`, `specs/Views.antt` | what the private functions answer |
//!
//! # Guarantees
//!
//! - `tokens` gives the tokens of a text, or its first fault with its place (`src/lexer.rt`; read `c_scan`'s `specs/Pieces.antt`, then
//!   `specs/Lines.antt`, `specs/Macros.antt`, `specs/Directives.antt`, `specs/Typedefs.antt` and `specs/Lexing.antt`).
//!
//! `specs/Macros.antt`, `specs/Directives.antt` and `specs/Typedefs.antt` are a reference lexer: each is a function of what the one
//! before it gives.
#![tactic(auto)]

mod fault;
mod lexer;
mod macros;
mod names;
mod reader;
mod typedefs;

pub use fault::{LexFault, LexKind};
pub use lexer::tokens;
