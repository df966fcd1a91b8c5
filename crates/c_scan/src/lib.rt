//! The pieces of a source text (C11 5.1.1.2 and 6.4): its words, literals, marks and line ends, each as long as it may be,
//! with their places; comments and other white space fall away.
//!
//! | definitions | of |
//! |---|---|
//! | `specs/Words.antt` | the reserved words and the marks |
//! | `specs/Literals.antt` | the values and types of literals |
//! | `specs/Spelled.antt` | which lists of bytes are pieces, each as a whole, and the longest piece that a text begins with |
//! | `specs/Pieces.antt` | what that piece is, and the pieces of a whole text |
//! | `specs/Places.antt`, `specs/Good.antt` | what is proved of the tokens among pieces |
//! | `specs/Lengths.antt` | the lengths that the private functions count |
//!
//! # Guarantees
//!
//! - `scan` gives the pieces of a text, each the longest that begins at its place; the tokens among them are as those of a list of
//!   tokens must be, and each stands in the text at its place (`src/scanner.rt`; read `specs/Spelled.antt`, `specs/Pieces.antt`,
//!   `specs/Good.antt` and `specs/Places.antt`).
#![tactic(auto)]

mod bytes;
mod literal;
mod piece;
mod place;
mod scanner;
mod spelling;
mod words;

pub use piece::{Piece, Scan};
pub use scanner::scan;
