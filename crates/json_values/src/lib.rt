//! The parties' inputs and the printed output: texts of JSON, read as the words of ports, and the JSON value of a shape and its
//! words.
//!
//! What a text is in JSON is `serde_json`'s own meaning of it: of equal names the last counts, and the members of an object
//! stand in the order of the bytes of their names. A walk over the shapes gives the words of the leaves, or the first fault.
//!
//! | definitions | of |
//! |---|---|
//! | `specs/Leaf.antt` | the word of a number |
//! | `specs/Walk.antt` | the words that a value gives to a shape, or the first fault |
//! | `specs/File.antt` | the words that the texts of the parties give to their ports, or the first fault |
//! | `specs/Meaning.antt` | what a user relies on, by rules that know no walk: which values and texts say which words |
//! | `specs/Text.antt` | the value of a shape and its words |
//! | `specs/Names.antt` | sets of names |
//!
//! Laws that the crates above can import:
//!
//! | lemmas | on |
//! |---|---|
//! | `proofs/Laws.antt` | a value is read exactly where it says words of its shape, and as these; so is a text, and so are both texts |
//! | `proofs/Numbers.antt` | a number is read exactly where its scalar holds it, and its word is read as the number |
//! | `proofs/Making.antt` | the value of a shape and its words says these words, and is read as them |
//!
//! The walks call themselves as deep as the shape; the text nests at most 127 deep, as `serde_json` reads it.
//!
//! # Guarantees
//!
//! - `own_inputs` gives the words of a party's ports from its text, or the first fault: words come exactly where the text says them,
//!   and they fit the party's ports (`src/file.rt`; read `specs/Meaning.antt`, then for the faults `specs/Walk.antt` and
//!   `specs/File.antt`).
//! - `inputs_of` does the same for both texts, all of the first party's before the second's; its words fit the ports, and each party's
//!   own are those of its leaves among all (`src/file.rt`; read `specs/Meaning.antt`, `hy_bits`'s `specs/Ports.antt`, `specs/File.antt`).
//! - `text_of` gives the value of a shape and its words, which is read back as these words (`src/text.rt`; read `specs/Text.antt`, then
//!   `specs/Meaning.antt`).
#![tactic(auto)]

mod fault;
mod file;
mod leaf;
mod text;
mod walk;

pub use fault::{InputFault, InputKind};
pub use file::{inputs_of, own_inputs};
pub use text::text_of;
