//! Conversions of shares between the sharings A, B and Y (ABY, NDSS 2015, section IV), one party's half at a time. All but Y to B
//! rest on oblivious transfers with dealt masks. No call takes memory.
//!
//! | conversion | P1's choice | then |
//! |---|---|---|
//! | an input of P1 to Y | its word | `answer_y_send`, `answer_y_finish` for an input; a wire is b |
//! | B to Y | its share | the same for shares, with P0's share; a wire is the xor of a and b |
//! | A to Y | its share | the same, then `carry_send`, `carry_finish` from the lowest place up; a wire is the xor of a, b and the carry |
//! | A to B | its share | A to Y, then Y to B |
//! | Y to B | | `low_bits` |
//! | B to A | its share | `answer_a_send`, `answer_a_finish` |
//! | Y to A | its permute bits | Y to B, then B to A |
//!
//! # Guarantees
//!
//! That each conversion keeps the word, for every width, every offset whose lowest bit is 1 and all masks that agree, is what
//! share_core's `conversion_law` ensures of the formulas below (read its `specs/Conversions.antt`).
//!
//! - `choose_send` writes P1's choice of a transfer, its word masked by a dealt one, and `choose_finish` reads it (`src/choice.rt`).
//! - `answer_y_send` writes P0's answer in labels and gives its own labels; `answer_y_finish` gives P1's (`src/answer_y.rt`; read
//!   `specs/Answers.antt` too).
//! - `answer_a_send` writes P0's answer in words and gives its share at A; `answer_a_finish` gives P1's (`src/answer_a.rt`).
//! - `carry_send` writes the garbled rows of a sum's next carry and gives its zero label; `carry_finish` gives P1's label
//!   (`src/carries.rt`).
//! - `low_bits` takes the permute bits of a word's labels (share_yao's `src/words.rt`).
#![tactic(auto)]

mod answer_a;
mod answer_y;
mod carries;
mod choice;

pub use answer_a::{answer_a_finish, answer_a_send};
pub use answer_y::{Wires, answer_y_finish, answer_y_send};
pub use carries::{carry_finish, carry_send};
pub use choice::{Chosen, choose_finish, choose_send};
pub use share_yao::{Labels, low_bits};
