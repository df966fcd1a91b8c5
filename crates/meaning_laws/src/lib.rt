//! Laws of the meaning of typed programs, which say more than its definitions.
//!
//! # Guarantees
//!
//! | call | guarantee | clause | definitions to read, in order |
//! |---|---|---|---|
//! | [`past_ends_all`] | where a statement passes the bound of a loop, no statement after it runs, and the whole run gives zeros | `src/laws.rt` | `specs/Past.antt` |
//! | [`struct_copy`] | a struct that is copied has the cells of the other, set or not, and tells nothing undefined | `src/laws.rt` | `specs/Copies.antt` |
#![tactic(auto)]

mod laws;

pub use laws::{past_ends_all, struct_copy};
