//! The addresses that a function takes, by names and scopes alone (C11 6.2.1): for each name that it declares, whether `&` stands before that
//! name somewhere in the function.
//!
//! # Guarantees
//!
//! | call | guarantee | clause | definitions to read, in order |
//! |---|---|---|---|
//! | [`addressed_in`] | for each declaration of the function, in the order of the text, whether its name stands after `&` where it isn't hidden | `src/functions.rt` | of c_scopes: `specs/Scopes.antt`; `specs/Scans.antt`, `specs/Addresses.antt` |
#![tactic(auto)]

mod declarations;
mod expressions;
mod functions;
mod scan;
mod statements;

pub use functions::addressed_in;
