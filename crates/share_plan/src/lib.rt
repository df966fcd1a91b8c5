//! The list of instructions that two parties run for a bundle: the offset, the inputs, each module's conversions and gates by depth, the
//! openings (ABY, NDSS 2015, with the order of the modules of HyCC, CCS 2018). Every share that is made has the next number, which stands for
//! its slot; that slots can be used again is for the crates above.
//!
//! # Guarantees
//!
//! - `script_of` gives exactly the list that is defined for the bundle's choices, or wants memory (`src/planned.rt`; read
//!   `specs/Script.antt` and `specs/Conversions.antt` of plan_script, `specs/Held.antt`, `specs/Inputs.antt`, then `specs/Gates.antt` and
//!   `specs/Levels.antt` of plan_script, `specs/Modules.antt`, `specs/Planned.antt`).
//! - `answers_of` tells of each result whether it is a constant's number or which opening it is (`src/answers.rt`; read
//!   `specs/Answers.antt`).
//!
//! | a reader of ABY looks for | in |
//! |---|---|
//! | inputs by party and sharing | `specs/Inputs.antt`, `src/inputs.rt`, with `src/owners.rt` and `src/takers.rt` |
//! | which words a module converts | `specs/Modules.antt`, `src/words.rt`, `src/modules.rt` |
//! | openings | `specs/Planned.antt`, `src/openings.rt` |
//!
//! `specs/Inbound.antt`, `specs/Takers.antt`, `specs/Owned.antt` and `specs/Leaves.antt` say what the tables hold that the
//! passes read.
#![tactic(auto)]

mod answers;
mod held;
mod inputs;
mod modules;
mod openings;
mod owners;
mod planned;
mod takers;
mod words;

pub use answers::{Answer, answers_of};
pub use planned::script_of;
