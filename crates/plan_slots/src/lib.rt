//! Slots for the shares of a list of instructions: every share has a slot of its own while it is live, and slots are used again.
//!
//! # Guarantees
//!
//! - `slots_of` gives each share a slot: while a share is live no other has its slot, and there are no more slots than shares that are live
//!   at one instruction (`src/slotting.rt`; read `specs/Operands.antt`, `specs/Lives.antt`, `specs/Slotting.antt`).
//! - `slots_agree`: by slots every step uses the values that it uses by shares, whatever values are and whatever the steps make of them, where
//!   each share that is used was made before (`src/law.rt`; read `specs/Memory.antt`).
//! - `renamed`, `renamed_instrs` and `renamed_codes` put slots in the place of shares, in instructions and in codes (`src/renaming.rt`; read
//!   `specs/Renamed.antt`).
//!
//! A share is live from the instruction that makes it to the last one that makes or uses it. `specs/Allocation.antt` has the walk that gives
//! slots, and `specs/LastTouches.antt` the table that it reads.
#![tactic(auto)]

mod allocation;
mod last_touches;
mod law;
mod operands;
mod renaming;
mod slotting;

pub use law::slots_agree;
pub use operands::Form;
pub use renaming::{renamed, renamed_codes, renamed_instrs};
pub use slotting::{Slots, slots_of};
