//! The plan of a bundle: the list of instructions that two parties run for it, over slots that are used again, and its numbers.
//!
//! # Guarantees
//!
//! - `plan` gives the instructions that are defined for the bundle's choices, with slots in the place of shares, and the numbers of these
//!   instructions, or wants memory: while a share is live no other has its slot, and there are no more slots than shares live at one
//!   instruction (`src/planning.rt`; read `specs/Plans.antt`, `specs/Planned.antt` of share_plan, `specs/Slotting.antt` and
//!   `specs/Renamed.antt` of plan_slots, `specs/Figures.antt` of plan_figures).
//! - `Plan::of`, `Plan::instrs`, `Plan::gates`, `Plan::codes`, `Plan::shares` and `Plan::figures` make a plan of its parts and tell them. The
//!   gates of every level are of its sharing, at every moment (`src/plans.rt`; read `specs/Plans.antt`, `specs/Levels.antt`).
#![tactic(auto)]

mod planning;
mod plans;

pub use planning::plan;
pub use plans::Plan;
