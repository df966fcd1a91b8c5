//! Sums over the first instructions of a plan, and how far they can grow within a stretch.
//!
//! # Guarantees
//!
//! - `stretch_law`: where a party receives nothing strictly between two instructions, the weights from the first of them to the second, both counted,
//!   are no more than the greatest stretch's (`src/law.rt`; read `specs/Sums.antt`, then `specs/Figures.antt` of plan_figures).
//!
//! | lemmas | on |
//! |---|---|
//! | `proofs/SumLaws.antt` | sums over more instructions, and stretches |
#![tactic(auto)]

mod law;

pub use law::stretch_law;
