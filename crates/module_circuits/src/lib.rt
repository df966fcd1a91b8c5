//! The circuits of the modules of a cut.
//!
//! # Guarantees
//!
//! - `variants_of` gives each module its circuits: valid ones, which compute the module's words for all inputs that fit, reduced, within the
//!   stated numbers and within the sizes of the module's nodes; the limit of gates comes only where these sizes add up to more
//!   (`src/circuits.rt`; read `Circuits.antt` of `bundle_laws`, then `specs/Sums.antt`).
#![tactic(auto)]

mod circuits;
mod faults;

pub use circuits::variants_of;
pub use faults::AssemblyFault;
