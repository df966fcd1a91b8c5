//! The cut of a graph into modules: runs of nodes of one class and region, which the parties compute in one sharing each.
//!
//! # Guarantees
//!
//! - `split` gives the modules of a graph by layer and then by first node, and the edges between them (`src/cutting.rt`; read
//!   `specs/Homes.antt`, then `specs/Cut.antt`).
//! - `Modules::new`, `Modules::list` and `Modules::edges` hold modules and edges as they were given (`src/module.rt`; read
//!   `specs/Pieces.antt`).
//!
//! Laws that the crates above can import, over `specs/Modules.antt`:
//!
//! | lemma of `proofs/ModuleLaws.antt` | for every cut |
//! |---|---|
//! | `IsPiece-of` | a module's nodes are over constants, its ins and its own earlier nodes; ins and nodes differ and stand, and its outs are among its nodes |
//! | `ArePartition-of` | each node but inputs and constants lies in exactly one module, so sums over modules are sums over nodes |
//! | `AreOrdered-of` | what a module uses of outside is an input or an out of an earlier module; a result that lies in a module is an out of it |
#![tactic(auto)]

mod cutting;
mod homes;
mod lists;
mod module;
mod order;
mod uses;

pub use cutting::{LAYER_LIMIT, split};
pub use module::{Class, EdgeWords, Module, Modules, Places};
