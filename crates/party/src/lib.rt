//! One party of the protocol: a machine that goes through a plan, turn by turn, between an inbox and an outbox. One call is one step of
//! the machine: the party's send half of an instruction, or its receive half. No call but `Party::new` takes memory.
//!
//! P0 is the garbler and P1 the evaluator. A party reads the plan and its dealt halves alone, so that two of them, over two queues, run
//! the protocol under every order of turns. Nothing is claimed of secrecy.
//!
//! # Guarantees
//!
//! All clauses stand in `src/parties.rt` but for the law's, which stands in `src/law.rt`.
//!
//! - `Party::new` gives a party that has done nothing (read `begun` in `specs/Steps.antt`); only memory can be wanting.
//! - `Party::turn` is one step of the machine for every plan and every state: the new state, the bytes that are put and the bytes that are
//!   taken are those of the definition, and nothing else changes. It answers `Waits` exactly at a receive half with an empty inbox, and
//!   `Done` exactly after the last instruction (read `turned` in `specs/Steps.antt`, then `specs/Machine.antt` of share_core, whose
//!   `machine_law` says what the shares stand for).
//! - `Party::expects` tells the code and the length of the frame that the party waits for, exactly at a receive half (read `awaited` in
//!   `specs/Steps.antt`).
//! - `Party::is_ready` is true only where the conditions of `turn` hold.
//! - `Party::openings` counts the openings that the party has ended, and `Party::opened` gives the word of one of them.
//! - `machine_states`: a word that is opened fits its width, whatever was received, and a party stands at a receive half only where it has
//!   just done the send half of the same instruction (read `specs/Laws.antt`).
//!
//! | a reader of ABY or emp looks for | in |
//! |---|---|
//! | who sends, and which function does a half | `src/halves.rt`, `src/local.rt` |
//! | P0's and P1's sides of inputs, conversions and carries | `src/garbler.rt`, `src/evaluator.rt` |
//! | inputs, openings | `src/inputs.rt`, `src/openings.rt` |
//! | conversions, with a table of their instructions | `src/conversions.rt`, `src/carries.rt` |
//! | gates of levels: triples, garbling, evaluating | `src/gate_rules.rt`, `src/levels.rt` |
#![tactic(auto)]

mod answers;
mod carries;
mod conversions;
mod evaluator;
mod framing;
mod garbler;
mod gate_rules;
mod halves;
mod inputs;
mod law;
mod levels;
mod local;
mod openings;
mod operands;
mod parties;
mod targets;

pub use answers::Turn;
pub use law::machine_states;
pub use parties::Party;
