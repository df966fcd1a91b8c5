//! Two parties of a plan are an instance of the theorem of schedules: a turn of a party is a step of the plan's protocol.
//!
//! # Guarantees
//!
//! - `pair_law`: parties that have done nothing stand at the protocol's start. After any list of its steps a turn of a party brings the party's
//!   state, its inbox and its outbox, the bytes of the frames that wait in each direction, to where the protocol's step does, and answers as
//!   the step goes: it moved, it waits for a frame, or it is done (`src/law.rt`; read `specs/Pair.antt`, then `specs/Steps.antt` of party and
//!   `specs/Turns.antt` of schedules, whose `schedule_law` says that every order of turns ends as the plain order does).
//!
//! The premise is that the gates of each level of the plan are of the level's sharing.
#![tactic(auto)]

mod law;

pub use law::pair_law;
