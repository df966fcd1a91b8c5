//! What the three sharings of ABY (NDSS 2015) have in common: arithmetic shares (A), Boolean shares (B) and the labels of garbled
//! circuits (Y). Here stand the interface of a secret-sharing scheme with its law, the instructions of a plan, the machine of one
//! party that runs them with the one law of all instructions, and the frames that messages travel in. No call takes memory.
//!
//! The parties are semi-honest, and all correlated randomness is dealt: Beaver triples, the masks of oblivious transfers, labels. P0
//! is the garbler and P1 the evaluator. Nothing is claimed of secrecy.
//!
//! # Guarantees
//!
//! - `run_both` gives two shares that stand for the operation's value, in every scheme that meets `Sharing` (`src/together.rt`; read
//!   `src/sharing.rt`).
//! - `machine_law`: where two parties' slots stand for the values of an instruction's operands and the dealt halves agree, their new
//!   shares stand for the instruction's values, and an opening gives both its word. It says so of every kind of instruction
//!   (`src/law.rt`; read `specs/Machine.antt`, `specs/Clear.antt`, `specs/SharingLaw.antt`).
//! - `level_law` tells a level's message, shares, length and words gate by gate, from the front and by its last gate (`src/law.rt`;
//!   read `specs/Levels.antt`).
//! - `instr_law`, `boolean_law`, `garbled_law` and `conversion_law` say the same of the formulas of one sharing at a time, and
//!   `length_law` how long messages at A and B are (`src/law.rt`; read `specs/Instructions.antt`, `specs/Boolean.antt`,
//!   `specs/Garbled.antt`, `specs/Conversions.antt`, `specs/Dealing.antt`).
//! - `InstrKind::frame_code` and `InstrKind::has_frame` tell the code of a kind's frames and who sends one, and `Instr::sent` how many
//!   bytes (`src/sizes.rt`; read `specs/Instructions.antt`, `specs/Sizes.antt`).
//! - `frame` writes the frame of a payload, and `deframe` is Ok exactly where bytes begin with the frame that is wanted
//!   (`src/frames.rt`; read `specs/Frames.antt`).
//! - `write_number`, `read_number` and `byte_count` turn words into bytes, lowest byte first, and back (`src/byte_numbers.rt`; read
//!   `specs/Bytes.antt`).
//!
//! | definitions | of |
//! |---|---|
//! | `specs/Bytes.antt` | numbers as bytes, lowest byte first; lists of words |
//! | `specs/Frames.antt` | frames, and the answer to bytes that are to begin with one |
//! | `specs/Roles.antt` | the other party; a party's number |
//! | `specs/Arithmetic.antt` | arithmetic shares: what they stand for, and products by a Beaver triple |
//! | `specs/Instructions.antt` | the codes of frames and who sends them; what each instruction at A sends, gives and stands for |
//! | `specs/Boolean.antt` | Boolean shares: the same of bits and words, of Ands by a triple of bits, and of codes over slots |
//! | `specs/Garbled.antt` | labels: the free-XOR offset, the hash, half gates, the labels of a word, openings by permute bits |
//! | `specs/Conversions.antt` | oblivious transfers as choices and answers, carries, and what each conversion gives |
//! | `specs/Sizes.antt` | how many bytes each party sends for each kind |
//! | `specs/Dealing.antt` | how many words are drawn for each kind, and each role's half of them |
//! | `specs/Levels.antt` | all gates of one depth as one instruction |
//! | `specs/Machine.antt` | the machine of one party: each kind of instruction as one block |
//! | `specs/Clear.antt` | instructions on values in the clear |
//! | `specs/SharingLaw.antt` | what slots stand for, and the law of all instructions |
//!
//! Laws that the crates above can import:
//!
//! | lemmas | on |
//! |---|---|
//! | `proofs/ByteLaws.antt` | the length and the number of a number's bytes, at any length and at the widths of words; the parts of a message |
//! | `proofs/FrameLaws.antt` | what the head of a frame says, and the length of a frame |
//! | `proofs/ArithmeticLaws.antt` | sums, differences and products of shares modulo any number; products by a triple from the messages; cuts to a narrower width |
//! | `proofs/InstructionLaws.antt` | what the new shares of each instruction at A stand for; that dealt halves agree |
//! | `proofs/BooleanLaws.antt` | the same at B, with xors of bits and words |
//! | `proofs/GarbledLaws.antt` | the same at Y: labels and their bytes, both half gates, pieces of messages, words of bits |
//! | `proofs/ConversionLaws.antt` | transfers, sums bit by bit, and each conversion |
//! | `proofs/SizeLaws.antt` | the lengths of the messages at A and at B |
//! | `proofs/LevelLaws.antt` | levels gate by gate |
//! | `proofs/SlotLaws.antt` | lists of slots and the words that stand in them, bit by bit |
//! | `proofs/SharingLaws.antt`, `proofs/MachineLaws.antt`, `proofs/ResultLaws.antt` | the law of all instructions, kind by kind; openings, choices and lengths; what a run keeps from one instruction to the next |
#![tactic(auto)]

mod byte_numbers;
mod frames;
mod instr;
mod labels;
mod law;
mod sharing;
mod sizes;
mod together;

pub use byte_numbers::{byte_count, read_number, write_number};
pub use frames::{FrameFault, HEAD, deframe, frame};
pub use instr::{Half, Halves, Instr, InstrKind};
pub use labels::{Label, Offset};
pub use law::{
    boolean_law, conversion_law, garbled_law, instr_law, length_law, level_law, machine_law,
};
pub use sharing::Sharing;
pub use together::{Side, run_both};
