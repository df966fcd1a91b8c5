//! Labels of garbled circuits, the sharing Y, by half gates (Zahur, Rosulek, Evans, Eurocrypt 2015) with free XORs and
//! point-and-permute: the garbler P0 holds the zero label of a wire, and the evaluator P1 the label of the wire's bit, which for the
//! bit 1 is the zero label xor the run's free-XOR offset. No call takes memory.
//!
//! The hash of a gate is SHA-256 of 24 bytes, one compression, by the toolchain's `sha2`. A party calls `garble` or `evaluate`: they
//! take four and two compressions. `Yao::send` and `Yao::finish` of an And, which the scheme's law speaks of, take six together at P0.
//!
//! # Guarantees
//!
//! - `Yao` is a secret-sharing scheme: the two labels after an And or an Xor stand for its value, under every offset whose lowest bit
//!   is 1. For an And P0 sends two garbled rows, an Xor sends nothing (`src/yao.rt`; read `src/sharing.rt` of share_core, then
//!   `specs/Operations.antt`).
//! - `garble` writes P0's garbled rows of a gate and gives its new zero label; `evaluate` gives P1's new label from the rows
//!   (`src/gates.rt`; read `specs/Garbled.antt` of share_core, whose `garbled_law` says what the labels stand for).
//! - `label_xor`, `label_for`, `low_bit`, `code_label`, `read_label`, `write_label` and `put_label` are the operations on one label:
//!   xor, the label of a bit on a wire, its permute bit, the label of the bit that a code over slots means, and bytes
//!   (`src/labels.rt`; read the same).
//! - `input_send` and `input_labels` do the two parties' parts of an input of P0, `open_send` and `opened` those of an opening;
//!   `low_bits` takes the permute bits of a word's labels, which are shares at B of the same word (`src/words.rt`; read the same).
//! - `instr_sent`, `dealt_label`, `bit_of` and `Labels` are how many bytes a role sends, a label in a half, a bit of a word, and the
//!   labels of a word (`src/words.rt`; read the same).
//!
//! | definitions | of |
//! |---|---|
//! | `specs/Operations.antt` | the operations: their values, messages and new labels, and what is dealt for them |
//! | `specs/Law.antt` | the laws of the sharing, with their proofs by cases |
#![tactic(auto)]

mod gates;
mod labels;
mod words;
mod yao;

pub use gates::{evaluate, garble};
pub use labels::{code_label, label_for, label_xor, low_bit, put_label, read_label, write_label};
pub use words::{
    Labels, bit_of, dealt_label, input_labels, input_send, instr_sent, low_bits, open_send, opened,
};
pub use yao::{Yao, YaoDealt, YaoOp};
