//! Tests of the shares: frames, the three sharings A, B and Y, the conversions between them, and the dealer.
//!
//! # Guarantees
//!
//! None: there is no public call here. Each test is named by what it shows, and its expected values come from outside: from
//! hand-computed cases, from Python's `hashlib`, or from an implementation of ChaCha20 and of the messages in Python.
#![tactic(auto)]

#[cfg(test)]
mod arithmetic;
#[cfg(test)]
mod boolean;
#[cfg(test)]
mod conversions;
#[cfg(test)]
mod dealing;
#[cfg(test)]
mod framing;
#[cfg(test)]
mod instruction;
#[cfg(test)]
mod labels;
