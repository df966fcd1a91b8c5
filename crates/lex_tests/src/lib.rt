//! Tests of the scanner and the lexer: short texts with their tokens or first faults, and texts at the limits.
#![tactic(auto)]

#[cfg(test)]
mod lex;
#[cfg(test)]
mod scan;
#[cfg(test)]
mod table;
