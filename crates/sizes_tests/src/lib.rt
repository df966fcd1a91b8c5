//! Tests of constant expressions, of loops that count, and of the sizes of programs.
#![tactic(auto)]

#[cfg(test)]
mod constants;
#[cfg(test)]
mod counting;
#[cfg(test)]
mod sizes;
#[cfg(test)]
mod trees;
