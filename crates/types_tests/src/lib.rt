//! Tests of the typing of programs: short texts with their sizes or first faults.
#![tactic(auto)]

#[cfg(test)]
mod rows;
#[cfg(test)]
mod table;
