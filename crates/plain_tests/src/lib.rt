//! Tests of the runs of typed programs.
#![tactic(auto)]

#[cfg(test)]
mod loops;
#[cfg(test)]
mod operators;
#[cfg(test)]
mod trees;
