//! Tests of graphs of words, of the modules that they are cut into, and of the modules of the arithmetic class.
#![tactic(auto)]

#[cfg(test)]
mod graphs;
#[cfg(test)]
mod modules;
#[cfg(test)]
mod rings;
