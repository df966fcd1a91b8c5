//! Tests of the Boolean circuits of modules.
#![tactic(auto)]

#[cfg(test)]
mod circuits;
#[cfg(test)]
mod modules;
