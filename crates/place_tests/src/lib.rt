//! Tests of objects and pointers as words: each index of an array, and pointers that are equal, chosen and set.
#![tactic(auto)]

#[cfg(test)]
mod accesses;
#[cfg(test)]
mod fixtures;
#[cfg(test)]
mod pointers;
