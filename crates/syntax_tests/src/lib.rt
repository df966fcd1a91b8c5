//! Tests of the trees of programs and of how they are read from tokens: short texts with their trees or first faults,
//! nesting at its limit, long texts, expressions inside of lists, and copies of tokens.
#![tactic(auto)]

#[cfg(test)]
mod copies;
#[cfg(test)]
mod longest;
#[cfg(test)]
mod nesting;
#[cfg(test)]
mod print;
#[cfg(test)]
mod print_items;
#[cfg(test)]
mod rows;
#[cfg(test)]
mod source;
#[cfg(test)]
mod table;
