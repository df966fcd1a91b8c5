//! Tests of the requests of lists of words, and of generated work.
#![tactic(auto)]

#[cfg(test)]
mod requests;
#[cfg(test)]
mod rows;
#[cfg(test)]
mod work;
