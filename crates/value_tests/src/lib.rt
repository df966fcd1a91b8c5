//! Tests of words, texts, shapes and the other small values: what a C compiler computes, and each call once.
#![tactic(auto)]

#[cfg(test)]
mod operations;
