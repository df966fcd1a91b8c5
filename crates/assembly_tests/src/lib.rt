//! Tests of bundles that are assembled from graphs of words.
#![tactic(auto)]

#[cfg(test)]
mod assembled;
