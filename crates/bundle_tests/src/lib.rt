//! Tests of bundles: what they compute and what they cost.
#![tactic(auto)]

#[cfg(test)]
mod bundles;
#[cfg(test)]
mod conjunction;
#[cfg(test)]
mod passed;
#[cfg(test)]
mod sharings;
