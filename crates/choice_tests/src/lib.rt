//! Tests of costs and bounds, of the search for the least list of choices, and of the check of its certificate.
#![tactic(auto)]

#[cfg(test)]
mod costs;
#[cfg(test)]
mod samples;
#[cfg(test)]
mod searches;
#[cfg(test)]
mod trees;
