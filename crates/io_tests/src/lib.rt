//! Tests of what hycc reads and writes beside sources: files and sinks, cost tables, inputs and results.
#![tactic(auto)]

#[cfg(test)]
mod files;
#[cfg(test)]
mod inputs;
#[cfg(test)]
mod rows;
#[cfg(test)]
mod table;
#[cfg(test)]
mod tables;
