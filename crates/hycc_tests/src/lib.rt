//! Tests of the commands, each by its words over files and a sink in memory.
#![tactic(auto)]

#[cfg(test)]
mod exec;
#[cfg(test)]
mod plain;
#[cfg(test)]
mod plain_rows;
#[cfg(test)]
mod runs;
