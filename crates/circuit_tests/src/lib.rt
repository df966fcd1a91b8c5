//! Tests of gate lists, of their arenas and links, of rewriting, and of the blocks that compute operations on words.
#![tactic(auto)]

#[cfg(test)]
mod adders;
#[cfg(test)]
mod arenas;
#[cfg(test)]
mod divisions;
#[cfg(test)]
mod links;
#[cfg(test)]
mod nets;
#[cfg(test)]
mod products;
#[cfg(test)]
mod rewrites;
#[cfg(test)]
mod words;
