//! Scopes of names (C11 6.2.1): what names are bound to, where inner declarations hide outer ones and end with their scope.
//!
//! # Guarantees
//!
//! | call | guarantee | clause | definitions to read, in order |
//! |---|---|---|---|
//! | [`Scopes::found`], [`Scopes::found_here`] | the number of the innermost declaration of a name, or of that in the innermost scope | `src/scopes.rt` | `specs/Scopes.antt` |
//! | [`Scopes::declare`], [`Scopes::open`], [`Scopes::close`] | a declaration hides those before it, until its scope is closed | `src/scopes.rt` | `specs/Scopes.antt` |
#![tactic(auto)]

mod hiding;
mod names;
mod scopes;

pub use scopes::Scopes;
