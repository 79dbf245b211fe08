//! The scopes of the walk over a C program: which declaration of each name is in force.
#![tactic(auto)]

mod pending;
mod scope;
mod scopes;

pub use scopes::Scopes;
