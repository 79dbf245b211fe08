//! The splitting of critical edges: each goes through a block of its own, so that no edge of the program is critical.
#![tactic(auto)]

mod counts;
mod critical;
mod place;
mod plan;

pub use critical::split;
