//! The pass that sets the two streams in turn: in each stretch of items of the streams a unit of the first, then one of the
//! second, as long as both have some left, and nops where the machine needs a word between two others.
//!
//! So the words that compute one value twice stand close to each other, as in the article on EDDI (IEEE Transactions on
//! Reliability 51(1), 2002); the order is the project's own.
#![tactic(auto)]

mod pass;
mod spaces;
mod turns;
mod unit;

pub use pass::interleave;
