//! The pass that makes the code twice: every value is computed in two streams of instructions, in different registers and words of
//! memory.
//!
//! The doubling is that of the article on EDDI (IEEE Transactions on Reliability 51(1), 2002), in the project's own form.
#![tactic(auto)]

mod basic;
mod blocks;
mod ends;
mod operations;
mod pass;
mod places;
mod starts;
mod steps;
mod tables;

pub use pass::duplicate;
