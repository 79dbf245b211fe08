//! The pass that sets the checks: before each use of a register that acts for both streams a comparison of the two registers
//! that hold its value, over a break that reports.
//!
//! The checks are those of the article on EDDI (IEEE Transactions on Reliability 51(1), 2002), in the project's own form.
#![tactic(auto)]

mod pass;
mod uses;

pub use pass::guard;
