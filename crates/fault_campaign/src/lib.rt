//! Many flips of single bits, each in a run of its own, and how often each outcome came: a campaign of faults, after the experiments
//! of the articles on EDDI and CFCSS (IEEE Transactions on Reliability 51(1), 2002).
#![tactic(auto)]

mod compare;
mod flips;
mod outcome;
mod runs;

pub use flips::campaign;
pub use outcome::{Outcome, Tally};
