//! The numbers of the blocks' heads: signatures, what a head puts into the signature register, and adjustments, so that the
//! check at each head passes behind each predecessor of its block. The numbers are the project's own, after the article on
//! CFCSS (IEEE Transactions on Reliability 51(1), 2002).
#![tactic(auto)]

mod edges;
mod groups;
mod laws;
mod numbers;

pub use laws::{heads_keep, heads_never_report};
pub use numbers::sign;
