//! Leaves out of a program in blocks what can't be reached, and globals that nothing names.
#![tactic(auto)]

mod globals;
mod lowering_trim;
mod marks;
mod numbers;
mod pruning;
mod reaching;

pub use globals::trim;
pub use lowering_trim::trimmed_stays;
pub use marks::Marks;
pub use pruning::prune;
pub use reaching::reached;
