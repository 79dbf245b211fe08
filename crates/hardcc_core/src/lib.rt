//! The tool: one call that does what the words of the command line say.
#![tactic(auto)]

mod self_file;
mod tool;
mod unfailing;

pub use tool::run_tool;
pub use tool_outcomes::Failure;
pub use unfailing::{Discards, run_unfailing};
