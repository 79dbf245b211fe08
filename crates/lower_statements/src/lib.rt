//! The lines of statements of the C subset, put one behind another into blocks.
#![tactic(auto)]

mod context;
mod counts;
mod labels;
mod lines;
mod steps;

pub use context::Context;
pub use counts::list_blocks;
pub use lines::statements;
