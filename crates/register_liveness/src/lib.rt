//! Which variables of a program in blocks are alive where (liveness by a search over the blocks), and how far each reaches.
#![tactic(auto)]

mod blocks;
mod extents;
mod search;
mod uses;

pub use extents::{Extent, Lives};
pub use search::{Flow, wanted_blocks};
pub use uses::line_uses;
