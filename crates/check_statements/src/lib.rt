//! The walk over the statements of a C program, which gives each name the position of its declaration, up to the first fault that it meets.
#![tactic(auto)]

mod labels;
mod walk;

pub use labels::Labels;
pub use walk::{statement, statements};
