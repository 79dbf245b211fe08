//! Functions of the C subset and whole programs, lowered to three-address code in blocks.
#![tactic(auto)]

mod bodies;
mod functions;
mod whole;

pub use functions::function;
pub use whole::program;
