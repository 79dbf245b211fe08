//! From a checked program to three-address code in blocks.
#![tactic(auto)]

mod call_room;
mod laws;
mod lowering;

pub use call_room::room;
pub use lowering::lower;
