//! One step of the evaluation of a C program: from the part that begins, or from what a frame is given, to what comes
//! next. Each step leaves what the whole run does as it is, and takes work off.
#![tactic(auto)]

mod calls;
mod steps;

pub use calls::{called, next_word};
pub use steps::{begin, resume};
