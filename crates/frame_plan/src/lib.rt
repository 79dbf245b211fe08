//! Where the globals and the frames of calls stand in memory: each scalar and each element takes eight bytes, a master word and
//! its shadow four bytes above it.
#![tactic(auto)]

mod numbers;

pub use numbers::{Frames, plan};
