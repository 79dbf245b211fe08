//! The laws of lowering: the lowered program runs as its tree, in its room, with few words. Each call does nothing; its contract is
//! the law.
#![tactic(auto)]

mod laws;

pub use laws::{few_words, only_main_stays, runs_as_tree, stays_proper, stays_shallow};
