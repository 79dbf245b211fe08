//! Tests of the passes of the back end: where the variables of a function are live, where they stand, how the streams take turns, and
//! which programs of items are well formed. They hold what no contract says: values counted by hand, and that calls succeed with
//! ample memory.
#![tactic(auto)]

#[cfg(test)]
mod forms;
#[cfg(test)]
mod places;
mod turns;

pub use turns::take_turns;
