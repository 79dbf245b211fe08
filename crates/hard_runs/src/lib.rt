//! Two runs that are the same observed from outside, in both directions, for any two runs seen as functions from a number of
//! steps to output and end; and machines that go by steps. Its laws are the contracts of calls that do nothing.
#![tactic(auto)]

mod same;

pub use same::{same_reflexive, same_renamed, same_transitive, same_where_met};
