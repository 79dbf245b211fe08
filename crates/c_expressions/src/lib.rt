//! Reads expressions of the C subset from tokens (ISO/IEC 9899:1999, 6.5).
#![tactic(auto)]

mod expressions;

pub use expressions::{read_assign, read_comma, read_cond, unboxed};
