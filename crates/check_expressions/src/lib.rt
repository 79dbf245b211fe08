//! The walk over the expressions of a C program, which gives each name the position of its declaration, and constant expressions.
#![tactic(auto)]

mod constants;
mod expressions;

pub use constants::{constant_part, constant_with_word, place_of};
pub use expressions::{is_void, require, value, walk};
