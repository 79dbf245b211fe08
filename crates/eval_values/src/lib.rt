//! Steps of the evaluation of a C program: values, places and types of expressions.
#![tactic(auto)]

mod places;
mod types;
mod values;

pub use places::{assigned, bumped, fetched, index_of, initialised, stored, stored_by};
pub use types::choice;
pub use values::{arguments, converted, logic, next_argument, operated, truth, unary};
