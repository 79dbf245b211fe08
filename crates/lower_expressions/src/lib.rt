//! The lines of expressions of the C subset, put one behind another into blocks.
#![tactic(auto)]

mod builder;
mod counts;
mod expressions;
mod steps;
pub mod table;

pub use builder::Builder;
pub use counts::{test_blocks, value_blocks};
pub use expressions::{After, condition, value};
pub use table::{Callee, Known, Shape, Symbol, Table, Target, Variable, symbol_named};
