//! The interpreter of checked programs, with a stack of its own.
#![tactic(auto)]

mod evaluator;
mod machine;
mod turn;

pub use c_meaning::EvalEnd;
pub use evaluator::Evaluator;
pub use turn::Turn;
