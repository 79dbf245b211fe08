//! Steps of the evaluation of a C program: statements and loops.
#![tactic(auto)]

mod loops;
mod statements;

pub use loops::{after_first, after_turn, first_turn, next_turn, whole_loop};
pub use statements::{
    after_switch, block, branch, closed, declared, for_loop, normal_then, switched,
};
