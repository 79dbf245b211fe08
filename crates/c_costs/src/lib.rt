//! The weight of a function of a C program, and the block cost of a program, a bound on the blocks of its translation, in a time
//! that grows with the tree's size alone.
#![tactic(auto)]

mod bodies;
mod costs;
mod weights;

pub use costs::block_cost;
pub use weights::weight;
