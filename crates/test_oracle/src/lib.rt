//! Runs of programs in blocks and of programs of items by plain functions whose contracts are the runs of the definitions; for tests.
#![tactic(auto)]

mod block_runner;
mod item_runner;
mod locals;
mod operation;
mod run;
mod running;

pub use block_runner::{BlockRan, run_blocks};
pub use running::{ItemRan, run_items};
