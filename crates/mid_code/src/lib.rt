//! Three-address code in blocks, handed on; and whether a program in it is valid, by a plain function.
#![tactic(auto)]

mod entries;
mod marks;
mod naming;
mod programs;
mod validity;

pub use hard_words::Sequence;
pub use mid_blocks::{Mid, MidBlock, MidEnd, MidFunction, MidOp, MidStep, Place, Places, RunEnd};
pub use programs::valid;
pub use validity::valid_function;
