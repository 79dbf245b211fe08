//! Three-address code in blocks: its form, its run, liveness, and which programs are valid. Definitions, with the types.
#![tactic(auto)]

mod code;
mod places;

pub use code::{Mid, MidBlock, MidEnd, MidFunction, MidOp, MidStep, RunEnd};
pub use places::{Place, Places};
