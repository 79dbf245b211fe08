//! From a signed program of items to the words of its text, with the starts of its blocks.
#![tactic(auto)]

mod emit;
mod laid;
mod offsets;
pub mod table;

pub use far_branches::widen;
pub use laid::{Laid, layout};
