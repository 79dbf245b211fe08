//! Branches whose goal is out of reach in their far form, with blocks that only jump on.
#![tactic(auto)]

mod far;
mod goals;

pub use far::widen;
