//! Registers for the variables of a function: places that fit.
#![tactic(auto)]

mod assigning;
mod fit;
mod gather;
mod laws;
mod small_leaf;

pub use assigning::{assign, assign_within};
pub use fit::places_fit;
pub use gather::{Span, spans};
pub use laws::few_variables;
pub use small_leaf::leaf_has_no_slots;
