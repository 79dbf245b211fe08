//! The windows of a text: the pairs of an address and a register of which a fault may go unseen.
#![tactic(auto)]

mod listing;

pub use listing::windows;
