//! The aliases of a signed program: the pairs of blocks between which a head cannot tell a wrong way.
//!
//! Behind a block the heads that pass are those of its successors and of the group of its adjusted successor. So the list is made
//! by going along that group for each block, beside the block's own successors.
#![tactic(auto)]

mod groups;
mod listing;

pub use listing::aliases;
