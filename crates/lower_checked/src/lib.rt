//! What lowering asks of a checked program, and that it holds.
#![tactic(auto)]

mod counter;
mod expressions;
mod fits;
mod items;
mod leading;
mod lowering_leaf;
mod room;
mod statements;

pub use counter::{counter_unused, lowered_room, none_recursive, trimmed_is_valid};
pub use fits::checked_fits;
pub use items::tree_holds_words;
pub use leading::leads_inside;
pub use lowering_leaf::light_leaf_is_small;
pub use room::{few_blocks, has_main, has_room, light_frames, one_each};
