//! The laws of what moves blocks before they are laid out: far branches and split edges keep the run, the counts and what the layout
//! asks, and split programs have no alias. Each call does nothing; its contract is the law.
#![tactic(auto)]

mod smooth_law;
mod split_law;
mod widen_law;

pub use smooth_law::{
    groups_are_one, smooth_by_graph, smooth_by_ways, smooth_has_no_alias, smooth_lists_none,
    smooth_words_have_no_alias,
};
pub use split_law::{
    smoothed_is_smooth, smoothed_keeps_counts, smoothed_keeps_runs, widened_keeps_smooth,
};
pub use widen_law::{
    widened_can_be_laid, widened_keeps_counts, widened_keeps_runs, widened_reaches,
};
