//! Shows a run of a checked program, as the run of a machine is shown: a line for each word that it puts out, as the words
//! come, and a line for how it ended.
#![tactic(auto)]

mod show;

pub use show::{ShowError, show_run};
