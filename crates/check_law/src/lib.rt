//! Laws of checking: a program runs the same with names replaced by positions, passes the check again, and keeps its labels.
//! Each call does nothing; its contract is the law.
#![tactic(auto)]

mod again;
mod checked_labels;
mod runs;

pub use again::{checked_again, nodes_stay, stays_light};
pub use checked_labels::stays_labelled;
pub use runs::same_run;
