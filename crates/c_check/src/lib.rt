//! Checks a C program: its first fault, or the program in which each name is the position of its declaration.
#![tactic(auto)]

mod external;
mod names;
mod program;

pub use check_rules::{CheckKind, Checked, Decl};
pub use external::items;
pub use names::bodies;
pub use program::check;
