//! The words of a guarded program with their lists are a hardened image with the same run, and fit a file. Each call does nothing; its
//! contract is the law.
#![tactic(auto)]

mod harden_law;
mod image_fits;

pub use harden_law::{can_be_prepared, words_are_hardened, words_have_ways, words_run_as};
pub use image_fits::{aliases_are_few, hardened_fits, prepared_has_starts};
