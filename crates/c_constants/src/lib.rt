//! Constant expressions of the C subset (ISO/IEC 9899:1999, 6.6): their words.
#![tactic(auto)]

mod constants;

pub use constants::constant_word;
