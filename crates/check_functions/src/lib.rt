//! The walk of checking over function definitions and declarations (ISO/IEC 9899:1999, 6.9.1).
#![tactic(auto)]

mod items;

pub use items::function;
