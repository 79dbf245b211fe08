//! Programs made by number: a generator of C sources for tries of the compiler. It is the project's own.
//!
//! [`make`] gives the text of a program of so many functions, whose constants and operators follow from a number by the linear
//! congruence x := (75 x + 74) modulo 65537.
#![tactic(auto)]

mod draws;
mod program;
mod text;

pub use program::make;
