//! Small texts: numbers that a program is fed with, a file of one fault, a number of a command line, and a word as a decimal
//! number.
#![tactic(auto)]

mod faults;
mod hex;
mod inputs;
mod numbers;
mod print;

pub use faults::{FaultError, read_fault};
pub use inputs::{LinesError, read_inputs};
pub use numbers::number_up_to;
pub use print::print_word;
