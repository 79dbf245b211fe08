//! What is looked at after the walk over a C program: that each function that is called has a body, that there is a `main`,
//! and the limits of the sizes (the project's own; ISO/IEC 9899:1999, 5.2.4.1); and the pairs that chains of calls take.
#![tactic(auto)]

mod call_pairs;
mod calls;
mod chains;
mod checks;
mod constants;
mod globals;
mod main_function;
mod store;
mod weights;

pub use call_pairs::pairs_of_calls;
pub use checks::limits;
