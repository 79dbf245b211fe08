//! What a program of the C subset means by ISO/IEC 9899:1999: its output and its end for each input, as far as some fuel lasts;
//! the operators, and the laws of the meaning.
#![tactic(auto)]

mod laws;
mod operators;
mod run;

pub use laws::{calls_return, levels_agree, more_fuel, output_is_added, recursive_is_chain};
pub use operators::{binary_type, operate, operate_unary, unary_type};
pub use run::{EvalEnd, Flow, Place, Value};
