//! Which functions of a C program call which, and which of them calls lead to from one of them: in particular which reach
//! themselves (ISO/IEC 9899:1999, 6.5.2.2, 11).
#![tactic(auto)]

mod calls;
mod graph;
mod search;

pub use graph::{CallGraph, call_graph};
pub use search::{reached_from, recursive_functions, recursive_in};
