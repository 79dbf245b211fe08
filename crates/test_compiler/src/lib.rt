//! Tests of the compiler in its parts: programs of the whole language, run as the language means them, as blocks and as items; and
//! signatures and aliases of graphs of blocks. They hold what no contract says: values worked out by hand, and that calls succeed
//! with ample memory.
#![tactic(auto)]

mod doubled;
#[cfg(test)]
mod graphs;
#[cfg(test)]
mod programs;

pub use doubled::doubled_program;
