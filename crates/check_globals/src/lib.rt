//! The walk over the variables at file scope of a C program, which gives each name the position of its declaration.
#![tactic(auto)]

mod initialisers;
mod variables;
mod words;

pub use variables::globals;
