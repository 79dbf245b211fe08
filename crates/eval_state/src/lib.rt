//! The state of a C program's run: its variables at file scope and in the present call, its input, its fuel, and how many
//! calls of recursive functions are active.
#![tactic(auto)]

mod active;
mod files;
mod memory;
mod params;
mod scopes;
pub mod table;

pub use active::Active;
pub use memory::Memory;
pub use scopes::Scopes;
