//! The laws on the calls of a lowered program, and on the room of their chains. Each call does nothing; its contract is the law.
#![tactic(auto)]

mod lowering_calls;
mod lowering_chains;

pub use lowering_calls::{calls_are_callees, only_main_where_alone};
pub use lowering_chains::shallow_in_room;
