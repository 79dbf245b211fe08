//! Items: instructions with what the passes know of them, in blocks. Their form, their run, their streams, their rules. Definitions,
//! with the types.
#![tactic(auto)]

mod code;

pub use code::{Class, Fix, HardBlock, HardProgram, Item, Mark, Signed};
