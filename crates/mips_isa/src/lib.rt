//! The instructions of the machine: the MIPS I user subset (Kane and Heinrich, *MIPS RISC Architecture*, appendix A), the word
//! of each, and the registers that each reads and writes.
//!
//! The specs of this crate also hold the machine's step, its runs with a change and without one, and the state in which an image
//! begins. No call takes memory.
#![tactic(auto)]

mod instr;
mod masks;
mod rows;
pub mod table;

pub use instr::{Act, End, Instr};
pub use masks::{
    is_jump, is_product, reads, reads_pair, reads_register, writes, writes_pair, writes_register,
};
pub use table::{decode, decodes_encoded, encode, encodes_decoded, in_range};
