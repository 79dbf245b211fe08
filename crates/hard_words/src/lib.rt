//! Words of 32 bits: their arithmetic, lists of them and of other items, and a change of one step of a run.
//!
//! A word is a `u32` with no sign of its own. The arithmetic is that of the MIPS I user instructions (Kane and Heinrich,
//! *MIPS RISC Architecture*, appendix A): sums, differences and products modulo 2^32, products of 64 bits in two halves,
//! quotients with remainders, shifts by the low five bits, comparisons and sign extension, each with and without sign where
//! the two differ. A word read with its sign is its number in two's complement. No call of it takes memory, and each is total;
//! only [`flip_bit`] has a condition.
#![tactic(auto)]

mod arithmetic;
mod list;
mod sequence;

pub use arithmetic::{
    add, divide, divide_signed, flip_bit, less, less_signed, mul, product, product_signed,
    shift_left, shift_right, shift_right_signed, sign16, sub,
};
pub use list::Words;
pub use sequence::Sequence;
use std::alloc::{AllocError, AllocFailed};

/// There was no memory. Each call that takes memory answers this, or a variant of this name, where none is left.
#[derive(Clone, Copy, Debug, PartialEq, Eq)]
pub struct OutOfMemory;

impl From<AllocError> for OutOfMemory {
    fn from(_error: AllocError) -> OutOfMemory {
        OutOfMemory
    }
}

impl<T: Drop> From<AllocFailed<T>> for OutOfMemory {
    fn from(_error: AllocFailed<T>) -> OutOfMemory {
        OutOfMemory
    }
}

/// A change of one step of a run.
#[derive(Clone, Copy, Debug, PartialEq, Eq)]
pub struct Change {
    /// The number of the step, counted from 0.
    pub step: u64,
    /// What is changed at it.
    pub kind: ChangeKind,
}

/// What a change changes.
#[derive(Clone, Copy, Debug, PartialEq, Eq)]
pub enum ChangeKind {
    /// Just before the step, one bit of a general register is inverted. `reg` and `bit` are at most 31; register 0 stays 0.
    Flip { reg: u8, bit: u8 },
    /// Just after a step that was of a branch or a jump, the word behind its delay slot is the one at this address.
    Divert { to: u32 },
    /// Just before the step, this word is put in a place.
    Set { place: SetPlace, word: u32 },
}

/// A place of the machine's state that holds a word.
#[derive(Clone, Copy, Debug, PartialEq, Eq)]
pub enum SetPlace {
    /// A general register, 0 to 31; register 0 stays 0.
    Reg(u8),
    /// HI.
    Hi,
    /// LO.
    Lo,
    /// The word of memory at an address; an address that is none of a word of memory changes nothing.
    Memory(u32),
}
