//! Items, blocks, programs and marks.

use hard_words::{Sequence, Words};
use mips_isa::Instr;

/// What an item is there for.
#[derive(Clone, Copy, Debug, PartialEq, Eq)]
pub enum Class {
    /// An item of the first stream.
    Master,
    /// An item of the second stream, which does the same beside it.
    Shadow,
    /// A word of a check that both streams hold the same.
    Check,
    /// An item that acts for both: a store, a branch or a jump, a service, a trap.
    Act,
    /// A word of a block's head.
    Head,
    /// A word that takes a word of the input into both streams.
    Input,
}

/// What the layout puts into the address field of an item.
#[derive(Clone, Copy, Debug, PartialEq, Eq)]
pub enum Fix {
    /// Nothing.
    Plain,
    /// The way to a block.
    Block(u32),
    /// The way to the first block of a function.
    Function(u32),
    /// The high half of the address behind the call that ends the block.
    ReturnHigh,
    /// The low half of it.
    ReturnLow,
}

/// An instruction, its class, and what the layout puts into it.
#[derive(Clone, Copy, Debug, PartialEq, Eq)]
pub struct Item {
    /// The instruction; a field that the layout fills is 0.
    pub instr: Instr,
    /// What it is there for.
    pub class: Class,
    /// What the layout puts into it.
    pub fix: Fix,
}

/// A block: the items in order, and the blocks that may come behind it, ascending.
#[derive(Debug, Drop)]
pub struct HardBlock {
    /// The items.
    pub items: Sequence<Item>,
    /// The numbers of the blocks that may come behind it.
    pub successors: Words,
}

/// A program: blocks in the order of the text, numbered from 0, where it begins.
#[derive(Debug, Drop)]
pub struct HardProgram {
    /// The blocks.
    pub blocks: Sequence<HardBlock>,
    /// The first block of each function.
    pub entries: Words,
    /// The words that memory begins with; zeros follow.
    pub initial: Words,
    /// How many words memory has.
    pub memory_words: u32,
}

/// The numbers of a block's head.
#[derive(Clone, Copy, Debug, PartialEq, Eq)]
pub struct Mark {
    /// The block's signature.
    pub s: u16,
    /// What the head puts into the signature register.
    pub d: u16,
    /// Whether the adjusting signature goes in too.
    pub fan: bool,
    /// The adjusting signature that the block leaves.
    pub adjust: u16,
}

/// A program with a mark for each block, or with none.
#[derive(Debug, Drop)]
pub struct Signed {
    /// The program.
    pub program: HardProgram,
    /// The marks.
    pub marks: Sequence<Mark>,
}
