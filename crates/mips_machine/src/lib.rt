//! A simulator of the MIPS I user subset: one call makes one step, and its contract is that the
//! step is the one that the table of instructions defines.
//!
//! The machine has a branch delay slot, and it ends with a hazard where a program uses a loaded
//! register one instruction too soon, starts a product too soon after HI or LO was read, or puts
//! a branch into a delay slot (Kane and Heinrich, *MIPS RISC Architecture*, chapters 3 and 4).
#![tactic(auto)]

ghost use Rattle.std.specs.Prelude.{◌≡◌, ◌≤◌, length, slice_index};

mod boot;
mod change;
mod effects;
mod steps;

use hard_words::Words;
pub use mips_isa::End;

/// A machine with an image in it. Text begins at 0x00400000, memory at 0x10010000.
///
/// The type keeps 32 registers with 0 in register 0, at most 66,060,288 words of text, at most
/// 4,194,304 words of memory and at most 1,000,000 words of feed.
#[derive(Drop)]
pub struct Machine {
    /// The address of the instruction that the next step executes.
    pub pc: u32,
    /// The address of the one behind it: in a delay slot, where the branch leads.
    pub npc: u32,
    /// Registers 0 to 31.
    pub regs: Words,
    /// The high word of a product, or a remainder.
    pub hi: u32,
    /// The low word of a product, or a quotient.
    pub lo: u32,
    /// The instruction words.
    pub text: Words,
    /// The words of data.
    pub memory: Words,
    /// The words that the program can ask for.
    pub feed: Words,
    /// How many of them it has got.
    pub fed: u32,
    /// The register that the last step loaded, or 0: the next step must not read it.
    pub last_load: u8,
    /// For how many steps no product or quotient may begin: 2 after HI or LO was read.
    pub quiet: u8,
    /// Whether the next step executes a delay slot.
    pub slot: bool,
    /// How the run ended, if it did.
    pub end: Option<End>,
    ghost registers: { length regs ≡ 32 },
    ghost zero: { slice_index regs 0 ≡ 0 },
    ghost text_fits: { length text ≤ 66060288 },
    ghost memory_fits: { length memory ≤ 4194304 },
    ghost feed_fits: { length feed ≤ 1000000 },
    ghost fed_fits: { fed ≤ length feed },
    ghost load_fits: { last_load ≤ 31 },
    ghost quiet_fits: { quiet ≤ 2 },
}
