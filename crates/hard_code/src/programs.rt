//! Whether a program is well formed.

ghost use Rattle.std.specs.Prelude.{◌≡◌, ◌↔◌, IsTrue, All, length};
ghost use Rattle.hard_items.specs.WellFormed.{WellFormed};
ghost use Rattle.hard_code.specs.Tested.{ItemsFit, numbers_fit, FunctionsFit, SuccessorsFit};

use crate::entering::{each_called, each_entered};
use crate::functions::{are_there, differ, each_goes_well};
use crate::items::items_fit;
use crate::returns::return_once;
use crate::successors::each_follows;
use hard_items::{HardBlock, HardProgram};

/// Whether there is a block and memory, both few enough, and the initial words fit.
fn numbers_fit(program: &HardProgram) -> bool
    ensures { result ≡ numbers_fit program.now }
{
    program.blocks.len() > 0
        && (program.blocks.len() < 4_294_967_296
            && (program.initial.len() <= program.memory_words as usize
                && (program.memory_words >= 1 && program.memory_words <= 4_194_304)))
}

/// Whether the items of each block fit a program with so many functions.
fn each_fits(blocks: &[HardBlock], entries: usize) -> bool
    ensures { IsTrue result ↔ All (λ b. ItemsFit (length blocks.now) entries b.items) blocks.now }
{
    for block in blocks {
        if !items_fit(block.items.as_slice(), blocks.len(), entries) {
            return false;
        }
    }
    true
}

/// Whether the functions are those of a well-formed program.
fn functions_fit(blocks: &[HardBlock], entries: &[u32]) -> bool
    ensures { IsTrue result ↔ FunctionsFit blocks.now entries.now }
{
    if !are_there(entries, blocks.len()) {
        return false;
    }
    if !differ(entries) {
        return false;
    }
    if !each_called(blocks, entries) {
        return false;
    }
    each_goes_well(blocks, entries) && return_once(blocks, entries)
}

/// Whether the lists of successors are what the blocks say, and each block is entered.
fn successors_fit(blocks: &[HardBlock], entries: &[u32]) -> bool
    ensures { IsTrue result ↔ SuccessorsFit blocks.now entries.now }
{
    each_follows(blocks, entries) && each_entered(blocks)
}

/// Whether a program is well formed. It takes no memory. It looks at each item once, and at each block once more for each
/// 65,536 blocks; at the entries once for each block that ends by a branch or a return, and at the blocks once for each return,
/// so its time grows with the blocks times the entries.
pub fn well_formed(program: &HardProgram) -> bool
    ensures { IsTrue result ↔ WellFormed program.now }
{
    let blocks = program.blocks.as_slice();
    let entries = program.entries.as_slice();
    if !numbers_fit(program) {
        return false;
    }
    if !each_fits(blocks, entries.len()) {
        return false;
    }
    functions_fit(blocks, entries) && successors_fit(blocks, entries)
}
