//! That of each function at most one block returns.

ghost use Rattle.std.specs.Prelude.{◌≡◌, ◌↔◌, IsTrue, Some};
ghost use Rattle.hard_code.specs.Tested.{are_one, start, leave_at, returns_at, ReturnsOnce};

use crate::functions::start;
use crate::leaves::{Leave, leave_at};
use hard_items::HardBlock;

/// Whether two numbers are both there and the same.
pub(crate) fn are_one(left: Option<u32>, right: Option<u32>) -> bool
    ensures { result ≡ are_one left right }
{
    match left {
        Some(left) => {
            match right {
                Some(right) => left == right,
                None => false,
            }
        }
        None => false,
    }
}

/// The first block of the function from which a block returns, if it returns from one.
fn returns_at(blocks: &[HardBlock], entries: &[u32], block: usize) -> Option<u32>
    ensures { result ≡ returns_at blocks.now entries.now block }
{
    match leave_at(blocks, block) {
        Leave::Return => start(entries, block),
        Leave::Jump(_) | Leave::Branch(_) | Leave::Call(_) | Leave::Stop => None,
    }
}

/// Whether of each function at most one block returns. The blocks of a function stand side by side, so it is enough to look at
/// the last return before each one.
pub(crate) fn return_once(blocks: &[HardBlock], entries: &[u32]) -> bool
    ensures { IsTrue result ↔ ReturnsOnce blocks.now entries.now }
{
    let mut last = None;
    for block in 0..blocks.len() {
        let entry = returns_at(blocks, entries, block);
        if are_one(last, entry) {
            return false;
        }
        if entry.is_some() {
            last = entry;
        }
    }
    true
}
