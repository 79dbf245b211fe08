//! The functions: their first blocks, which blocks are theirs, and that branches stay in them.

ghost use Rattle.std.specs.Prelude.{◌≡◌, ◌≤◌, ◌<◌, ◌+◌, ◌^◌, ◌↔◌, ◌==◌, IsTrue, nat_lt, length, take};
ghost use Rattle.std.specs.List.{list_all, list_any};
ghost use Rattle.hard_code.specs.Tested.{nearer, start, are_same, goes_well, leave_at, Differ, HoldsBelow};

use crate::leaves::{Leave, leave_at};
use hard_items::HardBlock;

/// Of a number that may be there and another one, the greater of those that aren't above a block.
fn nearer(block: usize, start: Option<u32>, entry: u32) -> Option<u32>
    ensures { result ≡ nearer block start entry }
{
    match start {
        None => {
            if entry as usize <= block {
                Some(entry)
            } else {
                None
            }
        }
        Some(start) => {
            if entry as usize <= block && start < entry {
                Some(entry)
            } else {
                Some(start)
            }
        }
    }
}

/// The first block of the function that a block is of: the greatest entry that isn't above it.
pub(crate) fn start(entries: &[u32], block: usize) -> Option<u32>
    ensures { result ≡ start entries.now block }
{
    let mut start = None;
    for entry in entries {
        start = nearer(block, start, *entry);
    }
    start
}

/// Whether two numbers are both there and the same, or both not there.
fn are_same(left: Option<u32>, right: Option<u32>) -> bool
    ensures { result ≡ are_same left right }
{
    match left {
        Some(left) => {
            match right {
                Some(right) => left == right,
                None => false,
            }
        }
        None => {
            match right {
                Some(_) => false,
                None => true,
            }
        }
    }
}

/// Whether the blocks that a branch leads to are there and of its function.
fn stays(entries: &[u32], blocks: usize, block: usize, to: u32) -> bool
    requires { block < blocks }
    ensures { result ≡ goes_well blocks entries.now block (Leave.Branch to) }
{
    if blocks - block < 2 {
        return false;
    }
    let own = start(entries, block);
    are_same(own, start(entries, to as usize)) && are_same(own, start(entries, block + 1))
}

/// Whether a branch stays in its function and a call has a block behind it.
fn goes_well(entries: &[u32], blocks: usize, block: usize, leave: Leave) -> bool
    requires { block < blocks }
    ensures { result ≡ goes_well blocks entries.now block leave }
{
    match leave {
        Leave::Branch(to) => stays(entries, blocks, block, to),
        Leave::Call(_) => blocks - block >= 2,
        Leave::Jump(_) | Leave::Return | Leave::Stop => true,
    }
}

/// Whether that is so of each block.
pub(crate) fn each_goes_well(blocks: &[HardBlock], entries: &[u32]) -> bool
    ensures { IsTrue result ↔ HoldsBelow (λ b. goes_well (length blocks.now) entries.now b (leave_at blocks.now b)) (length blocks.now) }
{
    for block in 0..blocks.len() {
        if !goes_well(entries, blocks.len(), block, leave_at(blocks, block)) {
            return false;
        }
    }
    true
}

/// Whether each entry is the number of a block.
pub(crate) fn are_there(entries: &[u32], blocks: usize) -> bool
    ensures { result ≡ list_all (λ e. nat_lt e blocks) entries.now }
{
    entries.iter().all(|entry| (*entry as usize) < blocks)
}

/// Whether a number is one of some numbers.
fn is_among(entries: &[u32], number: u32) -> bool
    ensures { result ≡ list_any (λ e. e == number) entries.now }
{
    entries.iter().any(|entry| *entry == number)
}

/// Whether no two entries are the same.
pub(crate) fn differ(entries: &[u32]) -> bool
    ensures { IsTrue result ↔ Differ entries.now }
{
    for (at, entry) in entries.iter().enumerate() {
        if is_among(&entries[..at], *entry) {
            return false;
        }
    }
    true
}
