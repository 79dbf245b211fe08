//! The lists of successors: each is the list of the blocks that may come behind its block, ascending.

ghost use Rattle.std.specs.Prelude.{◌≡◌, ℕ, ◌+◌, ◌<◌, ◌↔◌, ◌∷◌, [], IsTrue, Some, length, slice_get};
ghost use Rattle.hard_items.specs.declared.code.HardBlock.{HardBlock};
ghost use Rattle.hard_code.specs.Tested.{in_order, calls_at, behind_calls, followers, start, leave, Follow};

use crate::functions::start;
use crate::leaves::{Leave, block_leave};
use crate::returns::are_one;
use hard_items::HardBlock;

/// Whether a list has one number, this one.
fn is_one(list: &[u32], number: usize) -> bool
    ensures { IsTrue result ↔ (list.now ≡ number ∷ []) }
{
    list.len() == 1 && list[0] as usize == number
}

/// Whether a list has two numbers, these.
fn is_two(list: &[u32], first: usize, second: usize) -> bool
    ensures { IsTrue result ↔ (list.now ≡ first ∷ second ∷ []) }
{
    list.len() == 2 && (list[0] as usize == first && list[1] as usize == second)
}

/// Whether a list has two numbers in order, or one where they are the same.
fn is_order(list: &[u32], left: usize, right: usize) -> bool
    ensures { IsTrue result ↔ (list.now ≡ in_order left right) }
{
    if left < right {
        return is_two(list, left, right);
    }
    if right < left {
        return is_two(list, right, left);
    }
    is_one(list, left)
}

/// Whether a leave calls the function with a first block.
fn calls_at(entries: &[u32], entry: Option<u32>, leave: Leave) -> bool
    ensures { result ≡ calls_at entries.now entry leave }
{
    match leave {
        Leave::Call(function) => are_one(entries.get(function as usize).copied(), entry),
        Leave::Jump(_) | Leave::Branch(_) | Leave::Return | Leave::Stop => false,
    }
}

/// Whether a list is that of the blocks behind the calls of the function with a first block.
fn is_behind_calls(list: &[u32], blocks: &[HardBlock], entries: &[u32], entry: Option<u32>) -> bool
    ensures { IsTrue result ↔ (list.now ≡ behind_calls entries.now entry 0 blocks.now) }
{
    let mut at: usize = 0;
    for (number, block) in blocks.iter().enumerate() {
        if calls_at(entries, entry, block_leave(block)) {
            if at >= list.len() || list[at] as usize != number + 1 {
                return false;
            }
            at += 1;
        }
    }
    at == list.len()
}

/// Whether a list is that of the first block of a function, if there is one.
fn is_entry(list: &[u32], entries: &[u32], function: u32) -> bool
    ensures { IsTrue result ↔ (list.now ≡ followers [] entries.now 0 (Leave.Call function)) }
{
    match entries.get(function as usize).copied() {
        Some(entry) => is_one(list, entry as usize),
        None => list.is_empty(),
    }
}

/// Whether a list is that of the blocks that may come behind a block that is left so.
fn follow(list: &[u32], blocks: &[HardBlock], entries: &[u32], block: usize, leave: Leave) -> bool
    requires { block < length blocks.now }
    ensures { IsTrue result ↔ (list.now ≡ followers blocks.now entries.now block leave) }
{
    match leave {
        Leave::Jump(to) => is_one(list, to as usize),
        Leave::Branch(to) => is_order(list, to as usize, block + 1),
        Leave::Call(function) => is_entry(list, entries, function),
        Leave::Return => is_behind_calls(list, blocks, entries, start(entries, block)),
        Leave::Stop => list.is_empty(),
    }
}

/// Whether each list is that of the blocks that may come behind its block.
pub(crate) fn each_follows(blocks: &[HardBlock], entries: &[u32]) -> bool
    ensures { IsTrue result ↔ Follow blocks.now entries.now (length blocks.now) }
{
    for (number, block) in blocks.iter().enumerate() {
        let list = block.successors.as_slice();
        if !follow(list, blocks, entries, number, block_leave(block)) {
            return false;
        }
    }
    true
}
