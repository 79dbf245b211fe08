//! Which blocks two edges lead to, and to which a block returns that returns to more than one.

ghost use Rattle.std.specs.Prelude.{◌≡◌, ℕ, ◌+◌, ◌<◌, ◌^◌, ◌≤◌, false, IfOk, All, length, replicate, nat_le, get_or};
ghost use Rattle.edge_split.specs.Split as Split;
ghost use Rattle.edge_split.specs.Built.{one_more, counted, all_counted, joined, marked, all_marked};

use hard_items::{HardBlock, Item};
use mips_isa::Instr;
use std::alloc::{AllocError, Global};

/// One more, counted to two.
fn one_more(count: u8) -> u8
    ensures { result ≡ one_more count }
{
    if count < 2 { count + 1 } else { 2 }
}

/// Counts the successors of a block.
fn count_successors(counts: &mut [u8], successors: &[u32])
    requires { All (λ s. s < length counts.old) successors.now }
    ensures length { length counts.new ≡ length counts.old }
    ensures counted { counts.new ≡ counted successors.now counts.old }
{
    for successor in successors {
        let at = *successor as usize;
        counts[at] = one_more(counts[at]);
    }
}

/// Counts the successors of all blocks.
fn count_all(counts: &mut [u8], blocks: &[HardBlock])
    requires { All (λ k. All (λ s. s < length counts.old) k.successors) blocks.now }
    ensures length { length counts.new ≡ length counts.old }
    ensures counted { counts.new ≡ all_counted blocks.now counts.old }
{
    for block in blocks {
        count_successors(counts, block.successors.as_slice());
    }
}

/// How many edges lead to each block, counted to two, and last to the block behind all.
pub(crate) fn counts_of(alloc: Global, blocks: &[HardBlock]) -> Result<Vec<u8>, AllocError>
    requires few { length blocks.now + 1 < 2 ^ 64 }
    requires there { All (λ k. All (λ s. s < length blocks.now + 1) k.successors) blocks.now }
    ensures { IfOk result (λ v. v.items ≡ all_counted blocks.now (replicate (length blocks.now + 1) 0)) }
{
    let mut counts = vec![in alloc; 0u8; blocks.len() + 1]?;
    count_all(counts.as_mut_slice(), blocks);
    Ok(counts)
}

/// At least two edges lead to a block.
pub(crate) fn joins(counts: &[u8], block: usize) -> bool
    ensures { result ≡ joined counts.now block }
{
    block < counts.len() && counts[block] >= 2
}

/// Among the items is a return.
pub(crate) fn returns(items: &[Item]) -> bool
    ensures { result ≡ Split.returns items.now }
{
    for item in items {
        if let Instr::Jr { .. } = item.instr {
            return true;
        }
    }
    false
}

/// Among the items is a call.
pub(crate) fn calls(items: &[Item]) -> bool
    ensures { result ≡ Split.calls items.now }
{
    for item in items {
        if let Instr::Jal { .. } = item.instr {
            return true;
        }
    }
    false
}

/// Marks the blocks of a list.
fn mark(marks: &mut [bool], blocks: &[u32])
    requires { All (λ s. s < length marks.old) blocks.now }
    ensures length { length marks.new ≡ length marks.old }
    ensures marked { marks.new ≡ marked blocks.now marks.old }
{
    for block in blocks {
        marks[*block as usize] = true;
    }
}

/// Marks the blocks to which one returns that returns to more.
fn mark_all(marks: &mut [bool], blocks: &[HardBlock])
    requires { All (λ k. All (λ s. s < length marks.old) k.successors) blocks.now }
    ensures length { length marks.new ≡ length marks.old }
    ensures marked { marks.new ≡ all_marked blocks.now marks.old }
{
    for block in blocks {
        if returns(block.items.as_slice()) && block.successors.len() >= 2 {
            mark(marks, block.successors.as_slice());
        }
    }
}

/// The blocks to which one returns that returns to more, and last the block behind all.
pub(crate) fn marks_of(alloc: Global, blocks: &[HardBlock]) -> Result<Vec<bool>, AllocError>
    requires few { length blocks.now + 1 < 2 ^ 64 }
    requires there { All (λ k. All (λ s. s < length blocks.now + 1) k.successors) blocks.now }
    ensures { IfOk result (λ v. v.items ≡ all_marked blocks.now (replicate (length blocks.now + 1) false)) }
{
    let mut marks = vec![in alloc; false; blocks.len() + 1]?;
    mark_all(marks.as_mut_slice(), blocks);
    Ok(marks)
}

/// A block is marked.
pub(crate) fn is_marked(marks: &[bool], block: usize) -> bool
    ensures { result ≡ get_or marks.now block false }
{
    block < marks.len() && marks[block]
}
