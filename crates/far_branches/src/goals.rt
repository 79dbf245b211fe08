//! Which branches get the far form: those of the functions that have too many words for the field of a branch.

ghost use Rattle.std.specs.Prelude.{◌≡◌, ℕ, ◌+◌, ◌^◌, ◌<◌, ◌≤◌, ◌||◌, false, IfOk, All, length, map, slice_index, get_or};
ghost use Rattle.std.specs.List.{range_with_len};
ghost use Rattle.far_branches.specs.Far.{has, starts_by, counted, sum_by_start, SumsAre, fars_by};
ghost use Rattle.far_branches.specs.Widen.{function_start, first_goal};

use hard_items::{Fix, HardBlock, Item};
use mips_isa::Instr;
use std::alloc::{AllocError, Global};

/// The most words, heads counted, of a function whose branches all reach their targets.
const MOST_WORDS: u32 = 30_000;

/// Marks the blocks that are the first of a function.
fn mark_entries(marks: &mut [bool], entries: &[u32])
    requires { All (λ e. e < length marks.old) entries.now }
    ensures length { length marks.new ≡ length marks.old }
    ensures marked { (k : ℕ) → get_or marks.new k false ≡ (get_or marks.old k false || has k entries.now) }
{
    for entry in entries {
        marks[*entry as usize] = true;
    }
}

/// The first block of the function of each block.
fn function_starts(alloc: Global, marks: &[bool]) -> Result<Vec<u32>, AllocError>
    requires { length marks.now < 2 ^ 32 }
    ensures { IfOk result (λ v. v.items ≡ starts_by 0 0 marks.now) }
{
    let mut starts = Vec::new(alloc);
    let mut last: u32 = 0;
    let mut at: u32 = 0;
    for mark in marks {
        last = if *mark { at } else { last };
        starts.push(last)?;
        at += 1;
    }
    Ok(starts)
}

/// The first block of the function of each block, by the first blocks of functions.
pub(crate) fn starts_of(
    alloc: Global,
    entries: &[u32],
    count: usize,
) -> Result<Vec<u32>, AllocError>
    requires there { All (λ e. e < count) entries.now }
    requires few { count < 2 ^ 32 }
    ensures { IfOk result (λ v. v.items ≡ map (function_start entries.now) (range_with_len 0 count)) }
{
    let mut marks = vec![in alloc; false; count]?;
    mark_entries(marks.as_mut_slice(), entries);
    function_starts(alloc, marks.as_slice())
}

/// The words of a function with one more block, its head counted; where they are too many, the count stands still.
fn with_block(words: u32, items: usize) -> u32
    requires { words ≤ 30001 }
    ensures { result ≡ counted (words + (items + 7)) }
{
    if items > MOST_WORDS as usize {
        MOST_WORDS + 1
    } else {
        (words + items as u32 + 7).min(MOST_WORDS + 1)
    }
}

/// Counts the words of each function, at the number of its first block.
fn count_words(sums: &mut [u32], blocks: &[HardBlock], starts: &[u32])
    requires low { (s : ℕ) → slice_index sums.old s ≡ 0 }
    requires starts { length starts.now ≡ length blocks.now }
    requires there { All (λ s. s < length sums.old) starts.now }
    ensures length { length sums.new ≡ length sums.old }
    ensures counts { (s : ℕ) → s < length sums.old → slice_index sums.new s ≡ counted (sum_by_start starts.now s 0 blocks.now) }
{
    for (b, block) in blocks.iter().enumerate() {
        let start = starts[b] as usize;
        sums[start] = with_block(sums[start], block.items.len());
    }
}

/// The words of each function, at the number of its first block.
pub(crate) fn sums_of(
    alloc: Global,
    blocks: &[HardBlock],
    starts: &[u32],
) -> Result<Vec<u32>, AllocError>
    requires starts { length starts.now ≡ length blocks.now }
    requires there { All (λ s. s < length blocks.now) starts.now }
    ensures { IfOk result (λ v. SumsAre starts.now blocks.now v.items) }
{
    let mut sums = vec![in alloc; 0u32; blocks.len()]?;
    count_words(sums.as_mut_slice(), blocks, starts);
    Ok(sums)
}

/// The block to which a conditional branch goes, where it is another than the next block.
fn branch_goal(block: u32, item: &Item) -> Option<u32>
    requires { block + 1 < 2 ^ 32 }
    ensures { result ≡ Rattle.far_branches.specs.Widen.branch_goal block item.now }
{
    match (item.instr, item.fix) {
        (Instr::Beq { .. } | Instr::Bne { .. }, Fix::Block(goal)) if goal != block + 1 => Some(
            goal,
        ),
        _ => None,
    }
}

/// The same of the first such branch among the items of a block.
fn first_branch_goal(block: u32, items: &[Item]) -> Option<u32>
    requires { block + 1 < 2 ^ 32 }
    ensures { result ≡ first_goal block items.now }
{
    for item in items {
        if let Some(goal) = branch_goal(block, item) {
            return Some(goal);
        }
    }
    None
}

/// The goals of the branches that get the far form, block by block.
pub(crate) fn far_goals(
    alloc: Global,
    blocks: &[HardBlock],
    starts: &[u32],
    sums: &[u32],
) -> Result<Vec<Option<u32>>, AllocError>
    requires few { length blocks.now < 2 ^ 32 }
    requires starts { length starts.now ≡ length blocks.now }
    requires there { All (λ s. s < length sums.now) starts.now }
    ensures { IfOk result (λ v. v.items ≡ fars_by starts.now sums.now 0 blocks.now) }
{
    let mut fars = Vec::new(alloc);
    let mut at: u32 = 0;
    for block in blocks {
        let goal = if sums[starts[at as usize] as usize] > MOST_WORDS {
            first_branch_goal(at, block.items.as_slice())
        } else {
            None
        };
        fars.push(goal)?;
        at += 1;
    }
    Ok(fars)
}
