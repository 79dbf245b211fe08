//! Tables over a program in blocks: the first block of each function, and the blocks to which each returns.

ghost use Rattle.std.specs.Prelude.{◌≡◌, ◌≤◌, ◌<◌, ◌+◌, ◌-◌, ◌^◌, ◌++◌, [], ◌∷◌, ℕ, IfOk, OnOk, All, length, map, sum, vec_len, slice_index_or, slice_set, flat_map, replicate, if◌then◌else◌, ◌==◌};
ghost use Rattle.double_law.specs.Ways.{calls, behind_calls, all_blocks};
ghost use Rattle.duplicate_pass.specs.Emits.{firsts_from, CallsBelow};

use hard_words::{OutOfMemory, Words};
use mid_blocks::{MidBlock, MidEnd, MidFunction};
use std::alloc::Global;

/// The number of the first block of each function; two blocks stand before them all.
pub(crate) fn first_blocks(
    alloc: Global,
    functions: &[MidFunction],
) -> Result<Vec<u32>, OutOfMemory>
    requires { 2 + sum (map (λ f. length f.blocks) functions.now) < 2 ^ 32 }
    ensures { IfOk result (λ out. out.items ≡ firsts_from 2 functions.now) }
{
    let mut out = Vec::new(alloc);
    let mut first: u32 = 2;
    for function in functions {
        out.push(first)?;
        first += function.blocks.len() as u32;
    }
    Ok(out)
}

/// So many empty lists.
fn empty_lists(alloc: Global, count: usize) -> Result<Vec<Words>, OutOfMemory>
    ensures { IfOk result (λ lists. lists.items ≡ replicate count []) }
{
    let mut lists = Vec::new(alloc);
    'empty: for _ in 0..count {
        lists.push(Words::new(alloc))?;
    }
    Ok(lists)
}

/// Adds a number to a list.
fn add(lists: &mut Vec<Words>, at: usize, number: u32) -> Result<(), OutOfMemory>
    requires { at < vec_len lists.old }
    ensures { OnOk result (lists.new.items ≡ slice_set lists.old.items at (slice_index_or lists.old.items at [] ++ number ∷ [])) }
{
    lists[at].push(number)
}

/// Notes the block behind a block, where that ends by a call, in the list of the function that is called.
fn note_call(lists: &mut Vec<Words>, number: u32, end: &MidEnd) -> Result<(), OutOfMemory>
    requires calls { CallsBelow (vec_len lists.old) end.now }
    requires few { number < 2 ^ 32 - 1 }
    ensures length { OnOk result (vec_len lists.new ≡ vec_len lists.old) }
    ensures noted { OnOk result ((n : ℕ) → slice_index_or lists.new.items n [] ≡ slice_index_or lists.old.items n [] ++ (if calls n end.now then (number + 1) ∷ [] else [])) }
{
    match end {
        MidEnd::Call { function, .. } => add(lists, *function as usize, number + 1),
        _ => Ok(()),
    }
}

/// Notes the blocks behind the calls of some blocks, which are numbered from one on.
fn note_calls(lists: &mut Vec<Words>, first: u32, blocks: &[MidBlock]) -> Result<(), OutOfMemory>
    requires calls { All (λ k. CallsBelow (vec_len lists.old) k.end) blocks.now }
    requires few { first + length blocks.now < 2 ^ 32 }
    ensures length { OnOk result (vec_len lists.new ≡ vec_len lists.old) }
    ensures noted { OnOk result ((n : ℕ) → slice_index_or lists.new.items n [] ≡ slice_index_or lists.old.items n [] ++ behind_calls n first blocks.now) }
{
    let mut number = first;
    for block in blocks {
        note_call(lists, number, &block.end)?;
        number += 1;
    }
    Ok(())
}

/// The blocks to which each function returns, ascending: those behind its calls. The first block of all calls function 0.
pub(crate) fn return_lists(
    alloc: Global,
    functions: &[MidFunction],
) -> Result<Vec<Words>, OutOfMemory>
    requires some { 0 < length functions.now }
    requires calls { All (λ f. All (λ k. CallsBelow (length functions.now) k.end) f.blocks) functions.now }
    requires few { 2 + sum (map (λ f. length f.blocks) functions.now) < 2 ^ 32 }
    ensures length { IfOk result (λ lists. length lists.items ≡ length functions.now) }
    ensures noted { IfOk result (λ lists. (n : ℕ) → n < length functions.now → slice_index_or lists.items n [] ≡ (if n == 0 then 1 ∷ [] else []) ++ behind_calls n 2 (all_blocks functions.now)) }
{
    let mut lists = empty_lists(alloc, functions.len())?;
    add(&mut lists, 0, 1)?;
    let mut first: u32 = 2;
    for function in functions {
        note_calls(&mut lists, first, function.blocks.as_slice())?;
        first += function.blocks.len() as u32;
    }
    Ok(lists)
}

/// Both tables of a program.
#[derive(Drop)]
pub(crate) struct Tables {
    /// The number of the first block of each function.
    pub firsts: Vec<u32>,
    /// The blocks to which each function returns, ascending.
    pub returns: Vec<Words>,
}
