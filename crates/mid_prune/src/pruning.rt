//! A program in blocks without the blocks and functions that are not marked.

ghost use Rattle.std.specs.Prelude.{◌≡◌, ◌++◌, [], ◌∷◌, if◌then◌else◌, OnOk, IfOk, map};
ghost use Rattle.mid_blocks.specs.Renumbered.{renumbered_end};
ghost use Rattle.mid_blocks.specs.Pruned.{is_marked, marked, function_marks, renumbered_block, pruned_function, pruned_from, pruned};
ghost use Rattle.mid_prune.specs.Counts.{AreCounts, numbers_by};

use crate::marks::{Marks, function_marks};
use crate::numbers::{counts, number};
use hard_words::{OutOfMemory, Sequence};
use mid_blocks::{Mid, MidBlock, MidEnd, MidFunction};
use std::alloc::Global;

/// The end of a block under new numbers, by the marks of the functions and those of the blocks.
fn renumbered_end(
    end: MidEnd,
    callees: &Marks,
    callee_counts: &[usize],
    marks: &Marks,
    counts: &[usize],
) -> MidEnd
    requires callees { AreCounts callees.now callee_counts.now }
    requires blocks { AreCounts marks.now counts.now }
    ensures { result ≡ renumbered_end (numbers_by callees.now marks.now) 0 end }
{
    match end {
        MidEnd::Jump { to } => MidEnd::Jump {
            to: number(marks, counts, to),
        },
        MidEnd::Branch { test, when, to } => MidEnd::Branch {
            test,
            when,
            to: number(marks, counts, to),
        },
        MidEnd::Call {
            function,
            args,
            result,
        } => MidEnd::Call {
            function: number(callees, callee_counts, function),
            args,
            result,
        },
        MidEnd::Return { from } => MidEnd::Return { from },
    }
}

/// A block under new numbers.
fn renumbered_block(
    block: MidBlock,
    callees: &Marks,
    callee_counts: &[usize],
    marks: &Marks,
    counts: &[usize],
) -> MidBlock
    requires callees { AreCounts callees.now callee_counts.now }
    requires blocks { AreCounts marks.now counts.now }
    ensures { result ≡ renumbered_block (numbers_by callees.now marks.now) 0 block }
{
    let MidBlock { steps, end } = block;
    let end = renumbered_end(end, callees, callee_counts, marks, counts);
    MidBlock { steps, end }
}

/// Adds a block under new numbers to those that are kept, where it is marked.
fn keep_block(
    kept: &mut Vec<MidBlock>,
    block: MidBlock,
    at: usize,
    callees: &Marks,
    callee_counts: &[usize],
    marks: &Marks,
    counts: &[usize],
) -> Result<(), OutOfMemory>
    requires callees { AreCounts callees.now callee_counts.now }
    requires blocks { AreCounts marks.now counts.now }
    ensures { OnOk result (kept.new.items ≡ kept.old.items ++ (if is_marked marks.now at then renumbered_block (numbers_by callees.now marks.now) 0 block ∷ [] else [])) }
{
    if marks.get(at) {
        kept.push(renumbered_block(block, callees, callee_counts, marks, counts))?;
    }
    Ok(())
}

/// The blocks that are marked, under new numbers.
fn prune_each(
    alloc: Global,
    blocks: Vec<MidBlock>,
    callees: &Marks,
    callee_counts: &[usize],
    marks: &Marks,
    counts: &[usize],
) -> Result<Vec<MidBlock>, OutOfMemory>
    requires callees { AreCounts callees.now callee_counts.now }
    requires blocks { AreCounts marks.now counts.now }
    ensures { IfOk result (λ kept. kept.items ≡ map (renumbered_block (numbers_by callees.now marks.now) 0) (marked marks.now blocks.items)) }
{
    let mut kept = Vec::new(alloc);
    let mut at: usize = 0;
    for block in blocks {
        keep_block(&mut kept, block, at, callees, callee_counts, marks, counts)?;
        at += 1;
    }
    Ok(kept)
}

/// A function with the blocks that are marked, under new numbers.
fn prune_function(
    alloc: Global,
    code: MidFunction,
    callees: &Marks,
    callee_counts: &[usize],
    marks: &Marks,
) -> Result<MidFunction, OutOfMemory>
    requires { AreCounts callees.now callee_counts.now }
    ensures { IfOk result (λ kept. kept ≡ record code { blocks = map (renumbered_block (numbers_by callees.now marks.now) 0) (marked marks.now code.blocks) }) }
{
    let counts = counts(alloc, marks)?;
    let MidFunction {
        params,
        variables,
        pairs,
        blocks,
    } = code;
    let blocks = prune_each(
        alloc,
        blocks.into_vec(),
        callees,
        callee_counts,
        marks,
        &counts,
    )?;
    Ok(MidFunction {
        params,
        variables,
        pairs,
        blocks: Sequence::from_vec(blocks),
    })
}

/// Adds a function to those that are kept, where it is marked, with its blocks that are.
fn keep_function(
    alloc: Global,
    kept: &mut Vec<MidFunction>,
    code: MidFunction,
    at: usize,
    callees: &Marks,
    callee_counts: &[usize],
    marks: &[Marks],
) -> Result<(), OutOfMemory>
    requires callees { callees.now ≡ function_marks marks.now }
    requires counts { AreCounts callees.now callee_counts.now }
    ensures { OnOk result (kept.new.items ≡ kept.old.items ++ (if is_marked callees.now at then pruned_function marks.now at code ∷ [] else [])) }
{
    if callees.get(at) {
        kept.push(prune_function(alloc, code, callees, callee_counts, &marks[at])?)?;
    }
    Ok(())
}

/// The functions that are marked, with their blocks that are.
fn prune_functions(
    alloc: Global,
    functions: Vec<MidFunction>,
    callees: &Marks,
    callee_counts: &[usize],
    marks: &[Marks],
) -> Result<Vec<MidFunction>, OutOfMemory>
    requires callees { callees.now ≡ function_marks marks.now }
    requires counts { AreCounts callees.now callee_counts.now }
    ensures { IfOk result (λ kept. kept.items ≡ marked callees.now (pruned_from marks.now 0 functions.items)) }
{
    let mut kept = Vec::new(alloc);
    let mut at: usize = 0;
    for code in functions {
        keep_function(alloc, &mut kept, code, at, callees, callee_counts, marks)?;
        at += 1;
    }
    Ok(kept)
}

/// The program without the blocks and functions that are not marked: a function is marked where its first block is. What
/// is left has its old order, and its ends the new numbers. It looks once at each block.
pub fn prune(alloc: Global, mid: Mid, marks: &[Marks]) -> Result<Mid, OutOfMemory>
    ensures { IfOk result (λ p. p ≡ pruned marks.now mid) }
{
    let callees = function_marks(alloc, marks)?;
    let callee_counts = counts(alloc, &callees)?;
    let Mid {
        functions,
        globals,
        chain_pairs,
    } = mid;
    let functions = prune_functions(alloc, functions.into_vec(), &callees, &callee_counts, marks)?;
    Ok(Mid {
        functions: Sequence::from_vec(functions),
        globals,
        chain_pairs,
    })
}
