//! What each block does first with each variable.

ghost use Rattle.std.specs.Prelude.{◌≡◌, ℕ, ◌<◌, ◌≤◌, ◌+◌, ◌++◌, [], ◌∷◌, OnOk, IfOk, length, slice_get, slice_index_or, slice_set, vec_len, if◌then◌else◌};
ghost use Rattle.std.specs.List.{All};
ghost use Rattle.mid_blocks.specs.Lines.{line_of, step_reads, step_writes, end_reads, end_writes, line_reads, line_writes, block_lines};
ghost use Rattle.mid_blocks.specs.Valid.{ValidFunction, line_variables};
ghost use Rattle.register_liveness.specs.Uses.{is_among, line_use, then_use, first_use, AreUses};

use hard_words::{OutOfMemory, Sequence};
use mid_blocks::{MidBlock, MidEnd, MidFunction, MidStep};
use std::alloc::Global;

/// What the lines of a block do first with a variable.
#[derive(Clone, Copy, PartialEq, Eq)]
pub enum FirstUse {
    /// Nothing.
    Untouched,
    /// They read it, before any of them writes it.
    Read,
    /// They write it, before any of them reads it.
    Written,
}

/// Puts the variables that a step reads into an empty list, and gives the one that it writes.
fn step_uses(step: &MidStep, reads: &mut Vec<u32>) -> Result<Option<u32>, OutOfMemory>
    requires { reads.old.items ≡ [] }
    ensures reads { OnOk result (reads.new.items ≡ step_reads step.now) }
    ensures writes { IfOk result (λ w. w ≡ step_writes step.now) }
{
    match *step {
        MidStep::Constant { to, .. } => Ok(Some(to)),
        MidStep::Copy { to, from } => {
            reads.push(from)?;
            Ok(Some(to))
        }
        MidStep::Operate {
            to,
            left,
            right,
            ..
        } => {
            reads.push(left)?;
            reads.push(right)?;
            Ok(Some(to))
        }
        MidStep::Guard { index, .. } => {
            reads.push(index)?;
            Ok(None)
        }
        MidStep::Load { to, index, .. } => {
            if let Some(index) = index {
                reads.push(index)?;
            }
            Ok(Some(to))
        }
        MidStep::Store { index, from, .. } => {
            if let Some(index) = index {
                reads.push(index)?;
            }
            reads.push(from)?;
            Ok(None)
        }
        MidStep::Input { to } => Ok(Some(to)),
        MidStep::Output { from } => {
            reads.push(from)?;
            Ok(None)
        }
        MidStep::Deep { test } => {
            reads.push(test)?;
            Ok(None)
        }
    }
}

/// The same of the end of a block.
fn end_uses(end: &MidEnd, reads: &mut Vec<u32>) -> Result<Option<u32>, OutOfMemory>
    requires { reads.old.items ≡ [] }
    ensures reads { OnOk result (reads.new.items ≡ end_reads end.now) }
    ensures writes { IfOk result (λ w. w ≡ end_writes end.now) }
{
    match end {
        MidEnd::Jump { .. } => Ok(None),
        MidEnd::Branch { test, .. } => {
            reads.push(*test)?;
            Ok(None)
        }
        MidEnd::Call { args, result, .. } => {
            reads.extend_from_slice(args.as_slice())?;
            Ok(*result)
        }
        MidEnd::Return { from } => {
            if let Some(from) = from {
                reads.push(*from)?;
            }
            Ok(None)
        }
    }
}

/// Puts the variables that a line of a block reads into a list, in place of what the list held, and gives the one that
/// the line writes. The line has so many lines before it in the block.
pub fn line_uses(
    block: &MidBlock,
    before: usize,
    reads: &mut Vec<u32>,
) -> Result<Option<u32>, OutOfMemory>
    ensures reads { OnOk result (reads.new.items ≡ line_reads (line_of (slice_get block.now.steps before) block.now.end)) }
    ensures writes { IfOk result (λ w. w ≡ line_writes (line_of (slice_get block.now.steps before) block.now.end)) }
{
    reads.clear();
    match block.steps.get(before) {
        Some(step) => step_uses(step, reads),
        None => end_uses(&block.end, reads),
    }
}

/// A further use of a variable.
fn meet(row: &mut Vec<FirstUse>, v: u32, found: FirstUse)
    requires { v < vec_len row.old }
    ensures { row.new.items ≡ slice_set row.old.items v (then_use (slice_index_or row.old.items v FirstUse.Untouched) found) }
{
    if let FirstUse::Untouched = row[v as usize] {
        row[v as usize] = found;
    }
}

/// A read of each of some variables.
fn meet_reads(row: &mut Vec<FirstUse>, reads: &[u32])
    requires { All (λ v. v < vec_len row.old) reads.now }
    ensures len { vec_len row.new ≡ vec_len row.old }
    ensures each { (v : ℕ) → v < vec_len row.old → slice_index_or row.new.items v FirstUse.Untouched ≡ then_use (slice_index_or row.old.items v FirstUse.Untouched) (if is_among reads.now v then FirstUse.Read else FirstUse.Untouched) }
{
    for v in reads {
        meet(row, *v, FirstUse::Read);
    }
}

/// The uses of one line of a block.
fn meet_line(
    row: &mut Vec<FirstUse>,
    block: &MidBlock,
    before: usize,
    reads: &mut Vec<u32>,
) -> Result<(), OutOfMemory>
    requires { All (λ v. v < vec_len row.old) (line_variables (line_of (slice_get block.now.steps before) block.now.end)) }
    ensures len { OnOk result (vec_len row.new ≡ vec_len row.old) }
    ensures each { OnOk result ((v : ℕ) → v < vec_len row.old → slice_index_or row.new.items v FirstUse.Untouched ≡ then_use (slice_index_or row.old.items v FirstUse.Untouched) (line_use v (line_of (slice_get block.now.steps before) block.now.end))) }
{
    let written = line_uses(block, before, reads)?;
    meet_reads(row, reads.as_slice());
    if let Some(v) = written {
        meet(row, v, FirstUse::Written);
    }
    Ok(())
}

/// What a block does first with each variable.
fn block_uses(alloc: Global, block: &MidBlock, variables: u32) -> Result<Vec<FirstUse>, OutOfMemory>
    requires { All (λ line. All (λ v. v < variables) (line_variables line)) (block_lines block.now) }
    ensures len { IfOk result (λ row. length row.items ≡ variables) }
    ensures each { IfOk result (λ row. (v : ℕ) → v < variables → slice_index_or row.items v FirstUse.Untouched ≡ first_use v (block_lines block.now)) }
{
    let mut row = vec![in alloc; FirstUse::Untouched; variables as usize]?;
    let mut reads = Vec::new(alloc);
    let steps = block.steps.len();
    for before in 0..steps {
        meet_line(&mut row, block, before, &mut reads)?;
    }
    meet_line(&mut row, block, steps, &mut reads)?;
    Ok(row)
}

/// What each block of a function does first with each variable.
pub fn all_uses(
    alloc: Global,
    function: &MidFunction,
) -> Result<Vec<Sequence<FirstUse>>, OutOfMemory>
    requires { ValidFunction function.now }
    ensures { IfOk result (λ uses. AreUses function.now uses.items) }
{
    let mut uses = Vec::new(alloc);
    for block in function.blocks.as_slice() {
        uses.push(Sequence::from_vec(block_uses(alloc, block, function.variables)?))?;
    }
    Ok(uses)
}

/// What a block does first with a variable.
pub fn use_of(uses: &[Sequence<FirstUse>], block: usize, v: usize) -> FirstUse
    requires block_exists { block < length uses.now }
    requires variable_exists { v < length (slice_index_or uses.now block []) }
    ensures { result ≡ slice_index_or (slice_index_or uses.now block []) v FirstUse.Untouched }
{
    uses[block].as_slice()[v]
}
