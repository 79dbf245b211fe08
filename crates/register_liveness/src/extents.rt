//! From the first to the last position where each variable is met.

ghost use Rattle.std.specs.Prelude.{◌≡◌, true, false, ℕ, ◌+◌, ◌<◌, ◌≤◌, Some, None, OnOk, IfOk, length, slice_get, slice_index_or, slice_set, vec_len};
ghost use Rattle.std.specs.List.{All, Contains};
ghost use Rattle.mid_blocks.specs.Lines.{line_of, line_reads, line_writes, first_of, lines};
ghost use Rattle.mid_blocks.specs.Liveness.{LineAt, IsWanted};
ghost use Rattle.mid_blocks.specs.Valid.{ValidFunction};
ghost use Rattle.register_liveness.specs.Search.{IsFlow, AreWantedAt};
ghost use Rattle.register_liveness.specs.Met.{IsMet, widened, Held, AreMet, Widens, HasLine, HasLines, HasBlock, IsLast, CallsPast, CallBefore, AreLives};

use crate::search::{Flow, wanted_blocks};
use crate::uses::line_uses;
use hard_words::OutOfMemory;
use mid_blocks::{MidBlock, MidEnd, MidFunction};
use std::alloc::Global;

/// From one position to another.
#[derive(Clone, Copy)]
pub struct Extent {
    /// The first position.
    pub from: u32,
    /// The last.
    pub to: u32,
}

/// The extent that has a position too.
fn widened(extent: Option<Extent>, at: u32) -> Option<Extent>
    ensures { result ≡ widened extent at }
{
    match extent {
        None => Some(Extent { from: at, to: at }),
        Some(e) => Some(Extent {
            from: e.from.min(at),
            to: e.to.max(at),
        }),
    }
}

/// Puts a position where a variable is met into its extent.
fn widen(function: &MidFunction, extents: &mut Vec<Option<Extent>>, v: u32, at: u32)
    requires extents { AreMet function.now extents.old.items }
    requires variable { v < function.now.variables }
    requires met { IsMet function.now v at }
    ensures widens { Widens function.now extents.old.items extents.new.items }
    ensures held { Held extents.new.items v at }
{
    extents[v as usize] = widened(extents[v as usize], at);
}

/// The same of each of some variables.
fn widen_each(function: &MidFunction, extents: &mut Vec<Option<Extent>>, variables: &[u32], at: u32)
    requires extents { AreMet function.now extents.old.items }
    requires met { All (λ v. (v < function.now.variables) × IsMet function.now v at) variables.now }
    ensures widens { Widens function.now extents.old.items extents.new.items }
    ensures held { All (λ v. Held extents.new.items v at) variables.now }
{
    for v in variables {
        widen(function, extents, *v, at);
    }
}

/// Puts a line into the extents of the variables that it reads or writes.
fn widen_line(
    function: &MidFunction,
    extents: &mut Vec<Option<Extent>>,
    block: &MidBlock,
    before: usize,
    at: u32,
    reads: &mut Vec<u32>,
) -> Result<(), OutOfMemory>
    requires valid { ValidFunction function.now }
    requires extents { AreMet function.now extents.old.items }
    requires there { LineAt function.now at (line_of (slice_get block.now.steps before) block.now.end) }
    ensures widens { OnOk result (Widens function.now extents.old.items extents.new.items) }
    ensures has { OnOk result (HasLine extents.new.items at (line_of (slice_get block.now.steps before) block.now.end)) }
{
    let written = line_uses(block, before, reads)?;
    widen_each(function, extents, reads.as_slice(), at);
    if let Some(v) = written {
        widen(function, extents, v, at);
    }
    Ok(())
}

/// Puts the lines of a block into the extents.
fn widen_block(
    function: &MidFunction,
    extents: &mut Vec<Option<Extent>>,
    number: u32,
    block: &MidBlock,
    first: u32,
    reads: &mut Vec<u32>,
) -> Result<(), OutOfMemory>
    requires valid { ValidFunction function.now }
    requires extents { AreMet function.now extents.old.items }
    requires is { slice_get function.now.blocks number ≡ Some block.now }
    requires first { first ≡ first_of function.now number }
    requires so_far { HasLines function.now extents.old.items first }
    ensures widens { OnOk result (Widens function.now extents.old.items extents.new.items) }
    ensures has { OnOk result (HasLines function.now extents.new.items (first_of function.now number + length block.now.steps + 1)) }
{
    let steps = block.steps.len();
    for before in 0..steps {
        widen_line(
            function,
            extents,
            block,
            before,
            first + before as u32,
            reads,
        )?;
    }
    widen_line(function, extents, block, steps, first + steps as u32, reads)
}

/// Puts all lines into the extents.
fn widen_lines(
    alloc: Global,
    function: &MidFunction,
    flow: &Flow,
    extents: &mut Vec<Option<Extent>>,
) -> Result<(), OutOfMemory>
    requires valid { ValidFunction function.now }
    requires flow { IsFlow function.now flow.now }
    requires extents { AreMet function.now extents.old.items }
    ensures widens { OnOk result (Widens function.now extents.old.items extents.new.items) }
    ensures has { OnOk result (HasLines function.now extents.new.items (length (lines function.now))) }
{
    let mut reads = Vec::new(alloc);
    let mut number: u32 = 0;
    for block in function.blocks.as_slice() {
        widen_block(
            function,
            extents,
            number,
            block,
            flow.firsts[number as usize],
            &mut reads,
        )?;
        number += 1;
    }
    Ok(())
}

/// The last position of a block.
fn last_of(function: &MidFunction, flow: &Flow, b: u32) -> u32
    requires valid { ValidFunction function.now }
    requires flow { IsFlow function.now flow.now }
    requires exists { b < length function.now.blocks }
    ensures { IsLast function.now b result }
{
    let block = &function.blocks.as_slice()[b as usize];
    flow.firsts[b as usize] + block.steps.len() as u32
}

/// Puts the first position of a block where a variable is wanted into its extent, and the last ones of those that lead to it.
fn widen_around(
    function: &MidFunction,
    flow: &Flow,
    extents: &mut Vec<Option<Extent>>,
    v: u32,
    b: u32,
)
    requires valid { ValidFunction function.now }
    requires flow { IsFlow function.now flow.now }
    requires extents { AreMet function.now extents.old.items }
    requires variable { v < function.now.variables }
    requires exists { b < length function.now.blocks }
    requires wanted { IsWanted function.now v (first_of function.now b) }
    ensures widens { Widens function.now extents.old.items extents.new.items }
    ensures has { HasBlock function.now extents.new.items v b }
{
    widen(function, extents, v, flow.firsts[b as usize]);
    for before in flow.leading[b as usize].as_slice() {
        widen(function, extents, v, last_of(function, flow, *before));
    }
}

/// The same of all blocks where a variable is wanted.
fn widen_blocks(
    function: &MidFunction,
    flow: &Flow,
    extents: &mut Vec<Option<Extent>>,
    v: u32,
    blocks: &[u32],
)
    requires valid { ValidFunction function.now }
    requires flow { IsFlow function.now flow.now }
    requires extents { AreMet function.now extents.old.items }
    requires variable { v < function.now.variables }
    requires blocks { AreWantedAt function.now v blocks.now }
    ensures widens { Widens function.now extents.old.items extents.new.items }
    ensures has { All (λ b. HasBlock function.now extents.new.items v b) blocks.now }
{
    for b in blocks {
        widen_around(function, flow, extents, v, *b);
    }
}

/// Whether a block ends by a Call that doesn't give the variable its result.
fn calls_past(block: &MidBlock, v: u32) -> bool
    ensures yes { result ≡ true → CallsPast block.now v }
    ensures no { result ≡ false → CallsPast block.now v → ⊥ }
{
    match &block.end {
        MidEnd::Call { result, .. } => match result {
            Some(to) => *to != v,
            None => true,
        },
        _ => false,
    }
}

/// Whether a variable is live across a Call.
fn is_across(function: &MidFunction, v: u32, blocks: &[u32]) -> bool
    requires valid { ValidFunction function.now }
    requires blocks { AreWantedAt function.now v blocks.now }
    ensures yes { result ≡ true → CallBefore function.now v }
    ensures no { result ≡ false → CallBefore function.now v → ⊥ }
{
    for b in blocks {
        if *b > 0 && calls_past(&function.blocks.as_slice()[*b as usize - 1], v) {
            return true;
        }
    }
    false
}

/// Where the variables of a function are live.
#[derive(Drop)]
pub struct Lives {
    /// From where to where each variable is live, if anywhere.
    pub extents: Vec<Option<Extent>>,
    /// Whether it is live across a Call.
    pub across: Vec<bool>,
}

/// Puts the parameters at position 0 into the extents.
fn widen_params(function: &MidFunction, extents: &mut Vec<Option<Extent>>)
    requires valid { ValidFunction function.now }
    requires extents { AreMet function.now extents.old.items }
    ensures widens { Widens function.now extents.old.items extents.new.items }
    ensures has { (v : ℕ) → v < function.now.params → Held extents.new.items v 0 }
{
    for v in 0..function.params {
        widen(function, extents, v, 0);
    }
}

impl Lives {
    /// Where the variables of a function are live.
    pub fn of(alloc: Global, function: &MidFunction, flow: &Flow) -> Result<Lives, OutOfMemory>
        requires valid { ValidFunction function.now }
        requires flow { IsFlow function.now flow.now }
        ensures { IfOk result (λ lives. AreLives function.now lives.extents.items lives.across.items) }
    {
        let mut extents = vec![in alloc; None; function.variables as usize]?;
        widen_params(function, &mut extents);
        widen_lines(alloc, function, flow, &mut extents)?;
        let mut across = Vec::new(alloc);
        for v in 0..function.variables {
            let blocks = wanted_blocks(alloc, function, flow, v)?;
            widen_blocks(function, flow, &mut extents, v, blocks.as_slice());
            across.push(is_across(function, v, blocks.as_slice()))?;
        }
        Ok(Lives { extents, across })
    }
}
