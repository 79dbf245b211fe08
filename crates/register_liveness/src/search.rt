//! Where a variable is wanted: the blocks at whose start a path leads to a read of it with no write before.

ghost use Rattle.std.specs.Prelude.{◌≡◌, ℕ, ◌<◌, ◌≤◌, OnOk, IfOk, length};
ghost use Rattle.std.specs.List.{Contains};
ghost use Rattle.mid_blocks.specs.Valid.{ValidFunction};
ghost use Rattle.register_liveness.specs.Search.{IsFlow, AreWantedAt, IsSearch, IsSpread, IsPassed, IsBefore, GoesOn};

use crate::blocks::{first_positions, predecessors};
use crate::uses::{FirstUse, all_uses, use_of};
use hard_words::{OutOfMemory, Sequence, Words};
use mid_blocks::MidFunction;
use std::alloc::Global;

/// What the blocks of a function do with its variables, and how they hang together.
#[derive(Drop)]
pub struct Flow {
    /// What each block does first with each variable.
    pub uses: Vec<Sequence<FirstUse>>,
    /// The blocks that lead to each block.
    pub leading: Vec<Words>,
    /// The first position of each block.
    pub firsts: Vec<u32>,
}

impl Flow {
    /// The flow of a function.
    pub fn of(alloc: Global, function: &MidFunction) -> Result<Flow, OutOfMemory>
        requires { ValidFunction function.now }
        ensures { IfOk result (λ flow. IsFlow function.now flow) }
    {
        Ok(Flow {
            uses: all_uses(alloc, function)?,
            leading: predecessors(alloc, function)?,
            firsts: first_positions(alloc, function)?,
        })
    }
}

/// Marks a block, unless it is marked or touches the variable.
fn visit(
    function: &MidFunction,
    flow: &Flow,
    v: u32,
    before: u32,
    marks: &mut Vec<bool>,
    found: &mut Vec<u32>,
) -> Result<(), OutOfMemory>
    requires flow { IsFlow function.now flow.now }
    requires variable { v < function.now.variables }
    requires search { IsSearch function.now v (length function.now.blocks) marks.old.items found.old.items }
    requires exists { before < length function.now.blocks }
    requires is_before { IsBefore function.now v before }
    ensures search { OnOk result (IsSearch function.now v (length function.now.blocks) marks.new.items found.new.items) }
    ensures goes_on { OnOk result (GoesOn marks.old.items marks.new.items found.old.items found.new.items) }
    ensures passed { OnOk result (IsPassed function.now v marks.new.items before) }
{
    if marks[before as usize] {
        return Ok(());
    }
    if let FirstUse::Untouched = use_of(flow.uses.as_slice(), before as usize, v as usize) {
        found.push(before)?;
        marks[before as usize] = true;
    }
    Ok(())
}

/// Marks each block that leads to this one and doesn't touch the variable.
fn spread(
    function: &MidFunction,
    flow: &Flow,
    v: u32,
    block: u32,
    marks: &mut Vec<bool>,
    found: &mut Vec<u32>,
) -> Result<(), OutOfMemory>
    requires flow { IsFlow function.now flow.now }
    requires variable { v < function.now.variables }
    requires search { IsSearch function.now v (length function.now.blocks) marks.old.items found.old.items }
    requires is_found { Contains found.old.items block }
    ensures search { OnOk result (IsSearch function.now v (length function.now.blocks) marks.new.items found.new.items) }
    ensures goes_on { OnOk result (GoesOn marks.old.items marks.new.items found.old.items found.new.items) }
    ensures spread { OnOk result (IsSpread function.now v marks.new.items block) }
{
    for before in flow.leading[block as usize].as_slice() {
        visit(function, flow, v, *before, marks, found)?;
    }
    Ok(())
}

/// The blocks at whose start a variable is wanted.
pub fn wanted_blocks(
    alloc: Global,
    function: &MidFunction,
    flow: &Flow,
    v: u32,
) -> Result<Vec<u32>, OutOfMemory>
    requires valid { ValidFunction function.now }
    requires flow { IsFlow function.now flow.now }
    requires variable { v < function.now.variables }
    ensures { IfOk result (λ blocks. AreWantedAt function.now v blocks.items) }
{
    let mut marks = Vec::new(alloc);
    let mut found = Vec::new(alloc);
    let blocks = function.blocks.len() as u32;
    for block in 0..blocks {
        if let FirstUse::Read = use_of(flow.uses.as_slice(), block as usize, v as usize) {
            marks.push(true)?;
            found.push(block)?;
        } else {
            marks.push(false)?;
        }
    }
    let mut next: usize = 0;
    while next < found.len() {
        let block = found[next];
        spread(function, flow, v, block, &mut marks, &mut found)?;
        next += 1;
    }
    Ok(found)
}
