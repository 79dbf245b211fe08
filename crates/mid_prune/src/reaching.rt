//! The blocks that can be reached: the first block of `main`, and where a block that is reached leads to.

ghost use Rattle.std.specs.Prelude.{◌≡◌, ◌+◌, ◌<◌, ◌^◌, [], false, length, get_or, map, replicate, slice_get, Some, OnOk, IfOk};
ghost use Rattle.mid_blocks.specs.declared.code.MidBlock.{MidBlock};
ghost use Rattle.mid_blocks.specs.Pruned.{Closed, OnlyReached};
ghost use Rattle.mid_blocks.specs.Leads.{LeadsInside};
ghost use Rattle.mid_prune.specs.Work.{work, IsThere, EndThere, put, followed, Working};

use crate::marks::Marks;
use hard_words::{OutOfMemory, Sequence};
use mid_blocks::{Mid, MidBlock, MidEnd, MidFunction};
use std::alloc::Global;

/// A block of a function.
#[derive(Clone, Copy, Debug)]
pub(crate) struct Spot {
    /// The function.
    pub(crate) function: usize,
    /// The block in it.
    pub(crate) block: usize,
}

/// Marks a block and lets it wait, where it isn't marked yet.
fn put(
    marks: &mut [Marks],
    waiting: &mut Vec<Spot>,
    function: usize,
    block: usize,
) -> Result<(), OutOfMemory>
    requires { IsThere marks.old function block }
    ensures { OnOk result (work marks.new waiting.new.items ≡ put function block (work marks.old waiting.old.items)) }
{
    if !marks[function].get(block) {
        waiting.push(Spot { function, block })?;
        marks[function].raise(block);
    }
    Ok(())
}

/// Puts the blocks to which the end of a block leads.
fn follow(
    end: &MidEnd,
    from: Spot,
    marks: &mut [Marks],
    waiting: &mut Vec<Spot>,
) -> Result<(), OutOfMemory>
    requires there { EndThere marks.old from.function from.block end.now }
    requires small { from.block + 1 < 2 ^ 64 }
    ensures { OnOk result (work marks.new waiting.new.items ≡ followed from.function from.block end.now (work marks.old waiting.old.items)) }
{
    match end {
        MidEnd::Jump { to } => put(marks, waiting, from.function, *to as usize),
        MidEnd::Branch { to, .. } => {
            put(marks, waiting, from.function, *to as usize)?;
            put(marks, waiting, from.function, from.block + 1)
        }
        MidEnd::Call { function, .. } => {
            put(marks, waiting, *function as usize, 0)?;
            put(marks, waiting, from.function, from.block + 1)
        }
        MidEnd::Return { .. } => Ok(()),
    }
}

/// Marks for each block of each function, none of them raised.
fn unmarked(alloc: Global, mid: &Mid) -> Result<Vec<Marks>, OutOfMemory>
    ensures { IfOk result (λ m. m.items ≡ map (λ code. replicate (length code.blocks) false) mid.now.functions) }
{
    let mut all = Vec::new(alloc);
    for code in mid.functions.as_slice() {
        all.push(Marks::none(alloc, code.blocks.len())?)?;
    }
    Ok(all)
}

/// Follows a block of a function, by the function's blocks.
fn visit(
    blocks: &[MidBlock],
    spot: Spot,
    marks: &mut [Marks],
    waiting: &mut Vec<Spot>,
) -> Result<(), OutOfMemory>
    requires within { spot.block < length blocks.now }
    requires there { (b : MidBlock) → slice_get blocks.now spot.block ≡ Some b → EndThere marks.old spot.function spot.block b.end }
    ensures { OnOk result ((b : MidBlock) → slice_get blocks.now spot.block ≡ Some b → (work marks.new waiting.new.items ≡ followed spot.function spot.block b.end (work marks.old waiting.old.items))) }
{
    follow(&blocks[spot.block].end, spot, marks, waiting)
}

/// Follows each block that waits until none does.
fn spread(
    mid: &Mid,
    functions: &[MidFunction],
    marks: &mut [Marks],
    waiting: &mut Vec<Spot>,
) -> Result<(), OutOfMemory>
    requires same { functions.now ≡ mid.now.functions }
    requires inside { LeadsInside mid.now }
    requires begun { Working mid.now (work marks.old waiting.old.items) }
    ensures { OnOk result (Working mid.now (work marks.new [])) }
{
    while let Some(spot) = waiting.pop() {
        let blocks = functions[spot.function].blocks.as_slice();
        visit(blocks, spot, marks, waiting)?;
    }
    Ok(())
}

/// Marks what can be reached, where nothing is marked yet.
fn search(alloc: Global, mid: &Mid, marks: &mut [Marks]) -> Result<(), OutOfMemory>
    requires inside { LeadsInside mid.now }
    requires unmarked { marks.old ≡ map (λ code. replicate (length code.blocks) false) mid.now.functions }
    ensures { OnOk result (Working mid.now (work marks.new [])) }
{
    let mut waiting = Vec::new(alloc);
    put(marks, &mut waiting, 0, 0)?;
    spread(mid, mid.functions.as_slice(), marks, &mut waiting)
}

/// Which blocks of each function can be reached. It looks once at each end of a block that is reached.
pub fn reached(alloc: Global, mid: &Mid) -> Result<Sequence<Marks>, OutOfMemory>
    requires { LeadsInside mid.now }
    ensures closed { IfOk result (λ marks. Closed mid.now marks) }
    ensures only { IfOk result (λ marks. OnlyReached mid.now marks) }
{
    let mut marks = unmarked(alloc, mid)?;
    search(alloc, mid, &mut marks)?;
    Ok(Sequence::from_vec(marks))
}
