//! The new order of a block and of a program.

ghost use Rattle.std.specs.Prelude.{◌≡◌, IfOk, map};
ghost use Rattle.hard_items.specs.Rules.{Apart, Guarded, NeverReports};
ghost use Rattle.hard_items.specs.Counts.{Calm, Turned, TurnedThrough};
ghost use Rattle.hard_items.specs.Runs.{SameRuns};
ghost use Rattle.block_schedule.specs.Scheduling.{scheduled, scheduled_block, scheduled_program};
ghost use Rattle.hard_items.specs.Counted.{HasNoFreeNop, AreBusy};
ghost use Rattle.block_schedule.specs.Law.{KeepsCounts};

use crate::spaces::space;
use crate::turns::turn;
use hard_items::{HardBlock, HardProgram, Item};
use hard_words::{OutOfMemory, Sequence};
use std::alloc::Global;

/// The items of a block in the new order.
fn schedule(alloc: Global, items: &[Item]) -> Result<Vec<Item>, OutOfMemory>
    ensures { IfOk result (λ put. put.items ≡ scheduled items.now) }
{
    let turned = turn(alloc, items)?;
    space(alloc, &turned)
}

/// A block in the new order.
fn schedule_block(alloc: Global, block: HardBlock) -> Result<HardBlock, OutOfMemory>
    ensures { IfOk result (λ put. put ≡ scheduled_block block) }
{
    let HardBlock { items, successors } = block;
    let items = Sequence::from_vec(schedule(alloc, items.as_slice())?);
    Ok(HardBlock { items, successors })
}

/// Blocks in the new order.
fn schedule_blocks(alloc: Global, blocks: Vec<HardBlock>) -> Result<Vec<HardBlock>, OutOfMemory>
    ensures { IfOk result (λ put. put.items ≡ map scheduled_block blocks.items) }
{
    let mut out = Vec::new(alloc);
    for block in blocks {
        out.push(schedule_block(alloc, block)?)?;
    }
    Ok(out)
}

/// The program with the units of the two streams in turn in each stretch, and nops where the machine needs a word between two
/// others.
pub fn interleave(alloc: Global, program: HardProgram) -> Result<HardProgram, OutOfMemory>
    requires { Apart program }
    ensures in_turn { IfOk result (λ put. put ≡ scheduled_program program) }
    ensures same_runs { IfOk result (SameRuns program) }
    ensures apart { IfOk result Apart }
    ensures never_reports { IfOk result (λ put. NeverReports program → NeverReports put) }
    ensures guarded { IfOk result (λ put. Guarded program → Guarded put) }
    ensures calm { IfOk result Calm }
    ensures counts { IfOk result (KeepsCounts program) }
    ensures turned { IfOk result (λ put. HasNoFreeNop program → AreBusy program → Turned put) }
    ensures turned_through { IfOk result (λ put. HasNoFreeNop program → AreBusy program → TurnedThrough put) }
{
    let HardProgram {
        blocks,
        entries,
        initial,
        memory_words,
    } = program;
    let blocks = Sequence::from_vec(schedule_blocks(alloc, blocks.into_vec())?);
    Ok(HardProgram {
        blocks,
        entries,
        initial,
        memory_words,
    })
}
