//! What a run of a program in blocks comes to.

ghost use Rattle.std.specs.Prelude.{◌≡◌, IfOk};
ghost use Rattle.mid_blocks.specs.Run.{block_run};

use crate::run::Run;
use hard_words::{OutOfMemory, Words};
use mid_blocks::{Mid, RunEnd};
use std::alloc::Global;

/// What a run has come to after some steps.
#[derive(Debug, Drop)]
pub struct BlockRan {
    /// The words that it has put out, in order.
    pub output: Words,
    /// How it has ended; none where it goes on.
    pub end: Option<RunEnd>,
}

/// Runs a program in blocks on an input for so many steps, each of one line, or to its end if that comes before. A
/// program that isn't valid runs too: where it has no such line it stands still without an end, a variable without a word
/// counts as 0, as does a word that a global doesn't have, and a word stored where there is none is lost. The only error
/// is want of memory, which is taken for the globals, the output and the active calls.
pub fn run_blocks(
    alloc: Global,
    mid: &Mid,
    input: &[u32],
    steps: u64,
) -> Result<BlockRan, OutOfMemory>
    ensures output { IfOk result (λ ran. ran.output ≡ (block_run mid.now input.now steps).output) }
    ensures end { IfOk result (λ ran. ran.end ≡ (block_run mid.now input.now steps).end) }
{
    let mut run = Run::start(alloc, mid, input)?;
    run.go_on(alloc, mid, steps)?;
    let Run { output, end, .. } = run;
    Ok(BlockRan { output, end })
}
