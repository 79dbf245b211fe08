//! Runs from the start.

ghost use Rattle.std.specs.Prelude.{◌≡◌, ◌≤◌, length, IfOk, OnOk};
ghost use Rattle.hard_runs.specs.Stepping.{put};
ghost use Rattle.hard_items.specs.Run.{first_spot, item_run};
ghost use Rattle.hard_items.specs.WellFormed.{WellFormed};
ghost use Rattle.test_oracle.specs.Ran.{seen};
ghost use Rattle.test_oracle.specs.Standing.{Stands, Came};

use crate::item_runner::Runner;
use hard_items::HardProgram;
use hard_words::{OutOfMemory, Words};
use mips_isa::End;
use std::alloc::Global;

/// What stands after some steps of a run.
#[derive(Debug, Drop)]
pub struct ItemRan {
    /// The words that were put out so far, in order.
    pub output: Words,
    /// How the run ended, if it did. Of an exception or a report, `at` is 0: items have no addresses.
    pub end: Option<End>,
}

/// Makes at most `steps` steps, an item each, of a program from its start, with these words as its input.
///
/// # Errors
///
/// [`OutOfMemory`] where there is no memory.
pub fn run_items(
    alloc: Global,
    program: &HardProgram,
    input: &[u32],
    steps: u64,
) -> Result<ItemRan, OutOfMemory>
    requires program { WellFormed program.now }
    requires input { length input.now ≤ 1000000 }
    ensures { IfOk result (λ ran. seen ran ≡ item_run program.now input.now steps) }
{
    let mut runner = Runner::start(alloc, program, input)?;
    let output = run_on(alloc, program, input, steps, &mut runner)?;
    Ok(ItemRan {
        output,
        end: runner.end(),
    })
}

// The steps from the start, and the words that they put out.
fn run_on(
    alloc: Global,
    program: &HardProgram,
    input: &[u32],
    steps: u64,
    runner: &mut Runner,
) -> Result<Words, OutOfMemory>
    requires program { WellFormed program.now }
    requires start { Stands program.now runner.old (first_spot program.now input.now) }
    ensures { IfOk result (λ output. Came program.now input.now steps output runner.new) }
{
    let mut output = Words::new(alloc);
    'steps: for _ in 0..steps {
        if runner.end().is_some() {
            return Ok(output);
        }
        let word = runner.step(program);
        put(&mut output, word)?;
    }
    Ok(output)
}

// Adds the word that a step put out, if any.
fn put(output: &mut Words, word: Option<u32>) -> Result<(), OutOfMemory>
    ensures { OnOk result (output.new ≡ put output.old word) }
{
    match word {
        None => Ok(()),
        Some(word) => output.push(word),
    }
}
