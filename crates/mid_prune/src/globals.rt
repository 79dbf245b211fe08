//! A program in blocks without the last globals, where no step uses them.

ghost use Rattle.std.specs.Prelude.{◌≡◌};
ghost use Rattle.mid_blocks.specs.Valid.{step_global};
ghost use Rattle.mid_prune.specs.Trims.{is_beyond, steps_pass, blocks_pass, functions_pass, Trims};

use hard_words::Sequence;
use mid_blocks::{Mid, MidBlock, MidFunction, MidStep};

/// Whether a step names a global that is not below a bound.
fn step_passes(step: &MidStep, bound: usize) -> bool
    ensures { result ≡ is_beyond bound (step_global step.now) }
{
    match *step {
        MidStep::Guard { global, .. }
        | MidStep::Load { global, .. }
        | MidStep::Store { global, .. } => (global as usize) >= bound,
        _ => false,
    }
}

/// Whether some step does.
fn steps_pass(steps: &[MidStep], bound: usize) -> bool
    ensures { result ≡ steps_pass bound steps.now }
{
    steps.iter().any(|step| step_passes(step, bound))
}

/// Whether a step of some block does.
fn blocks_pass(blocks: &[MidBlock], bound: usize) -> bool
    ensures { result ≡ blocks_pass bound blocks.now }
{
    blocks
        .iter()
        .any(|block| steps_pass(block.steps.as_slice(), bound))
}

/// Whether a step of some function does.
fn functions_pass(functions: &[MidFunction], bound: usize) -> bool
    ensures { result ≡ functions_pass bound functions.now }
{
    functions
        .iter()
        .any(|function| blocks_pass(function.blocks.as_slice(), bound))
}

/// A program with its first globals alone, where no step uses another; else the program as it is.
pub fn trim(mid: Mid, bound: usize) -> Mid
    ensures { Trims mid bound result }
{
    if functions_pass(mid.functions.as_slice(), bound) {
        return mid;
    }
    let Mid {
        functions,
        globals,
        chain_pairs,
    } = mid;
    let mut globals = globals.into_vec();
    globals.truncate(bound);
    Mid {
        functions,
        globals: Sequence::from_vec(globals),
        chain_pairs,
    }
}
