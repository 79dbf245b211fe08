//! What the lines of blocks name, and whether it exists.

ghost use Rattle.std.specs.Prelude.{◌≡◌, ℕ, nat_lt};
ghost use Rattle.std.specs.List.{list_all};
ghost use Rattle.mid_blocks.specs.Lines.{Step, End, block_lines};
ghost use Rattle.mid_blocks.specs.Tested.{is_below, line_fits, callee, call_fits, steps_use};
ghost use Rattle.mid_blocks.specs.Valid.{target, step_global};

use mid_blocks::{MidBlock, MidEnd, MidFunction, MidStep};

/// Whether a number, where there is one, is below a bound.
pub(crate) fn is_below(number: Option<u32>, bound: usize) -> bool
    ensures { result ≡ is_below bound number }
{
    match number {
        Some(number) => (number as usize) < bound,
        None => true,
    }
}

/// Whether each of some numbers is below a bound.
fn are_below(numbers: &[u32], bound: usize) -> bool
    ensures { result ≡ list_all (λ x. nat_lt x bound) numbers.now }
{
    numbers.iter().all(|number| (*number as usize) < bound)
}

/// Whether the variables that a step names are below a bound.
fn step_fits(step: &MidStep, bound: u32) -> bool
    ensures { result ≡ line_fits bound (Step step.now) }
{
    match *step {
        MidStep::Constant { to, .. } => to < bound,
        MidStep::Copy { to, from } => from < bound && to < bound,
        MidStep::Operate {
            to,
            left,
            right,
            ..
        } => left < bound && right < bound && to < bound,
        MidStep::Guard { index, .. } => index < bound,
        MidStep::Load { to, index, .. } => is_below(index, bound as usize) && to < bound,
        MidStep::Store { index, from, .. } => is_below(index, bound as usize) && from < bound,
        MidStep::Input { to } => to < bound,
        MidStep::Output { from } => from < bound,
        MidStep::Deep { test } => test < bound,
    }
}

/// Whether the variables that the end of a block names are below a bound.
fn end_fits(end: &MidEnd, bound: u32) -> bool
    ensures { result ≡ line_fits bound (End end.now) }
{
    match end {
        MidEnd::Jump { .. } => true,
        MidEnd::Branch { test, .. } => *test < bound,
        MidEnd::Call { args, result, .. } => {
            are_below(args.as_slice(), bound as usize) && is_below(*result, bound as usize)
        }
        MidEnd::Return { from } => is_below(*from, bound as usize),
    }
}

/// Whether the variables that each of some steps names are below a bound.
fn steps_fit(steps: &[MidStep], bound: u32) -> bool
    ensures { result ≡ list_all (λ step. line_fits bound (Step step)) steps.now }
{
    steps.iter().all(|step| step_fits(step, bound))
}

/// Whether the variables that the lines of a block name are below a bound.
pub(crate) fn block_fits(block: &MidBlock, bound: u32) -> bool
    ensures { result ≡ list_all (λ line. line_fits bound line) (block_lines block.now) }
{
    steps_fit(block.steps.as_slice(), bound) && end_fits(&block.end, bound)
}

/// The global that a step names, if it names one.
fn step_global(step: &MidStep) -> Option<u32>
    ensures { result ≡ step_global step.now }
{
    match *step {
        MidStep::Guard { global, .. }
        | MidStep::Load { global, .. }
        | MidStep::Store { global, .. } => Some(global),
        _ => None,
    }
}

/// Whether the globals that each of some steps names are below a bound.
pub(crate) fn steps_use(steps: &[MidStep], bound: usize) -> bool
    ensures { result ≡ steps_use bound steps.now }
{
    steps.iter().all(|step| is_below(step_global(step), bound))
}

/// The block that a Jump or a Branch names.
pub(crate) fn target(end: &MidEnd) -> Option<u32>
    ensures { result ≡ target end.now }
{
    match end {
        MidEnd::Jump { to } | MidEnd::Branch { to, .. } => Some(*to),
        MidEnd::Call { .. } | MidEnd::Return { .. } => None,
    }
}

/// The function that a Call names.
pub(crate) fn callee(end: &MidEnd) -> Option<u32>
    ensures { result ≡ callee end.now }
{
    match end {
        MidEnd::Call { function, .. } => Some(*function),
        _ => None,
    }
}

/// Whether what a Call names is there and takes its arguments.
pub(crate) fn call_fits(functions: &[MidFunction], end: &MidEnd) -> bool
    ensures { result ≡ call_fits functions.now end.now }
{
    match end {
        MidEnd::Call { function, args, .. } => {
            match functions.get(*function as usize) {
                Some(f) => f.params as usize == args.len(),
                None => false,
            }
        }
        _ => true,
    }
}
