//! Which numbers the ends of blocks name, in a window: so the tests of a program take no memory, and each looks once at
//! the whole program for each window of numbers.

ghost use Rattle.std.specs.Prelude.{◌≡◌, ℕ, ◌+◌, ◌<◌, ◌≤◌, false, length, slice_index_or};
ghost use Rattle.mid_blocks.specs.Tested.{is_it, names, calls, is_called, AreRaised};

use crate::naming::{callee, target};
use mid_blocks::{MidBlock, MidFunction};

/// How many numbers a window has: a program that can be compiled has at most so many blocks.
pub(crate) const WINDOW: usize = 65_536;

/// Lowers each mark.
pub(crate) fn lower(marks: &mut [bool])
    ensures { (k : ℕ) → k < length marks.old → slice_index_or marks.new k false ≡ false }
{
    for at in 0..marks.len() {
        marks[at] = false;
    }
}

/// Raises the mark of a number, where there is one and it is in the window.
fn raise(marks: &mut [bool], low: usize, number: Option<u32>)
    ensures { AreRaised (λ x. is_it number x) low marks.old marks.new }
{
    if let Some(number) = number {
        let number = number as usize;
        if number >= low && number - low < marks.len() {
            marks[number - low] = true;
        }
    }
}

/// Raises the marks of the blocks that a Jump or a Branch names.
pub(crate) fn raise_named(marks: &mut [bool], low: usize, blocks: &[MidBlock])
    ensures { AreRaised (λ x. names blocks.now x) low marks.old marks.new }
{
    for block in blocks {
        raise(marks, low, target(&block.end));
    }
}

/// Raises the marks of the functions that a Call of some blocks names.
fn raise_calls(marks: &mut [bool], low: usize, blocks: &[MidBlock])
    ensures { AreRaised (λ x. calls blocks.now x) low marks.old marks.new }
{
    for block in blocks {
        raise(marks, low, callee(&block.end));
    }
}

/// Raises the marks of the functions that a Call names.
pub(crate) fn raise_called(marks: &mut [bool], low: usize, functions: &[MidFunction])
    ensures { AreRaised (λ x. is_called functions.now x) low marks.old marks.new }
{
    for function in functions {
        raise_calls(marks, low, function.blocks.as_slice());
    }
}
