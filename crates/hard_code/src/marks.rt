//! Which numbers are called and which are named, in a window: so the tests take no memory, and each looks once at the whole
//! program for each window of numbers.

ghost use Rattle.std.specs.Prelude.{◌≡◌, ℕ, ◌+◌, ◌<◌, ◌≤◌, ◌==◌, false, length, slice_index_or};
ghost use Rattle.std.specs.List.{list_any};
ghost use Rattle.hard_code.specs.Tested.{is_it, is_called, is_named, AreRaised};

use crate::leaves::{block_leave, callee};
use hard_items::HardBlock;

/// How many numbers a window has.
pub(crate) const WINDOW: usize = 65_536;

/// Lowers each mark.
pub(crate) fn lower(marks: &mut [bool])
    ensures { (k : ℕ) → k < length marks.old → slice_index_or marks.new k false ≡ false }
{
    for at in 0..marks.len() {
        marks[at] = false;
    }
}

/// Raises the mark of a number, where there is one and it is in the window.
fn raise(marks: &mut [bool], low: usize, number: Option<u32>)
    ensures { AreRaised (λ x. is_it number x) low marks.old marks.new }
{
    if let Some(number) = number {
        let number = number as usize;
        if number >= low && number - low < marks.len() {
            marks[number - low] = true;
        }
    }
}

/// Raises the marks of some numbers.
fn raise_each(marks: &mut [bool], low: usize, numbers: &[u32])
    ensures { AreRaised (λ x. list_any (λ y. y == x) numbers.now) low marks.old marks.new }
{
    for number in numbers {
        raise(marks, low, Some(*number));
    }
}

/// Raises the marks of the blocks that are successors of one.
pub(crate) fn raise_named(marks: &mut [bool], low: usize, blocks: &[HardBlock])
    ensures { AreRaised (λ x. is_named blocks.now x) low marks.old marks.new }
{
    for block in blocks {
        raise_each(marks, low, block.successors.as_slice());
    }
}

/// Raises the marks of the functions that are called.
pub(crate) fn raise_called(marks: &mut [bool], low: usize, blocks: &[HardBlock])
    ensures { AreRaised (λ x. is_called blocks.now x) low marks.old marks.new }
{
    for block in blocks {
        raise(marks, low, callee(block_leave(block)));
    }
}
