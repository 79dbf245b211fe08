//! That each function is called and each block is entered.

ghost use Rattle.std.specs.Prelude.{◌≡◌, ℕ, ◌+◌, ◌<◌, ◌≤◌, ◌-◌, ◌↔◌, ◌==◌, ◌||◌, IsTrue, length, slice_index};
ghost use Rattle.hard_code.specs.Tested.{is_called, may_begin, is_named, enters, is_entered, AreMarks, HoldsWithin, HoldsBelow};

use crate::leaves::{is_call, leave_at};
use crate::marks::{WINDOW, lower, raise_called, raise_named};
use hard_items::HardBlock;

/// Whether a block is entered as it must be.
fn enters(blocks: &[HardBlock], block: usize, named: bool) -> bool
    ensures { result ≡ enters blocks.now block named }
{
    if block == 0 {
        return !named;
    }
    named || is_call(leave_at(blocks, block - 1))
}

/// Whether each block of a window is entered as it must be.
fn window_entered(blocks: &[HardBlock], low: usize, marks: &[bool]) -> bool
    requires within { low < length blocks.now }
    requires marks { AreMarks (λ x. is_named blocks.now x) low marks.now }
    ensures { IsTrue result ↔ HoldsWithin (λ x. is_entered blocks.now x) low (length marks.now) (length blocks.now) }
{
    for at in 0..marks.len() {
        if at >= blocks.len() - low {
            return true;
        }
        if !enters(blocks, low + at, marks[at]) {
            return false;
        }
    }
    true
}

/// Whether each block is entered as it must be.
pub(crate) fn each_entered(blocks: &[HardBlock]) -> bool
    ensures { IsTrue result ↔ HoldsBelow (λ x. is_entered blocks.now x) (length blocks.now) }
{
    let mut marks = [false; WINDOW];
    entered_by(blocks, &mut marks)
}

/// Whether each block is entered as it must be. The marks are room for a window.
fn entered_by(blocks: &[HardBlock], marks: &mut [bool]) -> bool
    requires { 0 < length marks.old }
    ensures { IsTrue result ↔ HoldsBelow (λ x. is_entered blocks.now x) (length blocks.now) }
{
    let mut low: usize = 0;
    while low < blocks.len() {
        lower(marks);
        raise_named(marks, low, blocks);
        if !window_entered(blocks, low, marks) {
            return false;
        }
        low += marks.len();
    }
    true
}

/// Whether each function of a window begins the program or is called.
fn window_called(entries: &[u32], blocks: &[HardBlock], low: usize, marks: &[bool]) -> bool
    requires within { low < length entries.now }
    requires marks { AreMarks (λ x. is_called blocks.now x) low marks.now }
    ensures { IsTrue result ↔ HoldsWithin (λ x. may_begin blocks.now entries.now x) low (length marks.now) (length entries.now) }
{
    for at in 0..marks.len() {
        if at >= entries.len() - low {
            return true;
        }
        if entries[low + at] != 0 && !marks[at] {
            return false;
        }
    }
    true
}

/// Whether each function begins the program or is called.
pub(crate) fn each_called(blocks: &[HardBlock], entries: &[u32]) -> bool
    ensures { IsTrue result ↔ HoldsBelow (λ x. may_begin blocks.now entries.now x) (length entries.now) }
{
    let mut marks = [false; WINDOW];
    called_by(blocks, entries, &mut marks)
}

/// Whether each function begins the program or is called. The marks are room for a window.
fn called_by(blocks: &[HardBlock], entries: &[u32], marks: &mut [bool]) -> bool
    requires { 0 < length marks.old }
    ensures { IsTrue result ↔ HoldsBelow (λ x. may_begin blocks.now entries.now x) (length entries.now) }
{
    let mut low: usize = 0;
    while low < entries.len() {
        lower(marks);
        raise_called(marks, low, blocks);
        if !window_called(entries, blocks, low, marks) {
            return false;
        }
        low += marks.len();
    }
    true
}
