//! How the blocks of a function follow each other, and which functions of a program are called.

ghost use Rattle.std.specs.Prelude.{◌≡◌, ℕ, ◌+◌, ◌<◌, ◌≤◌, ◌-◌, ◌↔◌, ◌^◌, IsTrue, length, slice_get, slice_index_or};
ghost use Rattle.mid_blocks.specs.Tested.{names, is_called, AreMarks, HoldsWithin, HoldsBelow, follows, enters, block_before, is_entered, may_stay};

use crate::marks::{lower, raise_called, raise_named};
use mid_blocks::{MidBlock, MidEnd, MidFunction};

/// Whether a block may follow one that ends so.
fn follows(end: &MidEnd, named: bool) -> bool
    ensures { result ≡ follows end.now named }
{
    match end {
        MidEnd::Jump { .. } | MidEnd::Return { .. } => named,
        MidEnd::Branch { .. } => true,
        MidEnd::Call { .. } => !named,
    }
}

/// Whether a block is entered as it must be.
fn enters(blocks: &[MidBlock], block: usize, named: bool) -> bool
    requires { block < length blocks.now }
    ensures { result ≡ enters (block_before blocks.now block) named }
{
    if block == 0 {
        return !named;
    }
    follows(&blocks[block - 1].end, named)
}

/// Whether each block of a window is entered as it must be.
fn window_fits(blocks: &[MidBlock], low: usize, marks: &[bool]) -> bool
    requires within { low < length blocks.now }
    requires marks { AreMarks (λ x. names blocks.now x) low marks.now }
    ensures { IsTrue result ↔ HoldsWithin (λ x. is_entered blocks.now x) low (length marks.now) (length blocks.now) }
{
    for at in 0..marks.len() {
        if at >= blocks.len() - low {
            return true;
        }
        if !enters(blocks, low + at, marks[at]) {
            return false;
        }
    }
    true
}

/// Whether each block is entered as it must be. The marks are room for a window.
pub(crate) fn entries_fit(blocks: &[MidBlock], marks: &mut [bool]) -> bool
    requires { 0 < length marks.old }
    ensures { IsTrue result ↔ HoldsBelow (λ x. is_entered blocks.now x) (length blocks.now) }
{
    let mut low: usize = 0;
    while low < blocks.len() {
        lower(marks);
        raise_named(marks, low, blocks);
        if !window_fits(blocks, low, marks) {
            return false;
        }
        low += marks.len();
    }
    true
}

/// Whether each function of a window but function 0 is called.
fn window_called(functions: &[MidFunction], low: usize, marks: &[bool]) -> bool
    requires within { low < length functions.now }
    requires marks { AreMarks (λ x. is_called functions.now x) low marks.now }
    ensures { IsTrue result ↔ HoldsWithin (λ x. may_stay functions.now x) low (length marks.now) (length functions.now) }
{
    for at in 0..marks.len() {
        if at >= functions.len() - low {
            return true;
        }
        if low + at > 0 && !marks[at] {
            return false;
        }
    }
    true
}

/// Whether each function but function 0 is called. The marks are room for a window.
pub(crate) fn each_called(functions: &[MidFunction], marks: &mut [bool]) -> bool
    requires { 0 < length marks.old }
    ensures { IsTrue result ↔ HoldsBelow (λ x. may_stay functions.now x) (length functions.now) }
{
    let mut low: usize = 0;
    while low < functions.len() {
        lower(marks);
        raise_called(marks, low, functions);
        if !window_called(functions, low, marks) {
            return false;
        }
        low += marks.len();
    }
    true
}
