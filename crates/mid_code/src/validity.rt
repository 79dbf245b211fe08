//! Whether a function is valid.

ghost use Rattle.std.specs.Prelude.{◌≡◌, ℕ, ◌+◌, ◌-◌, ◌<◌, ◌≤◌, ◌↔◌, IsTrue, nat_le, is_some, length, slice_get, count_by};
ghost use Rattle.std.specs.List.{flat_map};
ghost use Rattle.mid_blocks.specs.Lines.{block_lines};
ghost use Rattle.mid_blocks.specs.Valid.{ValidFunction, is_return};
ghost use Rattle.mid_blocks.specs.Tested.{few, numbers_fit, variables_exist, targets_exist, closes, shape_fits};

use crate::entries::entries_fit;
use crate::marks::WINDOW;
use crate::naming::{block_fits, is_below, target};
use mid_blocks::{MidBlock, MidEnd, MidFunction};

/// The most lines, steps and ends together, of a function and of a program.
const MOST_LINES: usize = 62_914_560;

/// A count of lines with those of some blocks added, where there are few enough.
pub(crate) fn count_lines(blocks: &[MidBlock], before: usize) -> Option<usize>
    requires { before ≤ 62914560 }
    ensures { result ≡ few (before + length (flat_map block_lines blocks.now)) }
{
    let mut lines = before;
    for block in blocks {
        let steps = block.steps.len();
        if steps >= MOST_LINES - lines {
            return None;
        }
        lines += steps + 1;
    }
    Some(lines)
}

/// Whether the numbers of parameters, variables and pairs fit each other.
fn numbers_fit(function: &MidFunction) -> bool
    ensures { result ≡ numbers_fit function.now }
{
    function.params <= function.variables
        && function.variables < function.pairs
        && function.pairs <= 4_002
}

/// Whether each variable that is named exists.
fn variables_exist(blocks: &[MidBlock], variables: u32) -> bool
    ensures { result ≡ variables_exist variables blocks.now }
{
    blocks.iter().all(|block| block_fits(block, variables))
}

/// Whether each block that is named exists.
fn targets_exist(blocks: &[MidBlock]) -> bool
    ensures { result ≡ targets_exist blocks.now }
{
    blocks
        .iter()
        .all(|block| is_below(target(&block.end), blocks.len()))
}

/// Whether there is a block, and the last one has no next block.
fn closes(blocks: &[MidBlock]) -> bool
    ensures { result ≡ closes (slice_get blocks.now (length blocks.now - 1)) }
{
    match blocks.last() {
        Some(last) => match last.end {
            MidEnd::Jump { .. } | MidEnd::Return { .. } => true,
            MidEnd::Branch { .. } | MidEnd::Call { .. } => false,
        },
        None => false,
    }
}

/// Whether the end of a block is a Return.
fn is_return(end: &MidEnd) -> bool
    ensures { result ≡ is_return end.now }
{
    matches!(end, MidEnd::Return { .. })
}

/// Whether at most one block ends by a Return.
fn returns_once(blocks: &[MidBlock]) -> bool
    ensures { result ≡ nat_le (count_by (λ b. is_return b.end) blocks.now) 1 }
{
    blocks.iter().filter(|block| is_return(&block.end)).count() <= 1
}

/// Whether the lines of some blocks are few enough.
fn few_lines(blocks: &[MidBlock]) -> bool
    ensures { result ≡ is_some (few (length (flat_map block_lines blocks.now))) }
{
    count_lines(blocks, 0).is_some()
}

/// Whether a function passes the tests that look at one block at a time.
fn shape_fits(function: &MidFunction) -> bool
    ensures { result ≡ shape_fits function.now }
{
    let blocks = function.blocks.as_slice();
    numbers_fit(function)
        && variables_exist(blocks, function.variables)
        && targets_exist(blocks)
        && closes(blocks)
        && returns_once(blocks)
        && few_lines(blocks)
}

/// Whether a function is valid. It takes no memory, and looks at each line once, and at each block once more for each
/// 65,536 blocks that there are.
pub fn valid_function(function: &MidFunction) -> bool
    ensures { IsTrue result ↔ ValidFunction function.now }
{
    let mut marks = [false; WINDOW];
    let blocks = function.blocks.as_slice();
    shape_fits(function) && entries_fit(blocks, &mut marks)
}
