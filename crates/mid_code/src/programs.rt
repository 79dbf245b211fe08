//! Whether a program in blocks is valid.

ghost use Rattle.std.specs.Prelude.{◌≡◌, ℕ, ◌+◌, ◌≤◌, ◌↔◌, IsTrue, nat_le, map, sum, length, slice_get};
ghost use Rattle.std.specs.List.{All, list_all};
ghost use Rattle.mid_blocks.specs.Lines.{lines};
ghost use Rattle.mid_blocks.specs.Valid.{ValidFunction, Valid};
ghost use Rattle.mid_blocks.specs.Tested.{is_main, blocks_use, blocks_call, globals_exist, calls_fit, names_fit};

use crate::entries::each_called;
use crate::marks::WINDOW;
use crate::naming::{call_fits, steps_use};
use crate::validity::{count_lines, valid_function};
use hard_words::Words;
use mid_blocks::{Mid, MidBlock, MidFunction};

/// The most words that the globals and the chain of calls take together.
const MOST_WORDS: usize = 32_768;

/// Whether each function is valid.
fn each_valid(functions: &[MidFunction]) -> bool
    ensures { IsTrue result ↔ All ValidFunction functions.now }
{
    for function in functions {
        if !valid_function(function) {
            return false;
        }
    }
    true
}

/// Whether there is a function, and function 0 has no parameters.
fn is_main(functions: &[MidFunction]) -> bool
    ensures { result ≡ is_main (slice_get functions.now 0) }
{
    match functions.get(0) {
        Some(function) => function.params == 0,
        None => false,
    }
}

/// Whether the globals that the steps of some blocks name are below a bound.
fn blocks_use(blocks: &[MidBlock], bound: usize) -> bool
    ensures { result ≡ blocks_use bound blocks.now }
{
    blocks
        .iter()
        .all(|block| steps_use(block.steps.as_slice(), bound))
}

/// Whether each global that is named exists.
fn globals_exist(functions: &[MidFunction], globals: usize) -> bool
    ensures { result ≡ globals_exist globals functions.now }
{
    functions
        .iter()
        .all(|function| blocks_use(function.blocks.as_slice(), globals))
}

/// Whether each function that a Call of some blocks names exists and takes its arguments.
fn blocks_call(blocks: &[MidBlock], functions: &[MidFunction]) -> bool
    ensures { result ≡ blocks_call functions.now blocks.now }
{
    blocks.iter().all(|block| call_fits(functions, &block.end))
}

/// Whether each function that is called exists and takes its arguments.
fn calls_fit(functions: &[MidFunction]) -> bool
    ensures { result ≡ calls_fit functions.now }
{
    functions.iter().all(|function| blocks_call(function.blocks.as_slice(), functions))
}

/// Whether the globals and the chain of calls have room.
fn store_fits(globals: &[Words], chain_pairs: u32) -> bool
    ensures { result ≡ nat_le (sum (map length globals.now) + chain_pairs) 32768 }
{
    let mut words = chain_pairs as usize;
    if words > MOST_WORDS {
        return false;
    }
    for global in globals {
        if global.len() > MOST_WORDS - words {
            return false;
        }
        words += global.len();
    }
    true
}

/// Whether the lines of all functions together are few enough.
fn few_lines(functions: &[MidFunction]) -> bool
    ensures { result ≡ nat_le (sum (map (λ f. length (lines f)) functions.now)) 62914560 }
{
    let mut count: usize = 0;
    for function in functions {
        match count_lines(function.blocks.as_slice(), count) {
            Some(lines) => count = lines,
            None => return false,
        }
    }
    true
}

/// Whether what the functions name exists, and they have room.
fn names_fit(mid: &Mid) -> bool
    ensures { result ≡ names_fit mid.now }
{
    let functions = mid.functions.as_slice();
    is_main(functions)
        && globals_exist(functions, mid.globals.len())
        && calls_fit(functions)
        && store_fits(mid.globals.as_slice(), mid.chain_pairs)
        && few_lines(functions)
}

/// Whether a program is valid. It takes no memory, and looks at each line once, and at each block once more for each
/// 65,536 blocks of its function and for each 65,536 functions that there are.
pub fn valid(mid: &Mid) -> bool
    ensures { IsTrue result ↔ Valid mid.now }
{
    let mut marks = [false; WINDOW];
    let functions = mid.functions.as_slice();
    if !each_valid(functions) {
        return false;
    }
    names_fit(mid) && each_called(functions, &mut marks)
}
