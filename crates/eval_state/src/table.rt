//! Tables that have 0 wherever nothing was put.

ghost use Rattle.std.specs.Prelude.{◌≡◌, ◌<◌, ℕ, OnOk, length, slice_index};
ghost use Rattle.eval_state.specs.Files.{Notes};

use std::alloc::AllocError;

/// The number at an index.
pub fn at(table: &[usize], index: usize) -> usize
    ensures { result ≡ slice_index table.now index }
{
    match table.get(index) {
        None => 0,
        Some(number) => *number,
    }
}

/// Makes room for an index.
pub fn grow(table: &mut Vec<usize>, index: usize) -> Result<(), AllocError>
    ensures same { (k : ℕ) → slice_index table.new.items k ≡ slice_index table.old.items k }
    ensures room { OnOk result (index < length table.new.items) }
{
    while table.len() <= index {
        table.push(0)?;
    }
    Ok(())
}

/// Notes a number for an index that has none.
pub fn note(table: &mut Vec<usize>, index: usize, number: usize)
    requires { index < length table.old.items }
    ensures { Notes table.old.items index number table.new.items }
{
    if table[index] == 0 {
        table[index] = number;
    }
}
