//! New numbers: how many places before a place are marked.

ghost use Rattle.std.specs.Prelude.{◌≡◌, ◌+◌, ◌≤◌, IfOk};
ghost use Rattle.mid_blocks.specs.Pruned.{marked_before};
ghost use Rattle.mid_prune.specs.Counts.{AreCounts};

use crate::marks::Marks;
use hard_words::OutOfMemory;
use std::alloc::Global;

/// How many are marked before each place, and behind the last place of all.
pub(crate) fn counts(alloc: Global, marks: &Marks) -> Result<Vec<usize>, OutOfMemory>
    ensures { IfOk result (λ counts. AreCounts marks.now counts.items) }
{
    let mut counts = Vec::new(alloc);
    let mut count: usize = 0;
    for at in 0..marks.len() {
        counts.push(count)?;
        if marks.get(at) {
            count += 1;
        }
    }
    counts.push(count)?;
    Ok(counts)
}

/// The new number of a place.
pub(crate) fn number(marks: &Marks, counts: &[usize], at: u32) -> u32
    requires { AreCounts marks.now counts.now }
    ensures { result ≡ marked_before marks.now at }
{
    let last = marks.len();
    let place = at as usize;
    if place < last {
        counts[place] as u32
    } else {
        counts[last] as u32
    }
}
