//! The blocks with more than one predecessor, by what a head must be left to pass there.

ghost use Rattle.std.specs.Prelude.{◌≡◌, ◌<◌, ◌≤◌, ℕ, ◌+◌, ◌^◌, [], ◌∷◌, ◌++◌, OnOk, IfOk, vec_len, length, get_or, slice_set, replicate};
ghost use Rattle.alias_lister.specs.Listing.{grouped};

use hard_items::Mark;
use hard_words::{OutOfMemory, Words};
use std::alloc::Global;

/// Adds a block to a group.
fn add(groups: &mut Vec<Words>, at: usize, block: u32) -> Result<(), OutOfMemory>
    requires { at < vec_len groups.old }
    ensures { OnOk result (groups.new.items ≡ slice_set groups.old.items at (get_or groups.old.items at [] ++ block ∷ [])) }
{
    groups[at].push(block)
}

/// So many empty groups.
fn empty_groups(alloc: Global, count: usize) -> Result<Vec<Words>, OutOfMemory>
    ensures { IfOk result (λ groups. groups.items ≡ replicate count []) }
{
    let mut groups = Vec::new(alloc);
    'empty: for _ in 0..count {
        groups.push(Words::new(alloc))?;
    }
    Ok(groups)
}

/// The blocks of each base: those whose head adjusts, by the exclusive or of its difference and its signature.
pub(crate) fn groups(alloc: Global, marks: &[Mark], count: usize) -> Result<Vec<Words>, OutOfMemory>
    requires few { length marks.now < 2 ^ 32 }
    requires room { 2 ^ 16 ≤ count }
    ensures { IfOk result (λ groups. groups.items ≡ grouped 0 marks.now (replicate count [])) }
{
    let mut groups = empty_groups(alloc, count)?;
    let mut block: u32 = 0;
    for mark in marks {
        if mark.fan {
            add(&mut groups, (mark.d ^ mark.s) as usize, block)?;
        }
        block += 1;
    }
    Ok(groups)
}
