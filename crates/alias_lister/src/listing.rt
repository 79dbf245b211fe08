//! The list of aliases, block by block.

ghost use Rattle.std.specs.Prelude.{◌≡◌, ◌==◌, ◌<◌, ◌≤◌, ℕ, ◌+◌, ◌^◌, [], ◌++◌, if◌then◌else◌, OnOk, IfOk, vec_len, length, get_or, slice_index};
ghost use Rattle.std.specs.List.{All};
ghost use Rattle.sign_law.specs.Marks.{HasSigns};
ghost use Rattle.alias_lister.specs.Aliases.{AreAliases, AreLinked};
ghost use Rattle.alias_lister.specs.Listing.{has, members, paired, listed};

use crate::groups::groups;
use hard_items::{HardBlock, Mark, Signed};
use hard_words::{OutOfMemory, Words};
use std::alloc::Global;

/// How many bases there may be.
const BASES: usize = 65_536;

/// Writes a stamp at each block of a list.
fn stamp(stamps: &mut [u32], next: &[u32], with: u32)
    requires { All (λ w. w < length stamps.old) next.now }
    ensures length { length stamps.new ≡ length stamps.old }
    ensures stamped { (w : ℕ) → slice_index stamps.new w ≡ (if has w next.now then with else slice_index stamps.old w) }
{
    for w in next {
        stamps[*w as usize] = with;
    }
}

/// Adds the pairs of a block with those of a group that have no such stamp.
fn put_others(
    out: &mut Vec<(u32, u32)>,
    block: u32,
    group: &[u32],
    stamps: &[u32],
    with: u32,
) -> Result<(), OutOfMemory>
    requires { All (λ w. w < length stamps.now) group.now }
    ensures { OnOk result (out.new.items ≡ out.old.items ++ paired block (λ w. slice_index stamps.now w == with) group.now) }
{
    for w in group {
        if stamps[*w as usize] != with {
            out.push((block, *w))?;
        }
    }
    Ok(())
}

/// Adds the aliases of a block: those of a group that are no successors.
fn put_block(
    out: &mut Vec<(u32, u32)>,
    block: u32,
    group: &[u32],
    next: &[u32],
    stamps: &mut [u32],
) -> Result<(), OutOfMemory>
    requires few { block ≤ 65535 }
    requires group { All (λ w. w < length stamps.old) group.now }
    requires next { All (λ w. w < length stamps.old) next.now }
    requires fresh { (w : ℕ) → slice_index stamps.old w ≤ block }
    ensures put { OnOk result (out.new.items ≡ out.old.items ++ paired block (λ w. has w next.now) group.now) }
    ensures length { length stamps.new ≡ length stamps.old }
    ensures fresh { (w : ℕ) → slice_index stamps.new w ≤ block + 1 }
{
    stamp(stamps, next, block + 1);
    put_others(out, block, group, stamps, block + 1)
}

/// Adds the aliases of all blocks.
fn put_blocks(
    out: &mut Vec<(u32, u32)>,
    blocks: &[HardBlock],
    marks: &[Mark],
    groups: &[Words],
    stamps: &mut [u32],
) -> Result<(), OutOfMemory>
    requires few { length blocks.now ≤ 65535 }
    requires marks { length marks.now ≡ length blocks.now }
    requires stamps { length stamps.old ≡ length blocks.now }
    requires next { All (λ k. All (λ w. w < length blocks.now) k.successors) blocks.now }
    requires many { 2 ^ 16 ≤ length groups.now }
    requires groups { (b : ℕ) → b < 2 ^ 16 → get_or groups.now b [] ≡ members b 0 marks.now }
    requires fresh { (w : ℕ) → slice_index stamps.old w ≡ 0 }
    ensures { OnOk result (out.new.items ≡ out.old.items ++ listed marks.now 0 blocks.now) }
{
    for (number, block) in blocks.iter().enumerate() {
        let base = (marks[number].s ^ marks[number].adjust) as usize;
        put_block(
            out,
            number as u32,
            groups[base].as_slice(),
            block.successors.as_slice(),
            stamps,
        )?;
    }
    Ok(())
}

/// The aliases of a signed program: the pairs of two block numbers, ascending, where the second block is no successor of the first
/// and its head passes behind the first all the same. The work is linear in the blocks, the edges and the blocks of the groups that
/// are gone along, which are aliases or successors. The condition: there are at most 65,535 blocks, each with the mark of the
/// program's graph.
///
/// # Errors
///
/// [`OutOfMemory`] where there is no memory for the groups or the list.
pub fn aliases(alloc: Global, signed: &Signed) -> Result<Vec<(u32, u32)>, OutOfMemory>
    requires few { length signed.now.program.blocks ≤ 65535 }
    requires signs { HasSigns signed.now }
    ensures aliases { IfOk result (λ pairs. AreAliases signed.now pairs.items) }
    ensures linked { IfOk result (λ pairs. AreLinked signed.now pairs.items) }
{
    let marks = signed.marks.as_slice();
    let blocks = signed.program.blocks.as_slice();
    let all_groups = groups(alloc, marks, BASES)?;
    let mut stamps = vec![in alloc; 0u32; blocks.len()]?;
    let mut out = Vec::new(alloc);
    put_blocks(
        &mut out,
        blocks,
        marks,
        all_groups.as_slice(),
        stamps.as_mut_slice(),
    )?;
    Ok(out)
}
