//! The edges of a program's graph, from where they come and from where they lead to.

ghost use Rattle.std.specs.Prelude.{◌≡◌, ◌<◌, ◌≤◌, ℕ, ◌+◌, ◌^◌, [], ◌∷◌, ◌++◌, map, OnOk, IfOk, vec_len, length, get_or, slice_set, replicate};
ghost use Rattle.std.specs.List.{All};
ghost use Rattle.signature_assign.specs.Edges.{AreEdges, added, turned, backward, twos};

use hard_items::HardBlock;
use hard_words::{OutOfMemory, Words};
use std::alloc::Global;

/// A copy of some words.
fn copy(alloc: Global, words: &[u32]) -> Result<Words, OutOfMemory>
    ensures { IfOk result (λ copied. copied ≡ words.now) }
{
    let mut list = Vec::new(alloc);
    list.extend_from_slice(words)?;
    Ok(Words::from_vec(list))
}

/// The successors of each block.
pub(crate) fn successors(alloc: Global, blocks: &[HardBlock]) -> Result<Vec<Words>, OutOfMemory>
    ensures { IfOk result (λ lists. lists.items ≡ map (λ b. b.successors) blocks.now) }
{
    let mut lists = Vec::new(alloc);
    for block in blocks {
        lists.push(copy(alloc, block.successors.as_slice())?)?;
    }
    Ok(lists)
}

/// Adds a word to one of some lists.
fn add(lists: &mut Vec<Words>, at: usize, word: u32) -> Result<(), OutOfMemory>
    requires { at < vec_len lists.old }
    ensures { OnOk result (lists.new.items ≡ slice_set lists.old.items at (get_or lists.old.items at [] ++ word ∷ [])) }
{
    lists[at].push(word)
}

/// Adds a block to the lists of its successors.
fn add_block(lists: &mut Vec<Words>, block: u32, next: &[u32]) -> Result<(), OutOfMemory>
    requires { All (λ s. s < vec_len lists.old) next.now }
    ensures { OnOk result (lists.new.items ≡ added block next.now lists.old.items) }
{
    for s in next {
        add(lists, *s as usize, block)?;
    }
    Ok(())
}

/// So many empty lists.
fn empty_lists(alloc: Global, count: usize) -> Result<Vec<Words>, OutOfMemory>
    ensures { IfOk result (λ lists. lists.items ≡ replicate count []) }
{
    let mut lists = Vec::new(alloc);
    'empty: for _ in 0..count {
        lists.push(Words::new(alloc))?;
    }
    Ok(lists)
}

/// The predecessors of each block, ascending.
pub(crate) fn predecessors(alloc: Global, successors: &[Words]) -> Result<Vec<Words>, OutOfMemory>
    requires edges { AreEdges successors.now }
    requires few { length successors.now < 2 ^ 32 }
    ensures { IfOk result (λ lists. lists.items ≡ backward successors.now) }
{
    let mut lists = empty_lists(alloc, successors.len())?;
    let mut block: u32 = 0;
    for next in successors {
        add_block(&mut lists, block, next.as_slice())?;
        block += 1;
    }
    Ok(lists)
}

/// Which blocks have at least two predecessors.
pub(crate) fn twos(alloc: Global, predecessors: &[Words]) -> Result<Vec<bool>, OutOfMemory>
    ensures { IfOk result (λ two. two.items ≡ twos predecessors.now) }
{
    let mut two = Vec::new(alloc);
    for before in predecessors {
        two.push(before.len() >= 2)?;
    }
    Ok(two)
}
