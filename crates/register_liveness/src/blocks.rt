//! How the blocks of a function hang together: where each begins, and which lead to it.

ghost use Rattle.std.specs.Prelude.{◌≡◌, ℕ, ◌<◌, ◌≤◌, ◌+◌, ◌++◌, ◌⊎◌, ◌↔◌, ◌^◌, [], ◌∷◌, Some, OnOk, IfOk, length, slice_get, slice_index, slice_index_or, slice_set, vec_len};
ghost use Rattle.std.specs.List.{Contains};
ghost use Rattle.mid_blocks.specs.Valid.{ValidFunction};
ghost use Rattle.register_liveness.specs.Uses.{successors};
ghost use Rattle.register_liveness.specs.Blocks.{AreFirsts, ArePredecessors, AreAdded};

use hard_words::{OutOfMemory, Words};
use mid_blocks::{MidEnd, MidFunction};
use std::alloc::Global;

/// The first position of each block.
pub fn first_positions(alloc: Global, function: &MidFunction) -> Result<Vec<u32>, OutOfMemory>
    requires { ValidFunction function.now }
    ensures { IfOk result (λ firsts. AreFirsts function.now firsts.items) }
{
    let mut firsts = Vec::new(alloc);
    let mut at: u32 = 0;
    for block in function.blocks.as_slice() {
        firsts.push(at)?;
        at += block.steps.len() as u32 + 1;
    }
    Ok(firsts)
}

/// Adds a number to one of some lists.
fn add(lists: &mut Vec<Words>, at: usize, word: u32) -> Result<(), OutOfMemory>
    requires { at < vec_len lists.old }
    ensures { OnOk result (AreAdded word (at ∷ []) lists.old.items lists.new.items) }
{
    lists[at].push(word)
}

/// Adds a block to the lists of its successors.
fn add_block(lists: &mut Vec<Words>, block: u32, end: &MidEnd) -> Result<(), OutOfMemory>
    requires next { block + 1 < 2 ^ 32 }
    requires exist { (s : ℕ) → Contains (successors block end.now) s → s < vec_len lists.old }
    ensures { OnOk result (AreAdded block (successors block end.now) lists.old.items lists.new.items) }
{
    match end {
        MidEnd::Jump { to } => add(lists, *to as usize, block),
        MidEnd::Branch { to, .. } => {
            add(lists, block as usize + 1, block)?;
            add(lists, *to as usize, block)
        }
        MidEnd::Call { .. } => add(lists, block as usize + 1, block),
        MidEnd::Return { .. } => Ok(()),
    }
}

/// The blocks that lead to each block.
pub fn predecessors(alloc: Global, function: &MidFunction) -> Result<Vec<Words>, OutOfMemory>
    requires { ValidFunction function.now }
    ensures { IfOk result (λ lists. ArePredecessors function.now lists.items) }
{
    let mut lists = Vec::new(alloc);
    'empty: for _ in 0..function.blocks.len() {
        lists.push(Words::new(alloc))?;
    }
    let mut number: u32 = 0;
    for block in function.blocks.as_slice() {
        add_block(&mut lists, number, &block.end)?;
        number += 1;
    }
    Ok(lists)
}
