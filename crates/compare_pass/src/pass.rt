//! The checks of a block and of a program.

ghost use Rattle.std.specs.Prelude.{◌≡◌, false, IfOk, All, map};
ghost use Rattle.mips_isa.specs.Table.{IsInRange};
ghost use Rattle.hard_items.specs.Counts as counts;
ghost use Rattle.hard_items.specs.Rules.{Twin, Guarded};
ghost use Rattle.compare_pass.specs.Guarding.{with_checks, checked_block, checked_program};
ghost use Rattle.compare_pass.specs.Law.{SameCounts};
ghost use Rattle.hard_items.specs.Runs.{SameRuns};

use crate::uses::put_guarded;
use hard_items::{Class, HardBlock, HardProgram, Item};
use hard_words::{OutOfMemory, Sequence};
use std::alloc::Global;

/// Whether a class is that of a check.
fn is_of_check(class: Class) -> bool
    ensures { result ≡ counts.is_of_check class }
{
    match class {
        Class::Check => true,
        _ => false,
    }
}

/// Items with their checks.
fn guard_items(alloc: Global, items: &[Item]) -> Result<Vec<Item>, OutOfMemory>
    requires { All (λ i. IsInRange i.instr) items.now }
    ensures { IfOk result (λ put. put.items ≡ with_checks false items.now) }
{
    let mut out = Vec::new(alloc);
    let mut checked = false;
    for item in items {
        put_guarded(&mut out, *item, checked)?;
        checked = is_of_check(item.class);
    }
    Ok(out)
}

/// A block with its checks.
fn guard_block(alloc: Global, block: HardBlock) -> Result<HardBlock, OutOfMemory>
    requires { All (λ i. IsInRange i.instr) block.items }
    ensures { IfOk result (λ put. put ≡ checked_block block) }
{
    let HardBlock { items, successors } = block;
    let items = Sequence::from_vec(guard_items(alloc, items.as_slice())?);
    Ok(HardBlock { items, successors })
}

/// Blocks with their checks.
fn guard_blocks(alloc: Global, blocks: Vec<HardBlock>) -> Result<Vec<HardBlock>, OutOfMemory>
    requires { All (λ b. All (λ i. IsInRange i.instr) b.items) blocks.items }
    ensures { IfOk result (λ put. put.items ≡ map checked_block blocks.items) }
{
    let mut out = Vec::new(alloc);
    for block in blocks {
        out.push(guard_block(alloc, block)?)?;
    }
    Ok(out)
}

/// The program with its checks set: before each use of a register that acts for both streams, the check that the streams hold
/// the same in it, where it doesn't stand there already.
pub fn guard(alloc: Global, program: HardProgram) -> Result<HardProgram, OutOfMemory>
    requires { Twin program }
    ensures checks_stand { IfOk result (λ put. put ≡ checked_program program) }
    ensures same_runs { IfOk result (SameRuns program) }
    ensures guarded { IfOk result Guarded }
    ensures twin { IfOk result Twin }
    ensures counts_stay { IfOk result (SameCounts program) }
{
    let HardProgram {
        blocks,
        entries,
        initial,
        memory_words,
    } = program;
    let blocks = Sequence::from_vec(guard_blocks(alloc, blocks.into_vec())?);
    Ok(HardProgram {
        blocks,
        entries,
        initial,
        memory_words,
    })
}
