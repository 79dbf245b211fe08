//! The splitting of critical edges, as a whole.

ghost use Rattle.std.specs.Prelude.{◌≡◌, ℕ, ◌+◌, ◌^◌, ◌<◌, ◌≤◌, IfOk, All, map, length, slice_index, get_or};
ghost use Rattle.hard_items.specs.WellFormed.{WellFormed};
ghost use Rattle.edge_split.specs.declared.plan.Plan.TheVariants as made;
ghost use Rattle.edge_split.specs.Split.{split_blocks, smoothed};
ghost use Rattle.edge_split.specs.Built.{plan_as, plan_list, AllThere, GoalThere};

use crate::counts::{counts_of, marks_of};
use crate::place::{placed_blocks, put_block};
use crate::plan::{Plan, places_of, plans_of};
use hard_items::{HardBlock, HardProgram};
use hard_words::{OutOfMemory, Sequence, Words};
use std::alloc::{AllocError, Global};

/// The plans of a program's blocks.
fn all_plans(alloc: Global, program: &HardProgram) -> Result<Vec<Plan>, AllocError>
    requires well_formed { WellFormed program.now }
    requires few { length program.now.blocks ≤ 65535 }
    ensures { IfOk result (λ v. map plan_as v.items ≡ plan_list program.now) }
{
    let blocks = program.blocks.as_slice();
    let counts = counts_of(alloc, blocks)?;
    let marks = marks_of(alloc, blocks)?;
    plans_of(alloc, blocks, counts.as_slice(), marks.as_slice())
}

/// The blocks in their places, with those that are put behind them.
fn put_blocks(
    alloc: Global,
    blocks: &[HardBlock],
    plans: &[Plan],
    places: &[u32],
) -> Result<Vec<HardBlock>, AllocError>
    requires there { All (AllThere (length places.now)) blocks.now }
    requires plans { length plans.now ≡ length blocks.now }
    requires places { length places.now ≡ length blocks.now + 1 }
    requires goals { All (λ r. GoalThere (length places.now) (plan_as r)) plans.now }
    requires low { All (λ n. n + 2 < 2 ^ 32) places.now }
    ensures { IfOk result (λ v. v.items ≡ split_blocks (slice_index places.now) (λ b. plan_as (get_or plans.now b made.Keep)) 0 blocks.now) }
{
    let mut out = Vec::new(alloc);
    for (number, block) in blocks.iter().enumerate() {
        put_block(alloc, &mut out, block, number, plans[number], places)?;
    }
    Ok(out)
}

/// A program with its critical edges split: each edge from a block with at least two successors to a block with at least two
/// predecessors goes through a block of its own, which only jumps on. The block of an edge to the next block stands right behind the
/// branch, that of an edge of a return right behind the call; where the edge to the goal of a branch is critical and the other isn't,
/// the branch turns, and where both are, the block of the goal is the second behind the branch. The condition: there are at most
/// 65,535 blocks.
///
/// # Errors
///
/// [`OutOfMemory`] where there is no memory.
pub fn split(alloc: Global, program: HardProgram) -> Result<HardProgram, OutOfMemory>
    requires well_formed { WellFormed program }
    requires few { length program.blocks ≤ 65535 }
    ensures { IfOk result (λ q. q ≡ smoothed program) }
{
    let all = all_plans(alloc, &program)?;
    let plans = all.as_slice();
    let all_places = places_of(alloc, plans)?;
    let places = all_places.as_slice();
    let blocks = put_blocks(alloc, program.blocks.as_slice(), plans, places)?;
    let entries = placed_blocks(alloc, program.entries.as_slice(), places)?;
    Ok(HardProgram {
        blocks: Sequence::from_vec(blocks),
        entries: Words::from_vec(entries),
        initial: program.initial,
        memory_words: program.memory_words,
    })
}
