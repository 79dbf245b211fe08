//! What becomes of each block.

ghost use Rattle.std.specs.Prelude.{◌≡◌, ℕ, ◌+◌, ◌*◌, ◌<◌, ◌^◌, IfOk, length, map};
ghost use Rattle.far_branches.specs.Widen.{first_goal};
ghost use Rattle.edge_split.specs.Split as Split;
ghost use Rattle.edge_split.specs.Built.{plan_as, planned, all_planned, extra, places_by};

use crate::counts::{calls, is_marked, joins, returns};
use hard_items::{Fix, HardBlock, Item};
use mips_isa::Instr;
use std::alloc::{AllocError, Global};

/// What becomes of a block.
#[derive(Clone, Copy, Debug, PartialEq, Eq)]
pub(crate) enum Plan {
    /// It has no critical edge.
    Keep,
    /// It returns: its edges are split behind the calls.
    Returns,
    /// It calls, and the edge of the return to the next block is critical.
    Calls,
    /// Its edge to the next block is critical.
    Falls,
    /// The edge to the goal of its branch is critical: the branch turns.
    Turns(u32),
    /// Both edges of its branch are critical.
    Forks(u32),
}

/// The block to which a conditional branch goes, where it is another than the next block.
fn branch_goal(block: u32, item: &Item) -> Option<u32>
    requires { block + 1 < 2 ^ 32 }
    ensures { result ≡ Rattle.far_branches.specs.Widen.branch_goal block item.now }
{
    match (item.instr, item.fix) {
        (Instr::Beq { .. } | Instr::Bne { .. }, Fix::Block(goal)) if goal != block + 1 => Some(
            goal,
        ),
        _ => None,
    }
}

/// The same of the first such branch among the items of a block.
fn first_branch_goal(block: u32, items: &[Item]) -> Option<u32>
    requires { block + 1 < 2 ^ 32 }
    ensures { result ≡ first_goal block items.now }
{
    for item in items {
        if let Some(goal) = branch_goal(block, item) {
            return Some(goal);
        }
    }
    None
}

/// The plan of a block that branches to a block, by its edges that are critical.
fn branch_plan(falls: bool, taken: bool, goal: u32) -> Plan
    ensures { plan_as result ≡ Split.branch_plan falls taken goal }
{
    match (falls, taken) {
        (false, false) => Plan::Keep,
        (true, false) => Plan::Falls,
        (false, true) => Plan::Turns(goal),
        (true, true) => Plan::Forks(goal),
    }
}

/// The plan of any other block.
fn other_plan(returns: bool, calls: bool, critical: bool) -> Plan
    ensures { plan_as result ≡ Split.other_plan returns calls critical }
{
    if returns {
        Plan::Returns
    } else if calls && critical {
        Plan::Calls
    } else {
        Plan::Keep
    }
}

/// The plan of a block, by the counts of edges and the marks of returns.
fn plan_block(block: u32, items: &[Item], counts: &[u8], marks: &[bool]) -> Plan
    requires { block + 1 < 2 ^ 32 }
    ensures { plan_as result ≡ planned counts.now marks.now block items.now }
{
    let next = block as usize + 1;
    match first_branch_goal(block, items) {
        Some(goal) => branch_plan(joins(counts, next), joins(counts, goal as usize), goal),
        None => other_plan(
            returns(items),
            calls(items),
            joins(counts, next) && is_marked(marks, next),
        ),
    }
}

/// The plans of all blocks.
pub(crate) fn plans_of(
    alloc: Global,
    blocks: &[HardBlock],
    counts: &[u8],
    marks: &[bool],
) -> Result<Vec<Plan>, AllocError>
    requires { length blocks.now < 2 ^ 32 }
    ensures { IfOk result (λ v. map plan_as v.items ≡ all_planned counts.now marks.now 0 blocks.now) }
{
    let mut plans = Vec::new(alloc);
    let mut at: u32 = 0;
    for block in blocks {
        plans.push(plan_block(at, block.items.as_slice(), counts, marks))?;
        at += 1;
    }
    Ok(plans)
}

/// How many blocks are put behind a block.
fn extra(plan: Plan) -> u32
    ensures { result ≡ extra (plan_as plan) }
{
    match plan {
        Plan::Keep | Plan::Returns => 0,
        Plan::Calls | Plan::Falls | Plan::Turns(_) => 1,
        Plan::Forks(_) => 2,
    }
}

/// The places of blocks, and last how many blocks there are.
pub(crate) fn places_of(alloc: Global, plans: &[Plan]) -> Result<Vec<u32>, AllocError>
    requires { length plans.now < 2 ^ 30 }
    ensures { IfOk result (λ v. v.items ≡ places_by 0 (map plan_as plans.now)) }
{
    let mut places = Vec::new(alloc);
    let mut at: u32 = 0;
    for plan in plans {
        places.push(at)?;
        at += 1 + extra(*plan);
    }
    places.push(at)?;
    Ok(places)
}
