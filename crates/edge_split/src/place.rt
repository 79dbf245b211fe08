//! Blocks in their places, and the blocks that only jump on.

ghost use Rattle.std.specs.Prelude.{◌≡◌, [], ◌∷◌, ℕ, ◌+◌, ◌-◌, ◌^◌, ◌<◌, ◌++◌, IfOk, OnOk, All, map, length, slice_index};
ghost use Rattle.hard_items.specs.Forms.{Jump, close_items};
ghost use Rattle.block_relays.specs.Renumber as Renumber;
ghost use Rattle.block_relays.specs.Renumber.{return_place};
ghost use Rattle.block_relays.specs.Relays as Relays;
ghost use Rattle.block_relays.specs.Relays.{put_item, goals};
ghost use Rattle.edge_split.specs.Split as Split;
ghost use Rattle.edge_split.specs.Split.{relays_as, successors_as, placed_block, relay_block};
ghost use Rattle.edge_split.specs.Built.{plan_as, PlaceThere, AllThere, GoalThere};

use crate::plan::Plan;
use hard_items::{Class, Fix, HardBlock, Item};
use hard_words::{Sequence, Words};
use mips_isa::Instr;
use std::alloc::{AllocError, Global};

/// The opposite branch.
fn opposite(instr: Instr) -> Instr
    ensures { result ≡ Renumber.opposite instr }
{
    match instr {
        Instr::Beq { rs, rt, imm } => Instr::Bne { rs, rt, imm },
        Instr::Bne { rs, rt, imm } => Instr::Beq { rs, rt, imm },
        other => other,
    }
}

/// The block to which an item goes in its place, that went to another.
fn goal_place(goal: u32, block: usize, plan: Plan, places: &[u32]) -> u32
    requires goal { goal < length places.now }
    requires next { block + 1 < length places.now }
    requires low { slice_index places.now block + 2 < 2 ^ 32 }
    ensures { result ≡ Relays.goal_place (slice_index places.now) block (relays_as (plan_as plan)) goal }
{
    match plan {
        Plan::Turns(_) => places[block + 1],
        Plan::Forks(_) => places[block] + 2,
        _ => places[goal as usize],
    }
}

/// An instruction that goes to a block, in its place.
fn turned(instr: Instr, plan: Plan) -> Instr
    ensures { result ≡ Relays.turned (relays_as (plan_as plan)) instr }
{
    match plan {
        Plan::Turns(_) => opposite(instr),
        _ => instr,
    }
}

/// An item of a block in its place.
fn placed_item(item: &Item, block: usize, plan: Plan, places: &[u32]) -> Item
    requires there { PlaceThere (length places.now) item.now.fix }
    requires next { block + 1 < length places.now }
    requires low { slice_index places.now block + 2 < 2 ^ 32 }
    ensures { result ≡ put_item (slice_index places.now) block (relays_as (plan_as plan)) item.now }
{
    match item.fix {
        Fix::Block(goal) => Item {
            instr: turned(item.instr, plan),
            class: item.class,
            fix: Fix::Block(goal_place(goal, block, plan, places)),
        },
        _ => *item,
    }
}

/// The items of a block in their place.
fn placed_items(
    alloc: Global,
    items: &[Item],
    block: usize,
    plan: Plan,
    places: &[u32],
) -> Result<Vec<Item>, AllocError>
    requires there { All (λ i. PlaceThere (length places.now) i.fix) items.now }
    requires next { block + 1 < length places.now }
    requires low { slice_index places.now block + 2 < 2 ^ 32 }
    ensures { IfOk result (λ v. v.items ≡ map (put_item (slice_index places.now) block (relays_as (plan_as plan))) items.now) }
{
    let mut placed = Vec::new(alloc);
    for item in items {
        placed.push(placed_item(item, block, plan, places))?;
    }
    Ok(placed)
}

/// The places of blocks.
pub(crate) fn placed_blocks(
    alloc: Global,
    blocks: &[u32],
    places: &[u32],
) -> Result<Vec<u32>, AllocError>
    requires { All (λ c. c < length places.now) blocks.now }
    ensures { IfOk result (λ v. v.items ≡ map (slice_index places.now) blocks.now) }
{
    let mut placed = Vec::new(alloc);
    for block in blocks {
        placed.push(places[*block as usize])?;
    }
    Ok(placed)
}

/// The blocks behind the places of those that call, for the blocks behind them.
fn return_places(alloc: Global, blocks: &[u32], places: &[u32]) -> Result<Vec<u32>, AllocError>
    requires there { All (λ c. c < length places.now) blocks.now }
    requires low { All (λ n. n + 2 < 2 ^ 32) places.now }
    ensures { IfOk result (λ v. v.items ≡ map (return_place (slice_index places.now)) blocks.now) }
{
    let mut placed = Vec::new(alloc);
    for block in blocks {
        placed.push(places[block.saturating_sub(1) as usize] + 1)?;
    }
    Ok(placed)
}

/// The places of blocks, and for the block behind one the block that is put between.
fn fallen_places(
    alloc: Global,
    blocks: &[u32],
    block: usize,
    places: &[u32],
) -> Result<Vec<u32>, AllocError>
    requires there { All (λ c. c < length places.now) blocks.now }
    requires next { block + 1 < length places.now }
    requires low { slice_index places.now block + 2 < 2 ^ 32 }
    ensures { IfOk result (λ v. v.items ≡ map (Split.fallen (slice_index places.now) block) blocks.now) }
{
    let mut placed = Vec::new(alloc);
    for successor in blocks {
        let at = *successor as usize;
        placed.push(if at == block + 1 {
            places[block] + 1
        } else {
            places[at]
        })?;
    }
    Ok(placed)
}

/// The successors of a block in its place.
fn placed_successors(
    alloc: Global,
    successors: &[u32],
    block: usize,
    plan: Plan,
    places: &[u32],
) -> Result<Vec<u32>, AllocError>
    requires there { All (λ c. c < length places.now) successors.now }
    requires next { block + 1 < length places.now }
    requires low { All (λ n. n + 2 < 2 ^ 32) places.now }
    ensures { IfOk result (λ v. v.items ≡ successors_as (slice_index places.now) block (plan_as plan) successors.now) }
{
    match plan {
        Plan::Keep | Plan::Calls => placed_blocks(alloc, successors, places),
        Plan::Returns => return_places(alloc, successors, places),
        Plan::Falls => fallen_places(alloc, successors, block, places),
        Plan::Turns(_) => Ok(Vec::from_array(alloc, [places[block] + 1, places[block + 1]])?),
        Plan::Forks(_) => Ok(Vec::from_array(alloc, [places[block] + 1, places[block] + 2])?),
    }
}

/// The items of a block that only jumps to the block of a number.
fn jump_items(to: u32) -> [Item; 2]
    ensures { result ≡ close_items (Jump to) }
{
    let jump = Item {
        instr: Instr::J { target: 0 },
        class: Class::Act,
        fix: Fix::Block(to),
    };
    let slot = Item {
        instr: Instr::Sll {
            rd: 0,
            rt: 0,
            sh: 0,
        },
        class: Class::Act,
        fix: Fix::Plain,
    };
    [jump, slot]
}

/// Adds a block that only jumps to the place of another.
fn put_jump(
    alloc: Global,
    out: &mut Vec<HardBlock>,
    to: usize,
    places: &[u32],
) -> Result<(), AllocError>
    requires { to < length places.now }
    ensures { OnOk result (out.new.items ≡ out.old.items ++ relay_block (slice_index places.now) to ∷ []) }
{
    let place = places[to];
    out.push(HardBlock {
        items: Sequence::from_vec(Vec::from_array(alloc, jump_items(place))?),
        successors: Words::from_vec(Vec::from_array(alloc, [place])?),
    })?;
    Ok(())
}

/// Adds the blocks that are put behind a block.
fn put_jumps(
    alloc: Global,
    out: &mut Vec<HardBlock>,
    block: usize,
    plan: Plan,
    places: &[u32],
) -> Result<(), AllocError>
    requires next { block + 1 < length places.now }
    requires goal { GoalThere (length places.now) (plan_as plan) }
    ensures { OnOk result (out.new.items ≡ out.old.items ++ map (relay_block (slice_index places.now)) (goals block (relays_as (plan_as plan)))) }
{
    match plan {
        Plan::Keep | Plan::Returns => Ok(()),
        Plan::Calls | Plan::Falls => put_jump(alloc, out, block + 1, places),
        Plan::Turns(goal) => put_jump(alloc, out, goal as usize, places),
        Plan::Forks(goal) => {
            put_jump(alloc, out, block + 1, places)?;
            put_jump(alloc, out, goal as usize, places)
        }
    }
}

/// Adds a block in its place.
fn put_placed(
    alloc: Global,
    out: &mut Vec<HardBlock>,
    block: &HardBlock,
    number: usize,
    plan: Plan,
    places: &[u32],
) -> Result<(), AllocError>
    requires there { AllThere (length places.now) block.now }
    requires next { number + 1 < length places.now }
    requires low { All (λ n. n + 2 < 2 ^ 32) places.now }
    ensures { OnOk result (out.new.items ≡ out.old.items ++ placed_block (slice_index places.now) number (plan_as plan) block.now ∷ []) }
{
    let items = placed_items(alloc, block.items.as_slice(), number, plan, places)?;
    let successors = placed_successors(alloc, block.successors.as_slice(), number, plan, places)?;
    out.push(HardBlock {
        items: Sequence::from_vec(items),
        successors: Words::from_vec(successors),
    })?;
    Ok(())
}

/// Adds a block in its place and the blocks that are put behind it.
pub(crate) fn put_block(
    alloc: Global,
    out: &mut Vec<HardBlock>,
    block: &HardBlock,
    number: usize,
    plan: Plan,
    places: &[u32],
) -> Result<(), AllocError>
    requires there { AllThere (length places.now) block.now }
    requires next { number + 1 < length places.now }
    requires goal { GoalThere (length places.now) (plan_as plan) }
    requires low { All (λ n. n + 2 < 2 ^ 32) places.now }
    ensures { OnOk result (out.new.items ≡ out.old.items ++ (placed_block (slice_index places.now) number (plan_as plan) block.now ∷ map (relay_block (slice_index places.now)) (goals number (relays_as (plan_as plan))))) }
{
    put_placed(alloc, out, block, number, plan, places)?;
    put_jumps(alloc, out, number, plan, places)
}
