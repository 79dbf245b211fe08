//! The far form of branches: a branch that may not reach its target becomes the opposite branch over a block that jumps there.

ghost use Rattle.std.specs.Prelude.{◌≡◌, [], ◌∷◌, ℕ, ◌+◌, ◌*◌, ◌^◌, ◌<◌, ◌≤◌, ◌++◌, None, IfOk, OnOk, All, map, length, slice_index, get_or};
ghost use Rattle.hard_items.specs.Forms.{Jump, close_items};
ghost use Rattle.hard_items.specs.WellFormed.{WellFormed};
ghost use Rattle.block_relays.specs.Renumber as Renumber;
ghost use Rattle.block_relays.specs.Relays.{put_item};
ghost use Rattle.far_branches.specs.Far.{places_by, PlaceThere, AllThere, goal_fix, far_list};
ghost use Rattle.far_branches.specs.Widen.{far_of, far_as, far_block, far_blocks, widened};

use crate::goals::{far_goals, starts_of, sums_of};
use hard_items::{Class, Fix, HardBlock, HardProgram, Item};
use hard_words::{OutOfMemory, Sequence, Words};
use mips_isa::Instr;
use std::alloc::{AllocError, Global};

/// The opposite branch.
fn opposite(instr: Instr) -> Instr
    ensures { result ≡ Renumber.opposite instr }
{
    match instr {
        Instr::Beq { rs, rt, imm } => Instr::Bne { rs, rt, imm },
        Instr::Bne { rs, rt, imm } => Instr::Beq { rs, rt, imm },
        other => other,
    }
}

/// An item of a block in its place, by the goal of the block's far branch and the places of blocks.
fn placed_item(item: &Item, block: usize, far: Option<u32>, places: &[u32]) -> Item
    requires there { PlaceThere (length places.now) item.now.fix }
    requires next { block + 1 < length places.now }
    ensures { result ≡ put_item (slice_index places.now) block (far_as far) item.now }
{
    match item.fix {
        Fix::Block(goal) => match far {
            Some(_) => Item {
                instr: opposite(item.instr),
                class: item.class,
                fix: Fix::Block(places[block + 1]),
            },
            None => Item {
                instr: item.instr,
                class: item.class,
                fix: Fix::Block(places[goal as usize]),
            },
        },
        _ => *item,
    }
}

/// The items of a block in their place.
fn placed_items(
    alloc: Global,
    items: &[Item],
    block: usize,
    far: Option<u32>,
    places: &[u32],
) -> Result<Vec<Item>, AllocError>
    requires there { All (λ i. PlaceThere (length places.now) i.fix) items.now }
    requires next { block + 1 < length places.now }
    ensures { IfOk result (λ v. v.items ≡ map (put_item (slice_index places.now) block (far_as far)) items.now) }
{
    let mut placed = Vec::new(alloc);
    for item in items {
        placed.push(placed_item(item, block, far, places))?;
    }
    Ok(placed)
}

/// The places of blocks.
fn placed_blocks(alloc: Global, blocks: &[u32], places: &[u32]) -> Result<Vec<u32>, AllocError>
    requires { All (λ c. c < length places.now) blocks.now }
    ensures { IfOk result (λ v. v.items ≡ map (slice_index places.now) blocks.now) }
{
    let mut placed = Vec::new(alloc);
    for block in blocks {
        placed.push(places[*block as usize])?;
    }
    Ok(placed)
}

/// The items of a block that only jumps to the block of a number.
fn jump_items(to: u32) -> [Item; 2]
    ensures { result ≡ close_items (Jump to) }
{
    let jump = Item {
        instr: Instr::J { target: 0 },
        class: Class::Act,
        fix: Fix::Block(to),
    };
    let slot = Item {
        instr: Instr::Sll {
            rd: 0,
            rt: 0,
            sh: 0,
        },
        class: Class::Act,
        fix: Fix::Plain,
    };
    [jump, slot]
}

/// A block that only jumps to the block of a number.
fn jump_block(alloc: Global, to: u32) -> Result<HardBlock, AllocError>
    ensures { IfOk result (λ k. (k.items ≡ close_items (Jump to)) × (k.successors ≡ to ∷ [])) }
{
    Ok(HardBlock {
        items: Sequence::from_vec(Vec::from_array(alloc, jump_items(to))?),
        successors: Words::from_vec(Vec::from_array(alloc, [to])?),
    })
}

/// Adds a block in its place and, where its branch is far, the block that jumps on for it.
fn put_block(
    alloc: Global,
    out: &mut Vec<HardBlock>,
    block: &HardBlock,
    number: usize,
    far: Option<u32>,
    places: &[u32],
) -> Result<(), AllocError>
    requires there { AllThere (length places.now) block.now }
    requires next { number + 1 < length places.now }
    requires goal { PlaceThere (length places.now) (goal_fix far) }
    requires low { slice_index places.now number + 1 < 2 ^ 32 }
    ensures { OnOk result (out.new.items ≡ out.old.items ++ far_block (slice_index places.now) number far block.now) }
{
    let items = placed_items(alloc, block.items.as_slice(), number, far, places)?;
    match far {
        Some(goal) => {
            let both = [places[number] + 1, places[number + 1]];
            out.push(HardBlock {
                items: Sequence::from_vec(items),
                successors: Words::from_vec(Vec::from_array(alloc, both)?),
            })?;
            out.push(jump_block(alloc, places[goal as usize])?)?;
        }
        None => {
            let successors = placed_blocks(alloc, block.successors.as_slice(), places)?;
            out.push(HardBlock {
                items: Sequence::from_vec(items),
                successors: Words::from_vec(successors),
            })?;
        }
    }
    Ok(())
}

/// The blocks in their places, with those that jump on for far branches.
fn put_blocks(
    alloc: Global,
    blocks: &[HardBlock],
    fars: &[Option<u32>],
    places: &[u32],
) -> Result<Vec<HardBlock>, AllocError>
    requires there { All (AllThere (length places.now)) blocks.now }
    requires fars { length fars.now ≡ length blocks.now }
    requires places { length places.now ≡ length blocks.now + 1 }
    requires goals { All (λ o. PlaceThere (length places.now) (goal_fix o)) fars.now }
    requires low { All (λ n. n + 1 < 2 ^ 32) places.now }
    ensures { IfOk result (λ v. v.items ≡ far_blocks (slice_index places.now) (λ b. get_or fars.now b None) 0 blocks.now) }
{
    let mut out = Vec::new(alloc);
    for (number, block) in blocks.iter().enumerate() {
        put_block(alloc, &mut out, block, number, fars[number], places)?;
    }
    Ok(out)
}

/// The places of blocks, and last how many blocks there are.
fn far_places(alloc: Global, fars: &[Option<u32>]) -> Result<Vec<u32>, AllocError>
    requires { length fars.now < 2 ^ 31 }
    ensures { IfOk result (λ v. v.items ≡ places_by 0 fars.now) }
{
    let mut places = Vec::new(alloc);
    let mut at: u32 = 0;
    for far in fars {
        places.push(at)?;
        at += if far.is_some() { 2 } else { 1 };
    }
    places.push(at)?;
    Ok(places)
}

/// The goals of the branches that get the far form, block by block.
fn far_branches(alloc: Global, program: &HardProgram) -> Result<Vec<Option<u32>>, AllocError>
    requires { WellFormed program.now }
    ensures { IfOk result (λ v. v.items ≡ far_list program.now) }
{
    let blocks = program.blocks.as_slice();
    let starts = starts_of(alloc, program.entries.as_slice(), blocks.len())?;
    let sums = sums_of(alloc, blocks, starts.as_slice())?;
    far_goals(alloc, blocks, starts.as_slice(), sums.as_slice())
}

/// The far form of a program: each conditional branch to another block than the next, in a function of more than 30,000 words with
/// the heads counted, becomes the opposite branch over a block of its own that jumps to its target. The condition: there are at
/// most 65,535 blocks.
///
/// # Errors
///
/// [`OutOfMemory`] where there is no memory.
pub fn widen(alloc: Global, program: HardProgram) -> Result<HardProgram, OutOfMemory>
    requires well_formed { WellFormed program }
    requires few { length program.blocks ≤ 65535 }
    ensures { IfOk result (λ q. q ≡ widened program) }
{
    let fars = far_branches(alloc, &program)?;
    let goals = fars.as_slice();
    let all_places = far_places(alloc, goals)?;
    let places = all_places.as_slice();
    let blocks = put_blocks(alloc, program.blocks.as_slice(), goals, places)?;
    let entries = placed_blocks(alloc, program.entries.as_slice(), places)?;
    Ok(HardProgram {
        blocks: Sequence::from_vec(blocks),
        entries: Words::from_vec(entries),
        initial: program.initial,
        memory_words: program.memory_words,
    })
}
