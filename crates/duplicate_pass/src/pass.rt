//! The pass: the two first blocks, the functions, and the memory at the start.

ghost use Rattle.std.specs.Prelude.{◌≡◌, ◌<◌, ◌++◌, [], ◌∷◌, IfOk, OnOk, flat_map, slice_index, length};
ghost use Rattle.mid_blocks.specs.Valid.{Valid};
ghost use Rattle.frame_plan.specs.Frames.{IsPlan, cell_address, cells};
ghost use Rattle.mid_blocks.specs.Bounds.{Shallow, Proper};
ghost use Rattle.hard_items.specs.Rules.{Twin};
ghost use Rattle.mid_blocks.specs.Words.{HasWords};
ghost use Rattle.double_law.specs.Law.{AllFit, RunsAsBlocks};
ghost use Rattle.double_law.specs.Laws.{CountsFit};
ghost use Rattle.double_law.specs.Program.{first_block, first_items, exit_items, doubled};
ghost use Rattle.duplicate_pass.specs.Doubled.{doubled_program};
ghost use Rattle.duplicate_pass.specs.Ready.{AreTables};

use crate::basic::{put, put_lower, put_service, put_upper};
use crate::blocks::{one, put_functions};
use crate::ends::put_call;
use crate::tables::{Tables, first_blocks, return_lists};
use double_law::{Role, doubled_counts, doubled_runs, doubled_twin};
use frame_plan::Frames;
use hard_items::{Class, HardBlock, HardProgram, Item};
use hard_words::{OutOfMemory, Sequence, Words};
use mid_blocks::{Mid, Places};
use mips_isa::Instr;
use std::alloc::Global;

/// Adds each word of a list twice.
fn put_twice(out: &mut Words, words: &[u32]) -> Result<(), OutOfMemory>
    ensures { OnOk result (out.new ≡ out.old ++ doubled words.now) }
{
    for word in words {
        out.push(*word)?;
        out.push(*word)?;
    }
    Ok(())
}

/// The words of the globals in order, each twice.
fn doubled_words(alloc: Global, globals: &[Words]) -> Result<Words, OutOfMemory>
    ensures { IfOk result (λ words. words ≡ doubled (flat_map (λ words. words) globals.now)) }
{
    let mut out = Words::new(alloc);
    for global in globals {
        put_twice(&mut out, global.as_slice())?;
    }
    Ok(out)
}

/// The items of the first block: it sets the stack pointers to the top of the stack and calls function 0.
fn first_items(alloc: Global, mid: &Mid, top: u32) -> Result<Sequence<Item>, OutOfMemory>
    requires { top ≡ cell_address (cells mid.now) }
    ensures { IfOk result (λ items. items ≡ first_items mid.now) }
{
    let mut items = Sequence::new(alloc);
    put_upper(&mut items, Role::Stack, (top / 65536) as u16)?;
    put_lower(&mut items, Role::Stack, (top % 65536) as u16)?;
    put_call(&mut items, 0)?;
    Ok(items)
}

/// The items of the second block: it exits with what function 0 returned.
fn exit_items(alloc: Global) -> Result<Sequence<Item>, OutOfMemory>
    ensures { IfOk result (λ items. items ≡ exit_items) }
{
    let mut items = Sequence::new(alloc);
    put_service(&mut items, 17)?;
    put(&mut items, Instr::Break { code: 1 }, Class::Act)?;
    Ok(items)
}

/// The tables of a program.
fn tables_of(alloc: Global, mid: &Mid) -> Result<Tables, OutOfMemory>
    requires { Valid mid.now }
    ensures { IfOk result (λ t. AreTables mid.now t.firsts.items t.returns.items) }
{
    let firsts = first_blocks(alloc, mid.functions.as_slice())?;
    let returns = return_lists(alloc, mid.functions.as_slice())?;
    Ok(Tables { firsts, returns })
}

/// The two blocks before all functions.
fn put_outer(
    alloc: Global,
    out: &mut Sequence<HardBlock>,
    mid: &Mid,
    top: u32,
    first: u32,
) -> Result<(), OutOfMemory>
    requires top { top ≡ cell_address (cells mid.now) }
    requires first { first ≡ first_block mid.now 0 }
    ensures { OnOk result (out.new ≡ out.old ++ record { items = first_items mid.now; successors = first_block mid.now 0 ∷ [] } ∷ record { items = exit_items; successors = [] } ∷ []) }
{
    out.push(HardBlock {
        items: first_items(alloc, mid, top)?,
        successors: one(alloc, first)?,
    })?;
    out.push(HardBlock {
        items: exit_items(alloc)?,
        successors: Words::new(alloc),
    })?;
    Ok(())
}

/// The doubled program, with its variables in these places and its frames by this plan.
fn emit(
    alloc: Global,
    mid: &Mid,
    places: &[Places],
    plan: &Frames,
) -> Result<HardProgram, OutOfMemory>
    requires valid { Valid mid.now }
    requires fit { AllFit mid.now places.now }
    requires plan { IsPlan mid.now plan.now }
    ensures { IfOk result (λ p. p ≡ doubled_program mid.now places.now) }
{
    let tables = tables_of(alloc, mid)?;
    let mut blocks = Sequence::new(alloc);
    put_outer(alloc, &mut blocks, mid, plan.stack_top, tables.firsts[0])?;
    put_functions(
        alloc,
        &mut blocks,
        mid,
        plan.globals.as_slice(),
        &tables,
        places,
    )?;
    Ok(HardProgram {
        blocks,
        entries: Words::from_vec(tables.firsts),
        initial: doubled_words(alloc, mid.globals.as_slice())?,
        memory_words: plan.memory_words,
    })
}

/// Makes the code of a program twice: each value is computed in two streams of instructions, in different registers and words of
/// memory. Its variables stand in these places, one list for each function, and its frames by this plan.
///
/// # Errors
///
/// [`OutOfMemory`] where there is no memory.
pub fn duplicate(
    alloc: Global,
    mid: &Mid,
    places: &[Places],
    plan: &Frames,
) -> Result<HardProgram, OutOfMemory>
    requires valid { Valid mid.now }
    requires shallow { Shallow mid.now }
    requires proper { Proper mid.now }
    requires words { HasWords mid.now }
    requires fit { AllFit mid.now places.now }
    requires plan { IsPlan mid.now plan.now }
    ensures doubled { IfOk result (λ p. p ≡ doubled_program mid.now places.now) }
    ensures runs { IfOk result (RunsAsBlocks mid.now) }
    ensures twin { IfOk result Twin }
    ensures counts { IfOk result (CountsFit mid.now) }
{
    doubled_runs();
    doubled_twin();
    doubled_counts();
    emit(alloc, mid, places, plan)
}
