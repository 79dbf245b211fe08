//! The blocks of the doubled program, with the blocks that may come behind each.

ghost use Rattle.std.specs.Prelude.{◌≡◌, ◌≤◌, ◌<◌, ◌+◌, ◌^◌, ◌++◌, [], ◌∷◌, IfOk, OnOk, All, length, flat_map};
ghost use Rattle.frame_plan.specs.Frames.{cell_address, global_cell, global_length};
ghost use Rattle.double_law.specs.Emitted.{step_items};
ghost use Rattle.double_law.specs.Program.{first_block};
ghost use Rattle.double_law.specs.Ways.{in_order};
ghost use Rattle.duplicate_pass.specs.Doubled.{doubled_block, function_blocks, program_blocks};
ghost use Rattle.duplicate_pass.specs.Emits.{AreSmall, GlobalsKnown, IsNamed};
ghost use Rattle.duplicate_pass.specs.Ready.{AreTables, successors_by, EndReady, FunctionReady, AllReady, block_at};

use crate::ends::put_end;
use crate::starts::put_start;
use crate::steps::put_step;
use crate::tables::Tables;
use hard_items::{HardBlock, Item};
use hard_words::{OutOfMemory, Sequence, Words};
use mid_blocks::{Mid, MidEnd, MidFunction, MidStep, Places};
use std::alloc::Global;

/// A list of one number.
pub(crate) fn one(alloc: Global, number: u32) -> Result<Words, OutOfMemory>
    ensures { IfOk result (λ list. list ≡ number ∷ []) }
{
    let mut list = Words::new(alloc);
    list.push(number)?;
    Ok(list)
}

/// Two numbers, ascending, each once.
fn two(alloc: Global, a: u32, b: u32) -> Result<Words, OutOfMemory>
    ensures { IfOk result (λ list. list ≡ in_order a b) }
{
    if a < b {
        let mut list = one(alloc, a)?;
        list.push(b)?;
        return Ok(list);
    }
    if b < a {
        let mut list = one(alloc, b)?;
        list.push(a)?;
        return Ok(list);
    }
    one(alloc, a)
}

/// A list of the same numbers.
fn copied(alloc: Global, from: &[u32]) -> Result<Words, OutOfMemory>
    ensures { IfOk result (λ list. list ≡ from.now) }
{
    let mut list = Words::new(alloc);
    for number in from {
        list.push(*number)?;
    }
    Ok(list)
}

/// The blocks that may come behind a block with this number and this end, in a function.
fn next_blocks(
    alloc: Global,
    tables: &Tables,
    function: u32,
    number: u32,
    end: &MidEnd,
) -> Result<Words, OutOfMemory>
    requires { EndReady tables.now.firsts.items tables.now.returns.items function number end.now }
    ensures { IfOk result (λ list. list ≡ successors_by tables.now.firsts.items tables.now.returns.items function number end.now) }
{
    match end {
        MidEnd::Jump { to } => one(alloc, tables.firsts[function as usize] + *to),
        MidEnd::Branch { to, .. } => two(alloc, tables.firsts[function as usize] + *to, number + 1),
        MidEnd::Call { function, .. } => one(alloc, tables.firsts[*function as usize]),
        MidEnd::Return { .. } => copied(alloc, tables.returns[function as usize].as_slice()),
    }
}

/// What some steps become.
fn put_steps(
    out: &mut Sequence<Item>,
    mid: &Mid,
    addresses: &[u32],
    places: &Places,
    steps: &[MidStep],
) -> Result<(), OutOfMemory>
    requires globals { GlobalsKnown mid.now addresses.now }
    requires small { AreSmall places.now }
    requires named { All (λ step. IsNamed addresses.now step) steps.now }
    ensures { OnOk result (out.new ≡ out.old ++ flat_map (step_items (λ g. cell_address (global_cell mid.now g)) (global_length mid.now) places.now) steps.now) }
{
    for step in steps {
        put_step(out, mid, addresses, places, *step)?;
    }
    Ok(())
}

/// The block of a function that has this number in it.
fn put_block(
    alloc: Global,
    out: &mut Sequence<HardBlock>,
    mid: &Mid,
    addresses: &[u32],
    tables: &Tables,
    number: u32,
    function: &MidFunction,
    places: &Places,
    block: u32,
) -> Result<(), OutOfMemory>
    requires globals { GlobalsKnown mid.now addresses.now }
    requires tables { AreTables mid.now tables.now.firsts.items tables.now.returns.items }
    requires exists { number < length mid.now.functions }
    requires ready { FunctionReady (length mid.now.functions) (first_block mid.now number) addresses.now function.now places.now }
    requires there { block < length function.now.blocks }
    ensures { OnOk result (out.new ≡ out.old ++ doubled_block mid.now number block function.now places.now (block_at function.now block) ∷ []) }
{
    let first = tables.firsts[number as usize];
    let code = &function.blocks.as_slice()[block as usize];
    let mut items = Sequence::new(alloc);
    put_start(&mut items, function, places, block as usize)?;
    put_steps(&mut items, mid, addresses, places, code.steps.as_slice())?;
    put_end(&mut items, first, function.pairs, places, &code.end)?;
    let successors = next_blocks(alloc, tables, number, first + block, &code.end)?;
    out.push(HardBlock { items, successors })?;
    Ok(())
}

/// The blocks of a function.
fn put_function(
    alloc: Global,
    out: &mut Sequence<HardBlock>,
    mid: &Mid,
    addresses: &[u32],
    tables: &Tables,
    number: u32,
    function: &MidFunction,
    places: &Places,
) -> Result<(), OutOfMemory>
    requires globals { GlobalsKnown mid.now addresses.now }
    requires tables { AreTables mid.now tables.now.firsts.items tables.now.returns.items }
    requires exists { number < length mid.now.functions }
    requires ready { FunctionReady (length mid.now.functions) (first_block mid.now number) addresses.now function.now places.now }
    ensures { OnOk result (out.new ≡ out.old ++ function_blocks mid.now number 0 function.now places.now function.now.blocks) }
{
    let count = function.blocks.len() as u32;
    for block in 0..count {
        put_block(
            alloc, out, mid, addresses, tables, number, function, places, block,
        )?;
    }
    Ok(())
}

/// The blocks of all functions.
pub(crate) fn put_functions(
    alloc: Global,
    out: &mut Sequence<HardBlock>,
    mid: &Mid,
    addresses: &[u32],
    tables: &Tables,
    places: &[Places],
) -> Result<(), OutOfMemory>
    requires globals { GlobalsKnown mid.now addresses.now }
    requires tables { AreTables mid.now tables.now.firsts.items tables.now.returns.items }
    requires few { length mid.now.functions < 2 ^ 32 }
    requires ready { AllReady mid.now addresses.now places.now }
    requires places { length mid.now.functions ≤ length places.now }
    ensures { OnOk result (out.new ≡ out.old ++ program_blocks mid.now 0 mid.now.functions places.now) }
{
    let mut number: u32 = 0;
    for function in mid.functions.as_slice() {
        put_function(
            alloc,
            out,
            mid,
            addresses,
            tables,
            number,
            function,
            &places[number as usize],
        )?;
        number += 1;
    }
    Ok(())
}
