//! The blocks of a program, as instructions.

ghost use Rattle.std.specs.Prelude.{◌≡◌, ◌≤◌, ◌<◌, ◌+◌, ◌-◌, ◌^◌, ◌++◌, [], ◌∷◌, IfOk, OnOk, All, length, flat_map};
ghost use Rattle.frame_plan.specs.Frames.{global_cell, global_length};
ghost use Rattle.third_law.specs.Emitted.{step_code};
ghost use Rattle.third_law.specs.Program.{cell_address, first_block, block_code, function_code, functions_code, looked_up};
ghost use Rattle.third_pass.specs.Emits.{AreSmall, GlobalsKnown, IsNamed};
ghost use Rattle.third_pass.specs.Ready.{AreFirsts, FunctionReady, AllReady, block_at};

use crate::ends::{looked_up, put_end};
use crate::starts::put_start;
use crate::steps::put_step;
use hard_words::{OutOfMemory, Sequence};
use mid_blocks::{Mid, MidFunction, MidStep, Places};
use mips_isa::Instr;
use std::alloc::Global;

/// What some steps become.
fn put_steps(
    out: &mut Sequence<Instr>,
    mid: &Mid,
    addresses: &[u32],
    places: &Places,
    steps: &[MidStep],
) -> Result<(), OutOfMemory>
    requires globals { GlobalsKnown mid.now addresses.now }
    requires small { AreSmall places.now }
    requires named { All (λ step. IsNamed addresses.now step) steps.now }
    ensures { OnOk result (out.new ≡ out.old ++ flat_map (step_code (λ g. cell_address (global_cell mid.now g)) (global_length mid.now) places.now) steps.now) }
{
    for step in steps {
        put_step(out, mid, addresses, places, *step)?;
    }
    Ok(())
}

/// The block of a function that has this number in it.
fn put_block(
    alloc: Global,
    out: &mut Sequence<Sequence<Instr>>,
    mid: &Mid,
    addresses: &[u32],
    starts: &[u32],
    firsts: &[u32],
    number: u32,
    function: &MidFunction,
    places: &Places,
    block: u32,
) -> Result<(), OutOfMemory>
    requires globals { GlobalsKnown mid.now addresses.now }
    requires firsts { AreFirsts mid.now firsts.now }
    requires exists { number < length mid.now.functions }
    requires ready { FunctionReady (length mid.now.functions) (first_block mid.now number) addresses.now function.now places.now }
    requires there { block < length function.now.blocks }
    ensures { OnOk result (out.new ≡ out.old ++ block_code (looked_up starts.now) mid.now number block function.now places.now (block_at function.now block) ∷ []) }
{
    let first = looked_up(firsts, number);
    let code = &function.blocks.as_slice()[block as usize];
    let mut words = Sequence::new(alloc);
    put_start(&mut words, function, places, block as usize)?;
    put_steps(&mut words, mid, addresses, places, code.steps.as_slice())?;
    put_end(
        &mut words,
        starts,
        firsts,
        first + block,
        first,
        function.pairs,
        places,
        &code.end,
    )?;
    out.push(words)?;
    Ok(())
}

/// The blocks of a function.
fn put_function(
    alloc: Global,
    out: &mut Sequence<Sequence<Instr>>,
    mid: &Mid,
    addresses: &[u32],
    starts: &[u32],
    firsts: &[u32],
    number: u32,
    function: &MidFunction,
    places: &Places,
) -> Result<(), OutOfMemory>
    requires globals { GlobalsKnown mid.now addresses.now }
    requires firsts { AreFirsts mid.now firsts.now }
    requires exists { number < length mid.now.functions }
    requires ready { FunctionReady (length mid.now.functions) (first_block mid.now number) addresses.now function.now places.now }
    ensures { OnOk result (out.new ≡ out.old ++ function_code (looked_up starts.now) mid.now number 0 function.now places.now function.now.blocks) }
{
    let count = function.blocks.len() as u32;
    for block in 0..count {
        put_block(
            alloc, out, mid, addresses, starts, firsts, number, function, places, block,
        )?;
    }
    Ok(())
}

/// The blocks of all functions.
pub(crate) fn put_functions(
    alloc: Global,
    out: &mut Sequence<Sequence<Instr>>,
    mid: &Mid,
    addresses: &[u32],
    starts: &[u32],
    firsts: &[u32],
    places: &[Places],
) -> Result<(), OutOfMemory>
    requires globals { GlobalsKnown mid.now addresses.now }
    requires firsts { AreFirsts mid.now firsts.now }
    requires few { length mid.now.functions < 2 ^ 32 }
    requires ready { AllReady mid.now addresses.now places.now }
    requires places { length mid.now.functions ≤ length places.now }
    ensures { OnOk result (out.new ≡ out.old ++ functions_code (looked_up starts.now) mid.now 0 mid.now.functions places.now) }
{
    let mut number: u32 = 0;
    for function in mid.functions.as_slice() {
        put_function(
            alloc,
            out,
            mid,
            addresses,
            starts,
            firsts,
            number,
            function,
            &places[number as usize],
        )?;
        number += 1;
    }
    Ok(())
}
