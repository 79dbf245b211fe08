//! The pass: the two first blocks, the functions, their addresses, and the words.

ghost use Rattle.std.specs.Prelude.{ℕ, ◌≡◌, ◌≤◌, ◌<◌, ◌+◌, ◌*◌, ◌^◌, ◌++◌, [], ◌∷◌, IfOk, OnOk, All, flat_map, map, sum, slice_index, length};
ghost use Rattle.mips_isa.specs.Table.{encoding, IsInRange};
ghost use Rattle.mid_blocks.specs.Valid.{Valid};
ghost use Rattle.mid_blocks.specs.Bounds.{Shallow, Proper};
ghost use Rattle.mid_blocks.specs.Size.{words};
ghost use Rattle.frame_plan.specs.Frames.{IsPlan, cells};
ghost use Rattle.mid_blocks.specs.Words.{HasWords};
ghost use Rattle.third_law.specs.Law.{AllFitThree, RunsInThree};
ghost use Rattle.third_law.specs.Program.{cell_address, first_block, first_code, exit_code, code_at, looked_up, starts_from, third_text};
ghost use Rattle.third_pass.specs.Emits.{GlobalsKnown, firsts_from};
ghost use Rattle.third_pass.specs.Ready.{spread, AreFirsts, AllReady};

use crate::basic::{put, put_lower, put_service, put_upper};
use crate::blocks::put_functions;
use crate::ends::{looked_up, put_call};
use frame_plan::Frames;
use hard_words::{OutOfMemory, Sequence};
use mid_blocks::{Mid, MidFunction, Places};
use mips_isa::{Instr, encode};
use std::alloc::Global;
use third_law::{Role, few_in_three, in_range_in_three, run_in_three};

/// The address of the first word of memory.
const MEMORY: u32 = 0x1001_0000;

/// The number of the first block of each function; two blocks stand before them all.
fn first_blocks(alloc: Global, functions: &[MidFunction]) -> Result<Vec<u32>, OutOfMemory>
    requires { 2 + sum (map (λ f. length f.blocks) functions.now) < 2 ^ 32 }
    ensures { IfOk result (λ out. out.items ≡ firsts_from 2 functions.now) }
{
    let mut out = Vec::new(alloc);
    let mut first: u32 = 2;
    for function in functions {
        out.push(first)?;
        first += function.blocks.len() as u32;
    }
    Ok(out)
}

/// The first block: it sets the stack pointers to the top of the stack and calls function 0.
fn first_code(
    alloc: Global,
    mid: &Mid,
    top: u32,
    to: u32,
    back: u32,
) -> Result<Sequence<Instr>, OutOfMemory>
    requires { top ≡ cell_address (cells mid.now) }
    ensures { IfOk result (λ code. (at : ℕ → ℕ) → to ≡ at (first_block mid.now 0) → back ≡ at 1 → code ≡ first_code at mid.now) }
{
    let mut code = Sequence::new(alloc);
    put_upper(&mut code, Role::Stack, (top / 65536) as u16)?;
    put_lower(&mut code, Role::Stack, (top % 65536) as u16)?;
    put_call(&mut code, to, back)?;
    Ok(code)
}

/// The second block: it exits with what function 0 returned.
fn exit_code(alloc: Global) -> Result<Sequence<Instr>, OutOfMemory>
    ensures { IfOk result (λ code. code ≡ exit_code) }
{
    let mut code = Sequence::new(alloc);
    put_service(&mut code, 17)?;
    put(&mut code, Instr::Break { code: 0 })?;
    Ok(code)
}

/// The addresses of the globals, with their distances from the start of memory doubled.
fn spread(alloc: Global, addresses: &[u32]) -> Result<Vec<u32>, OutOfMemory>
    requires { All (λ a. (0x10010000 ≤ a) × (a < 2 ^ 30)) addresses.now }
    ensures { IfOk result (λ out. out.items ≡ spread addresses.now) }
{
    let mut out = Vec::new(alloc);
    for address in addresses {
        out.push(MEMORY + 2 * (*address - MEMORY))?;
    }
    Ok(out)
}

/// All blocks, where those blocks stand at these addresses.
fn code_at(
    alloc: Global,
    mid: &Mid,
    places: &[Places],
    addresses: &[u32],
    top: u32,
    starts: &[u32],
    firsts: &[u32],
) -> Result<Sequence<Sequence<Instr>>, OutOfMemory>
    requires top { top ≡ cell_address (cells mid.now) }
    requires globals { GlobalsKnown mid.now addresses.now }
    requires firsts { AreFirsts mid.now firsts.now }
    requires some { 0 < length mid.now.functions }
    requires few { length mid.now.functions < 2 ^ 32 }
    requires ready { AllReady mid.now addresses.now places.now }
    requires places { length mid.now.functions ≤ length places.now }
    ensures { IfOk result (λ code. code ≡ code_at (looked_up starts.now) mid.now places.now) }
{
    let mut out = Sequence::new(alloc);
    let to = looked_up(starts, looked_up(firsts, 0));
    out.push(first_code(alloc, mid, top, to, looked_up(starts, 1))?)?;
    out.push(exit_code(alloc)?)?;
    put_functions(alloc, &mut out, mid, addresses, starts, firsts, places)?;
    Ok(out)
}

/// The address of each block.
fn starts_of(alloc: Global, blocks: &[Sequence<Instr>]) -> Result<Vec<u32>, OutOfMemory>
    requires { 0x00400000 + 4 * sum (map length blocks.now) < 2 ^ 32 }
    ensures { IfOk result (λ out. out.items ≡ starts_from 0x00400000 blocks.now) }
{
    let mut out = Vec::new(alloc);
    let mut at: u32 = 0x0040_0000;
    for block in blocks {
        out.push(at)?;
        at += 4 * block.len() as u32;
    }
    Ok(out)
}

/// Adds the words of some instructions.
fn put_words(out: &mut Sequence<u32>, code: &[Instr]) -> Result<(), OutOfMemory>
    requires { All IsInRange code.now }
    ensures { OnOk result (out.new ≡ out.old ++ map encoding code.now) }
{
    for instr in code {
        out.push(encode(*instr))?;
    }
    Ok(())
}

/// The words of all blocks.
fn text_of(alloc: Global, blocks: &[Sequence<Instr>]) -> Result<Vec<u32>, OutOfMemory>
    requires { All (All IsInRange) blocks.now }
    ensures { IfOk result (λ text. text.items ≡ map encoding (flat_map (λ k. k) blocks.now)) }
{
    let mut out = Sequence::new(alloc);
    for block in blocks {
        put_words(&mut out, block.as_slice())?;
    }
    Ok(out.into_vec())
}

/// Makes the code of a program in three streams that vote before each use. Its variables stand in these places, one list for each
/// function, and its frames by this plan, with each distance doubled. The answer is the text; the entry is its first word.
///
/// In an image that begins with each word of the globals three times and a 0, its run is the same from outside as that of the
/// program in blocks; it has at most four words for each word that the blocks were counted for.
///
/// # Errors
///
/// [`OutOfMemory`] where there is no memory.
pub fn third(
    alloc: Global,
    mid: &Mid,
    places: &[Places],
    plan: &Frames,
) -> Result<Vec<u32>, OutOfMemory>
    requires valid { Valid mid.now }
    requires shallow { Shallow mid.now }
    requires proper { Proper mid.now }
    requires words { HasWords mid.now }
    requires fit { AllFitThree mid.now places.now }
    requires few { words mid.now ≤ 15728640 }
    requires plan { IsPlan mid.now plan.now }
    ensures text { IfOk result (λ text. text.items ≡ third_text mid.now places.now) }
    ensures runs { IfOk result (λ text. RunsInThree mid.now text.items) }
{
    few_in_three();
    in_range_in_three();
    run_in_three();
    let firsts = first_blocks(alloc, mid.functions.as_slice())?;
    let addresses = spread(alloc, plan.globals.as_slice())?;
    let top = MEMORY + 2 * (plan.stack_top - MEMORY);
    let none = Vec::new(alloc);
    let counted = code_at(
        alloc,
        mid,
        places,
        addresses.as_slice(),
        top,
        none.as_slice(),
        firsts.as_slice(),
    )?;
    let starts = starts_of(alloc, counted.as_slice())?;
    let code = code_at(
        alloc,
        mid,
        places,
        addresses.as_slice(),
        top,
        starts.as_slice(),
        firsts.as_slice(),
    )?;
    text_of(alloc, code.as_slice())
}
