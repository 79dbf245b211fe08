//! The numbers of a plan.

ghost use Rattle.std.specs.Prelude.{◌≡◌, ◌≤◌, ◌+◌, ◌*◌, IfOk, All, map, sum, length};
ghost use Rattle.mid_blocks.specs.Valid.{Valid};
ghost use Rattle.frame_plan.specs.Frames.{addresses, IsPlan, HasRoom};

use hard_words::{OutOfMemory, Words};
use mid_blocks::{Mid, MidFunction};
use std::alloc::Global;

/// The address of the first word of memory.
const MEMORY: u32 = 0x1001_0000;

/// Where the globals and the frames of calls stand.
#[derive(Debug, Drop)]
pub struct Frames {
    /// The address of each global.
    pub globals: Words,
    /// The bytes of a frame of each function.
    pub frame_bytes: Words,
    /// The address above the stack, where the stack pointer stands before `main` is called.
    pub stack_top: u32,
    /// How many words memory has.
    pub memory_words: u32,
}

/// The addresses of the globals, one behind the other.
fn global_addresses(alloc: Global, globals: &[Words]) -> Result<Vec<u32>, OutOfMemory>
    requires { sum (map length globals.now) ≤ 32768 }
    ensures { IfOk result (λ put. put.items ≡ addresses 0 globals.now) }
{
    let mut out = Vec::new(alloc);
    let mut cell: u32 = 0;
    for global in globals {
        out.push(MEMORY + 8 * cell)?;
        cell += global.len() as u32;
    }
    Ok(out)
}

/// The cells of the globals together.
fn global_cells(globals: &[Words]) -> u32
    requires { sum (map length globals.now) ≤ 32768 }
    ensures { result ≡ sum (map length globals.now) }
{
    let mut cells: u32 = 0;
    for global in globals {
        cells += global.len() as u32;
    }
    cells
}

/// The bytes of a frame of each function.
fn frame_bytes(alloc: Global, functions: &[MidFunction]) -> Result<Vec<u32>, OutOfMemory>
    requires { All (λ f. f.pairs ≤ 4002) functions.now }
    ensures { IfOk result (λ put. put.items ≡ map (λ f. 8 * f.pairs) functions.now) }
{
    let mut out = Vec::new(alloc);
    for function in functions {
        out.push(8 * function.pairs)?;
    }
    Ok(out)
}

/// Where the globals and the frames of calls stand: the globals from the start of memory on in order, the stack above them.
pub fn plan(alloc: Global, mid: &Mid) -> Result<Frames, OutOfMemory>
    requires { Valid mid.now }
    ensures numbers { IfOk result (IsPlan mid.now) }
    ensures room { IfOk result (HasRoom mid.now) }
{
    let globals = mid.globals.as_slice();
    let cells = global_cells(globals) + mid.chain_pairs;
    let addresses = global_addresses(alloc, globals)?;
    let bytes = frame_bytes(alloc, mid.functions.as_slice())?;
    Ok(Frames {
        globals: Words::from_vec(addresses),
        frame_bytes: Words::from_vec(bytes),
        stack_top: MEMORY + 8 * cells,
        memory_words: 2 * cells,
    })
}
