//! The text of a made program.

ghost use Rattle.std.specs.Prelude.{◌≡◌, ◌≤◌, ◌<◌, ◌*◌, ◌++◌, ℕ, IfOk, OnOk};
ghost use Rattle.program_maker.specs.Draws.{start, draw};
ghost use Rattle.program_maker.specs.Text.{function_text, functions_text, outs_text, made_text};

use crate::draws::Draws;
use crate::text::{
    put, put_call, put_head, put_loop, put_mix, put_out, put_split, put_start, put_store,
};
use hard_words::OutOfMemory;
use std::alloc::{AllocError, Global};

/// The text of the program of a number, with so many functions, 1 to 1,000. Each line ends with LF.
///
/// It is `int t[64];`, then the functions `f0`, `f1` and so on, and then `main`, which puts out what each returns. A function
/// has a loop of 2 to 8 turns over sums, products and bits, reads and writes `t`, divides by a constant that is not 0, and,
/// where its index is odd, calls the function before it.
///
/// # Errors
///
/// There was no memory.
pub fn make(alloc: Global, number: u64, size: u32) -> Result<Vec<u8>, OutOfMemory>
    requires least { 1 ≤ size }
    requires most { size ≤ 1000 }
    ensures { IfOk result (λ text. text.items ≡ made_text number size) }
{
    let mut text = Vec::new(alloc);
    put(&mut text, b"int t[64];\n")?;
    put_functions(&mut text, number, size)?;
    put(&mut text, b"int main(void) {\n")?;
    put_outs(&mut text, size)?;
    put(&mut text, b"return 0;\n}\n")?;
    Ok(text)
}

// Adds the functions.
fn put_functions(text: &mut Vec<u8>, number: u64, size: u32) -> Result<(), AllocError>
    ensures { OnOk result (text.new.items ≡ text.old.items ++ functions_text number size) }
{
    let mut draws = Draws::of(number);
    for k in 0..size {
        put_function(text, &mut draws, k)?;
    }
    Ok(())
}

// Adds the function of an index, whose numbers are drawn next.
fn put_function(text: &mut Vec<u8>, draws: &mut Draws, k: u32) -> Result<(), AllocError>
    ensures text { OnOk result ((number : ℕ) → draws.old.last ≡ draw (start number) (8 * k) → text.new.items ≡ text.old.items ++ function_text number k) }
    ensures last { OnOk result (draws.new.last ≡ draw draws.old.last 8) }
{
    let numbers = draws.numbers();
    put_head(text, k)?;
    put_start(text, numbers)?;
    put_loop(text, numbers)?;
    put_mix(text, numbers)?;
    put_store(text, numbers)?;
    put_split(text, numbers)?;
    put(text, b"}\n")?;
    put_call(text, k)?;
    put(text, b"return c;\n}\n")
}

// Adds the calls of `main`.
fn put_outs(text: &mut Vec<u8>, size: u32) -> Result<(), AllocError>
    requires { size ≤ 1000 }
    ensures { OnOk result (text.new.items ≡ text.old.items ++ outs_text size) }
{
    for k in 0..size {
        put_out(text, k)?;
    }
    Ok(())
}
