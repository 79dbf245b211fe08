//! The starts of a text, as a table of its words.
ghost use Rattle.std.specs.Prelude.{◌≡◌, IfOk};
ghost use Rattle.mips_text.specs.Text.{IsText};
ghost use Rattle.mips_text.specs.Blocks.{IsStart};
ghost use Rattle.harden_lint.specs.StartTable.{Table, marked, lower, left_out, marked_if, left_if};

use hard_words::OutOfMemory;
use lint_words::{TEXT_START, WordTable, in_words, made};
use std::alloc::Global;

/// A bit for each word of the text, which says whether it is a start, and the lowest start outside the text.
#[derive(Debug, Drop)]
pub(crate) struct Starts {
    /// The bits.
    pub(crate) bits: Vec<bool>,
    /// The lowest start outside, if any.
    pub(crate) outside: Option<u32>,
}

// Marks a start in the table, if it is of the text.
fn mark(bits: &mut Vec<bool>, w: u32)
    ensures { bits.new.items ≡ marked bits.old.items w }
{
    if in_words(bits.len(), w) {
        bits[((w - TEXT_START) / 4) as usize] = true;
    }
}

// The lower of two addresses.
fn lower(out: Option<u32>, w: u32) -> Option<u32>
    ensures { result ≡ lower out w }
{
    match out {
        None => Some(w),
        Some(v) => { if w < v { Some(w) } else { Some(v) } }
    }
}

// The lowest start outside, with one more start.
fn left_out(n: usize, out: Option<u32>, w: u32) -> Option<u32>
    ensures { result ≡ left_out n out w }
{
    if in_words(n, w) { out } else { lower(out, w) }
}

fn mark_if(bits: &mut Vec<bool>, w: Option<u32>)
    ensures { bits.new.items ≡ marked_if bits.old.items w }
{
    match w {
        None => {}
        Some(w) => mark(bits, w),
    }
}

fn left_if(n: usize, out: Option<u32>, w: Option<u32>) -> Option<u32>
    ensures { result ≡ left_if n out w }
{
    match w {
        None => out,
        Some(w) => left_out(n, out, w),
    }
}

/// The table of the starts of a text.
pub(crate) fn find_starts(
    alloc: Global,
    text: &WordTable,
    entry: u32,
) -> Result<Starts, OutOfMemory>
    requires { IsText text.now }
    ensures { IfOk result (λ s. Table text.now (IsStart text.now entry) s.bits.items s.outside) }
{
    let n = text.len();
    let mut bits = vec![in alloc; false; n]?;
    let mut outside = left_out(n, None, entry);
    mark(&mut bits, entry);
    for k in 0..n {
        let (first, second) = made(text, TEXT_START + 4 * (k as u32));
        outside = left_if(n, outside, first);
        mark_if(&mut bits, first);
        outside = left_if(n, outside, second);
        mark_if(&mut bits, second);
    }
    Ok(Starts { bits, outside })
}
