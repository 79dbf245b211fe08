//! The tables that the rules go by.
ghost use Rattle.std.specs.Prelude.{◌≡◌, ◌≤◌, IfOk};
ghost use Rattle.mips_text.specs.Text.{IsText};
ghost use Rattle.mips_text.specs.Blocks.{IsStart};
ghost use Rattle.third_lint.specs.Tables.{Table, Entered, After, Twice, AreMarks, marked, marked_if};

use crate::flow::{enters, is_half, nexts_if};
use hard_words::OutOfMemory;
use lint_words::{TEXT_START, WordTable, in_words, instr_at, made, starts_at};
use std::alloc::Global;

/// Four tables with a bit for each word of the text.
#[derive(Debug, Drop)]
pub(crate) struct Marks {
    /// The starts of blocks.
    pub(crate) starts: Vec<bool>,
    /// The words that a run may enter otherwise than from the word 4 below.
    pub(crate) entered: Vec<bool>,
    /// The next words of a mfhi or mflo.
    pub(crate) after: Vec<bool>,
    /// The next words of those.
    pub(crate) twice: Vec<bool>,
}

// Marks an address in a table, if it is of the text.
fn mark(bits: &mut Vec<bool>, w: u32)
    ensures { bits.new.items ≡ marked bits.old.items w }
{
    if in_words(bits.len(), w) {
        bits[((w - TEXT_START) / 4) as usize] = true;
    }
}

fn mark_if(bits: &mut Vec<bool>, w: Option<u32>)
    ensures { bits.new.items ≡ marked_if bits.old.items w }
{
    match w {
        None => {}
        Some(w) => mark(bits, w),
    }
}

fn find_starts(alloc: Global, text: &WordTable, entry: u32) -> Result<Vec<bool>, OutOfMemory>
    requires { IsText text.now }
    ensures { IfOk result (λ bits. Table text.now (IsStart text.now entry) bits.items) }
{
    let n = text.len();
    let mut bits = vec![in alloc; false; n]?;
    mark(&mut bits, entry);
    for k in 0..n {
        let (first, second) = made(text, TEXT_START + 4 * (k as u32));
        mark_if(&mut bits, first);
        mark_if(&mut bits, second);
    }
    Ok(bits)
}

fn find_entered(alloc: Global, text: &WordTable, entry: u32) -> Result<Vec<bool>, OutOfMemory>
    requires { IsText text.now }
    ensures { IfOk result (λ bits. Table text.now (Entered text.now entry) bits.items) }
{
    let n = text.len();
    let mut bits = vec![in alloc; false; n]?;
    mark(&mut bits, entry);
    for k in 0..n {
        let (first, second) = enters(text, TEXT_START + 4 * (k as u32));
        mark_if(&mut bits, first);
        mark_if(&mut bits, second);
    }
    Ok(bits)
}

fn find_after(alloc: Global, text: &WordTable) -> Result<Vec<bool>, OutOfMemory>
    requires { IsText text.now }
    ensures { IfOk result (λ bits. Table text.now (After text.now) bits.items) }
{
    let n = text.len();
    let mut bits = vec![in alloc; false; n]?;
    for k in 0..n {
        let a = TEXT_START + 4 * (k as u32);
        let (first, second) = nexts_if(text, is_half(instr_at(text, a)), a);
        mark_if(&mut bits, first);
        mark_if(&mut bits, second);
    }
    Ok(bits)
}

fn find_twice(alloc: Global, text: &WordTable, after: &[bool]) -> Result<Vec<bool>, OutOfMemory>
    requires text { IsText text.now }
    requires table { Table text.now (After text.now) after.now }
    ensures { IfOk result (λ bits. Table text.now (Twice text.now) bits.items) }
{
    let n = text.len();
    let mut bits = vec![in alloc; false; n]?;
    for k in 0..n {
        let a = TEXT_START + 4 * (k as u32);
        let (first, second) = nexts_if(text, starts_at(after, a), a);
        mark_if(&mut bits, first);
        mark_if(&mut bits, second);
    }
    Ok(bits)
}

/// The tables of a text.
pub(crate) fn find_marks(alloc: Global, text: &WordTable, entry: u32) -> Result<Marks, OutOfMemory>
    requires { IsText text.now }
    ensures { IfOk result (λ m. AreMarks text.now entry m.starts.items m.entered.items m.after.items m.twice.items) }
{
    let starts = find_starts(alloc, text, entry)?;
    let entered = find_entered(alloc, text, entry)?;
    let after = find_after(alloc, text)?;
    let twice = find_twice(alloc, text, after.as_slice())?;
    Ok(Marks {
        starts,
        entered,
        after,
        twice,
    })
}
