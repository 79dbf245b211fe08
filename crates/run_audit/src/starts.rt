//! The starts of a text, as a table of its words.

ghost use Rattle.std.specs.Prelude.{◌≡◌, IfOk};
ghost use Rattle.mips_text.specs.Text.{IsText};
ghost use Rattle.mips_text.specs.Blocks.{IsStart};
ghost use Rattle.harden_lint.specs.StartTable.{marked, marked_if};
ghost use Rattle.run_audit.specs.Turns.{Bits};

use hard_words::OutOfMemory;
use lint_words::{TEXT_START, WordTable, in_words, made};
use std::alloc::Global;

// Marks a start in the table, if it is of the text.
fn mark(bits: &mut Vec<bool>, w: u32)
    ensures { bits.new.items ≡ marked bits.old.items w }
{
    if in_words(bits.len(), w) {
        bits[((w - TEXT_START) / 4) as usize] = true;
    }
}

fn mark_if(bits: &mut Vec<bool>, w: Option<u32>)
    ensures { bits.new.items ≡ marked_if bits.old.items w }
{
    match w {
        None => {}
        Some(w) => mark(bits, w),
    }
}

/// A bit for each word of the text, which says whether it is a start.
pub(crate) fn find_starts(
    alloc: Global,
    text: &WordTable,
    entry: u32,
) -> Result<Vec<bool>, OutOfMemory>
    requires { IsText text.now }
    ensures { IfOk result (λ bits. Bits text.now (IsStart text.now entry) bits.items) }
{
    let n = text.len();
    let mut bits = vec![in alloc; false; n]?;
    mark(&mut bits, entry);
    for k in 0..n {
        let (first, second) = made(text, TEXT_START + 4 * (k as u32));
        mark_if(&mut bits, first);
        mark_if(&mut bits, second);
    }
    Ok(bits)
}
