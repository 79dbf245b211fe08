//! The list of the windows of a text.
ghost use Rattle.std.specs.Prelude.{◌≡◌, ◌≤◌, ◌<◌, ◌+◌, ◌%◌, ◌↔◌, IsTrue, OnOk, IfOk};
ghost use Rattle.std.specs.Int.{bit_at};
ghost use Rattle.hard_words.specs.Words.{AreWords};
ghost use Rattle.mips_text.specs.Text.{IsText};
ghost use Rattle.lint_words.specs.WindowList.{WindowsBefore, AreWindows};

use hard_words::OutOfMemory;
use harden_lint::{Typing, window_mask, windows_inside};
use lint_words::{TEXT_START, WordTable};
use std::alloc::Global;

// Whether a mask names a register.
fn names(mask: u32, r: u8) -> bool
    requires { r < 32 }
    ensures { IsTrue result ↔ (bit_at mask r ≡ 1) }
{
    (mask >> r) & 1 == 1
}

// Lists the windows at a word.
fn push_windows(text: &WordTable, a: u32, list: &mut Vec<(u32, u8)>) -> Result<(), OutOfMemory>
    requires words { AreWords text.now }
    requires low { 64 ≤ a }
    requires high { a ≤ 4294967264 }
    requires word { a % 4 ≡ 0 }
    requires before { WindowsBefore text.now (a, 0) list.old.items }
    ensures { OnOk result (WindowsBefore text.now (a + 4, 0) list.new.items) }
{
    windows_inside();
    let mask = window_mask(text, a);
    if mask == 0 {
        return Ok(());
    }
    for r in 0..32u8 {
        if names(mask, r) {
            list.push((a, r))?;
        }
    }
    Ok(())
}

/// The windows of a text of at most 66,060,288 words, from address 0x00400000 on: the address and the register, 0 to 31, of each,
/// ascending by address and then by register, each once. They are a function of the text alone: the typing stands for a text
/// that the lint has accepted, and is not read.
pub fn windows(alloc: Global, text: &[u32], _typing: &Typing) -> Result<Vec<(u32, u8)>, OutOfMemory>
    requires { IsText text.now }
    ensures { IfOk result (λ list. AreWindows text.now list.items) }
{
    windows_inside();
    let table = WordTable::new(alloc, text)?;
    let mut list: Vec<(u32, u8)> = Vec::new(alloc);
    for k in 0..text.len() {
        push_windows(&table, TEXT_START + 4 * (k as u32), &mut list)?;
    }
    Ok(list)
}
