//! The list of the windows of a text of three streams.
ghost use Rattle.std.specs.Prelude.{◌≡◌, ◌≤◌, ◌<◌, ◌+◌, ◌*◌, ◌%◌, ◌↔◌, IsTrue, OnOk, IfOk, length};
ghost use Rattle.std.specs.Int.{bit_at};
ghost use Rattle.mips_text.specs.Text.{IsText};
ghost use Rattle.third_lint.specs.WindowList.{WindowsBefore, AreWindows};

use crate::TypingThird;
use crate::masks::window_mask;
use hard_words::OutOfMemory;
use lint_words::{TEXT_START, WordTable};
use std::alloc::Global;

// Whether a mask names a register.
fn names(mask: u32, r: u8) -> bool
    requires { r < 32 }
    ensures { IsTrue result ↔ (bit_at mask r ≡ 1) }
{
    (mask >> r) & 1 == 1
}

// Lists the windows at a word.
fn push_windows(text: &WordTable, a: u32, list: &mut Vec<(u32, u8)>) -> Result<(), OutOfMemory>
    requires low { 128 ≤ a }
    requires high { a ≤ 4294967200 }
    requires word { a % 4 ≡ 0 }
    requires before { WindowsBefore text.now (a, 0) list.old.items }
    ensures { OnOk result (WindowsBefore text.now (a + 4, 0) list.new.items) }
{
    let mask = window_mask(text, a);
    if mask == 0 {
        return Ok(());
    }
    for r in 0..32u8 {
        if names(mask, r) {
            list.push((a, r))?;
        }
    }
    Ok(())
}

/// The windows of a text of at most 66,060,288 words, from address 0x00400000 on: the address and the register, 1 to 31, of each,
/// ascending by address and then by register, each once; at most four for each word. They are a function of the text alone: the
/// typing stands for a text that the lint has accepted, and is not read. It takes time in proportion to the words.
///
/// # Errors
///
/// [`OutOfMemory`] for want of memory alone.
pub fn windows_third(
    alloc: Global,
    text: &[u32],
    _typing: &TypingThird,
) -> Result<Vec<(u32, u8)>, OutOfMemory>
    requires { IsText text.now }
    ensures exact { IfOk result (λ list. AreWindows text.now list.items) }
    ensures few { IfOk result (λ list. length list.items ≤ 4 * length text.now) }
{
    let table = WordTable::new(alloc, text)?;
    let mut list: Vec<(u32, u8)> = Vec::new(alloc);
    for k in 0..text.len() {
        push_windows(&table, TEXT_START + 4 * (k as u32), &mut list)?;
    }
    Ok(list)
}
