//! The ends of blocks.

ghost use Rattle.std.specs.Prelude.{◌≡◌};
ghost use Rattle.hard_code.specs.Tested.{is_nop, closes, ends_well};

use crate::places::item_at;
use crate::skips::is_break;
use hard_items::Item;
use mips_isa::{Instr, is_jump};

/// Whether an instruction is the one that does nothing.
fn is_nop(instr: Instr) -> bool
    ensures { result ≡ is_nop instr }
{
    match instr {
        Instr::Sll { rd, rt, sh } => rd == 0 && (rt == 0 && sh == 0),
        _ => false,
    }
}

/// Whether two items close a block: a jump or a branch and a nop, or any one and a break.
fn closes(before: Option<Item>, last: Option<Item>) -> bool
    ensures { result ≡ closes before last }
{
    match before {
        Some(before) => {
            match last {
                Some(last) => {
                    is_break(last.instr) || (is_jump(&before.instr) && is_nop(last.instr))
                }
                None => false,
            }
        }
        None => false,
    }
}

/// Whether the last two items of a block close it.
pub(crate) fn ends_well(items: &[Item]) -> bool
    ensures { result ≡ ends_well items.now }
{
    let count = items.len();
    count >= 2 && closes(item_at(items, count - 2), item_at(items, count - 1))
}
