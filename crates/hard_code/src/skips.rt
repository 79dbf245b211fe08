//! Branches over a break, and where the other branches and the jumps stand.

ghost use Rattle.std.specs.Prelude.{◌≡◌, ℕ, ◌<◌, ◌↔◌, IsTrue, true, length};
ghost use Rattle.hard_items.specs.Counts.{is_break};
ghost use Rattle.hard_code.specs.Tested.{is_plain, is_branch, is_skip, breaks, skips_break, may_stand, stands, place_fits};

use crate::places::item_at;
use hard_items::{Fix, Item};
use mips_isa::{Instr, is_jump};

/// Whether the layout puts nothing into an item.
fn is_plain(fix: Fix) -> bool
    ensures { result ≡ is_plain fix }
{
    match fix {
        Fix::Plain => true,
        Fix::Block(_) | Fix::Function(_) | Fix::ReturnHigh | Fix::ReturnLow => false,
    }
}

/// Whether an instruction is a conditional branch.
fn is_branch(instr: Instr) -> bool
    ensures { result ≡ is_branch instr }
{
    match instr {
        Instr::Beq {
            rs: _,
            rt: _,
            imm: _,
        }
        | Instr::Bne {
            rs: _,
            rt: _,
            imm: _,
        } => true,
        _ => false,
    }
}

/// Whether an instruction is a conditional branch over one instruction behind its delay slot.
fn is_skip(instr: Instr) -> bool
    ensures { result ≡ is_skip instr }
{
    match instr {
        Instr::Beq { rs: _, rt: _, imm } | Instr::Bne { rs: _, rt: _, imm } => imm == 2,
        _ => false,
    }
}

/// Whether an instruction is a break.
pub(crate) fn is_break(instr: Instr) -> bool
    ensures { result ≡ is_break instr }
{
    match instr {
        Instr::Break { code: _ } => true,
        _ => false,
    }
}

/// Whether there is an item, and it is a break.
fn breaks(item: Option<Item>) -> bool
    ensures { result ≡ breaks item }
{
    match item {
        Some(item) => is_break(item.instr),
        None => false,
    }
}

/// Whether an item skips a break, the second item behind it.
fn skips_break(item: &Item, behind: Option<Item>) -> bool
    ensures { result ≡ skips_break item.now behind }
{
    is_plain(item.fix) && is_skip(item.instr) && breaks(behind)
}

/// Whether an item may stand at a place of so many items, before the second item behind it.
fn may_stand(item: &Item, behind: Option<Item>, place: usize, count: usize) -> bool
    requires { place < count }
    ensures { result ≡ may_stand item.now behind place count }
{
    if skips_break(item, behind) {
        return count - place > 3;
    }
    if !is_jump(&item.instr) {
        return true;
    }
    count - place == 2 && !(is_plain(item.fix) && is_branch(item.instr))
}

/// Whether the item at a place may stand there.
fn place_fits(items: &[Item], place: usize) -> bool
    requires { place < length items.now }
    ensures { result ≡ place_fits items.now place }
{
    let behind = item_at(items, place + 2);
    may_stand(&items[place], behind, place, items.len())
}

/// Whether each item may stand where it does.
pub(crate) fn each_stands(items: &[Item]) -> bool
    ensures { IsTrue result ↔ ((k : ℕ) → k < length items.now → place_fits items.now k ≡ true) }
{
    for place in 0..items.len() {
        if !place_fits(items, place) {
            return false;
        }
    }
    true
}
