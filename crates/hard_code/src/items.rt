//! The instruction and the field of each item.

ghost use Rattle.std.specs.Prelude.{◌≡◌, ◌↔◌, IsTrue, All};
ghost use Rattle.std.specs.List.{list_all};
ghost use Rattle.mips_isa.specs.Table.{IsInRange};
ghost use Rattle.hard_code.specs.Tested.{plain_fits, block_fits, function_fits, high_fits, low_fits, field_fits, names_there, item_fits, ItemsFit};

use crate::ends::ends_well;
use crate::skips::each_stands;
use hard_items::{Fix, Item};
use mips_isa::{Instr, in_range};

/// Whether an instruction has no address for the layout to fill.
fn plain_fits(instr: Instr) -> bool
    ensures { result ≡ plain_fits instr }
{
    match instr {
        Instr::J { target: _ } | Instr::Jal { target: _ } => false,
        _ => true,
    }
}

/// Whether an instruction may name a block, and its field is 0.
fn block_fits(instr: Instr) -> bool
    ensures { result ≡ block_fits instr }
{
    match instr {
        Instr::J { target } => target == 0,
        Instr::Beq { rs: _, rt: _, imm } | Instr::Bne { rs: _, rt: _, imm } => imm == 0,
        _ => false,
    }
}

/// Whether an instruction may name a function, and its field is 0.
fn function_fits(instr: Instr) -> bool
    ensures { result ≡ function_fits instr }
{
    match instr {
        Instr::Jal { target } => target == 0,
        _ => false,
    }
}

/// Whether an instruction may take the high half of a return address, and its field is 0.
fn high_fits(instr: Instr) -> bool
    ensures { result ≡ high_fits instr }
{
    match instr {
        Instr::Lui { rt: _, imm } => imm == 0,
        _ => false,
    }
}

/// Whether an instruction may take the low half of a return address, and its field is 0.
fn low_fits(instr: Instr) -> bool
    ensures { result ≡ low_fits instr }
{
    match instr {
        Instr::Ori { rt: _, rs: _, imm } => imm == 0,
        _ => false,
    }
}

/// Whether an instruction goes with what the layout puts into it.
fn field_fits(fix: Fix, instr: Instr) -> bool
    ensures { result ≡ field_fits fix instr }
{
    match fix {
        Fix::Plain => plain_fits(instr),
        Fix::Block(_) => block_fits(instr),
        Fix::Function(_) => function_fits(instr),
        Fix::ReturnHigh => high_fits(instr),
        Fix::ReturnLow => low_fits(instr),
    }
}

/// Whether the block or the function that a field names is there.
fn names_there(fix: Fix, blocks: usize, entries: usize) -> bool
    ensures { result ≡ names_there blocks entries fix }
{
    match fix {
        Fix::Block(block) => (block as usize) < blocks,
        Fix::Function(function) => (function as usize) < entries,
        Fix::Plain | Fix::ReturnHigh | Fix::ReturnLow => true,
    }
}

/// Whether an item's instruction goes with its field, and what it names is there.
fn item_fits(item: &Item, blocks: usize, entries: usize) -> bool
    ensures { result ≡ item_fits blocks entries item.now }
{
    field_fits(item.fix, item.instr) && names_there(item.fix, blocks, entries)
}

/// Whether that is so of each item.
fn each_fits(items: &[Item], blocks: usize, entries: usize) -> bool
    ensures { result ≡ list_all (λ i. item_fits blocks entries i) items.now }
{
    items.iter().all(|item| item_fits(item, blocks, entries))
}

/// Whether the fields of each instruction fit its word.
fn each_in_range(items: &[Item]) -> bool
    ensures { IsTrue result ↔ All (λ i. IsInRange i.instr) items.now }
{
    for item in items {
        if !in_range(&item.instr) {
            return false;
        }
    }
    true
}

/// Whether the items of a block fit a program with so many blocks and functions.
pub(crate) fn items_fit(items: &[Item], blocks: usize, entries: usize) -> bool
    ensures { IsTrue result ↔ ItemsFit blocks entries items.now }
{
    if !each_in_range(items) {
        return false;
    }
    if !each_stands(items) {
        return false;
    }
    each_fits(items, blocks, entries) && ends_well(items)
}
