//! Nops where the machine needs a word between two others.

ghost use Rattle.std.specs.Prelude.{◌≡◌, ◌≤◌, ◌++◌, OnOk, IfOk, replicate};
ghost use Rattle.mips_isa.specs.Locality as locality;
ghost use Rattle.hard_items.specs.Streams as streams;
ghost use Rattle.hard_items.specs.Counts as counts;
ghost use Rattle.block_schedule.specs.Scheduling as scheduling;

use hard_items::{Class, Fix, Item};
use hard_words::OutOfMemory;
use mips_isa::{Instr, is_product, reads_register};
use std::alloc::Global;

/// How many words must pass behind a move from HI or LO before a product may stand.
const BEHIND_MOVE: usize = 2;

/// The register that an instruction loads, else 0.
fn loaded(instr: Instr) -> u8
    ensures { result ≡ counts.loaded instr }
{
    match instr {
        Instr::Lw { rt, .. } => rt,
        _ => 0,
    }
}

/// Whether an instruction moves HI or LO to a register.
fn is_move(instr: Instr) -> bool
    ensures { result ≡ locality.is_move instr }
{
    match instr {
        Instr::Mfhi { .. } => true,
        Instr::Mflo { .. } => true,
        _ => false,
    }
}

/// Whether an instruction is a break.
fn is_break(instr: Instr) -> bool
    ensures { result ≡ counts.is_break instr }
{
    match instr {
        Instr::Break { .. } => true,
        _ => false,
    }
}

/// How many words must pass before a product may stand, behind an instruction before which it was so many.
fn quiet_after(instr: Instr, quiet: usize) -> usize
    ensures { result ≡ counts.quiet_after instr quiet }
{
    if is_move(instr) {
        BEHIND_MOVE
    } else {
        quiet.saturating_sub(1)
    }
}

/// How many nops must stand before an instruction: one where it reads the register that the word before it loaded, and before a
/// product as many as must still pass.
fn wait(last: u8, quiet: usize, instr: Instr) -> usize
    ensures { result ≡ scheduling.wait last quiet instr }
{
    let for_load = if last != 0 && reads_register(&instr, last) {
        1
    } else {
        0
    };
    let for_product = if is_product(&instr) { quiet } else { 0 };
    for_load.max(for_product)
}

/// Adds nops.
fn put_nops(out: &mut Vec<Item>, count: usize) -> Result<(), OutOfMemory>
    ensures { OnOk result (out.new.items ≡ out.old.items ++ replicate count (streams.plain streams.nop Class.Master)) }
{
    for placed in 0..count {
        out.push(Item {
            instr: Instr::Sll {
                rd: 0,
                rt: 0,
                sh: 0,
            },
            class: Class::Master,
            fix: Fix::Plain,
        })?;
    }
    Ok(())
}

/// The items with the nops between them that the machine needs.
pub(crate) fn space(alloc: Global, items: &[Item]) -> Result<Vec<Item>, OutOfMemory>
    ensures { IfOk result (λ put. put.items ≡ scheduling.with_nops 0 0 items.now) }
{
    let mut out = Vec::new(alloc);
    let mut last: u8 = 0;
    let mut quiet: usize = 0;
    for item in items {
        if !is_break(item.instr) {
            let count = wait(last, quiet, item.instr);
            put_nops(&mut out, count)?;
            last = loaded(item.instr);
            quiet = quiet_after(item.instr, quiet.saturating_sub(count));
        }
        out.push(*item)?;
    }
    Ok(out)
}
