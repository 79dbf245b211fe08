//! The checks of one item.

ghost use Rattle.std.specs.Prelude.{◌≡◌, ◌<◌, ◌++◌, ◌∷◌, [], false, OnOk};
ghost use Rattle.mips_isa.specs.Table.{IsInRange};
ghost use Rattle.hard_items.specs.Forms.{check};
ghost use Rattle.hard_items.specs.Rules.{use_checks};
ghost use Rattle.hard_items.specs.Streams as streams;
ghost use Rattle.compare_pass.specs.Guarding as guarding;

use hard_items::{Class, Fix, Item};
use hard_words::OutOfMemory;
use mips_isa::Instr;

/// The code of the break that reports that the streams differ.
const STREAMS_DIFFER: u32 = 1;

/// Whether a register is one of the first stream: 4 to 13, 29 and 31.
fn is_master(register: u8) -> bool
    ensures { result ≡ streams.is_master register }
{
    matches!(register, 4..=13 | 29 | 31)
}

/// The register of the second stream that has the role of one of the first. The register is at most 31.
fn shadow_of(register: u8) -> u8
    requires { register < 32 }
    ensures { result ≡ streams.shadow_of register }
{
    match register {
        29 => 30,
        31 => 25,
        _ => register + 10,
    }
}

/// Adds an item of a check.
fn put(out: &mut Vec<Item>, instr: Instr) -> Result<(), OutOfMemory>
    ensures { OnOk result (out.new.items ≡ out.old.items ++ streams.plain instr Class.Check ∷ []) }
{
    out.push(Item {
        instr,
        class: Class::Check,
        fix: Fix::Plain,
    })?;
    Ok(())
}

/// Adds the check that a register of the first stream and the one of the second hold the same. The register is at most 31.
fn put_check(out: &mut Vec<Item>, register: u8) -> Result<(), OutOfMemory>
    requires { register < 32 }
    ensures { OnOk result (out.new.items ≡ out.old.items ++ check register (streams.shadow_of register)) }
{
    put(
        out,
        Instr::Beq {
            rs: register,
            rt: shadow_of(register),
            imm: 2,
        },
    )?;
    put(
        out,
        Instr::Sll {
            rd: 0,
            rt: 0,
            sh: 0,
        },
    )?;
    put(
        out,
        Instr::Break {
            code: STREAMS_DIFFER,
        },
    )
}

/// Adds the checks of the registers that an instruction uses for both streams, but those of a service.
fn put_checks(out: &mut Vec<Item>, instr: Instr) -> Result<(), OutOfMemory>
    requires range { IsInRange instr }
    requires no_service { guarding.is_number instr ≡ false }
    ensures { OnOk result (out.new.items ≡ out.old.items ++ guarding.checks (use_checks instr)) }
{
    match instr {
        Instr::Sw { rt, rs, .. } => {
            if is_master(rt) {
                put_check(out, rt)?;
                put_check(out, rs)?;
            }
            Ok(())
        }
        Instr::Beq { rs, .. } => put_check(out, rs),
        Instr::Bne { rs, .. } => put_check(out, rs),
        Instr::Jr { rs } => put_check(out, rs),
        _ => Ok(()),
    }
}

/// Adds an item of a service behind the comparison of registers 4 and 14, in whose delay slot it stands.
fn put_number(out: &mut Vec<Item>, item: Item) -> Result<(), OutOfMemory>
    ensures { OnOk result (out.new.items ≡ out.old.items ++ guarding.number_items item) }
{
    put(
        out,
        Instr::Beq {
            rs: 4,
            rt: 14,
            imm: 2,
        },
    )?;
    out.push(item)?;
    put(
        out,
        Instr::Break {
            code: STREAMS_DIFFER,
        },
    )
}

/// Adds an item that acts for both streams behind its checks.
fn put_acting(out: &mut Vec<Item>, item: Item) -> Result<(), OutOfMemory>
    requires { IsInRange item.instr }
    ensures { OnOk result (out.new.items ≡ out.old.items ++ guarding.acting item) }
{
    if let Instr::Ori { .. } = item.instr {
        return put_number(out, item);
    }
    put_checks(out, item.instr)?;
    out.push(item)?;
    Ok(())
}

/// Adds an item behind its checks; where they stand there already, the item alone.
pub(crate) fn put_guarded(out: &mut Vec<Item>, item: Item, checked: bool) -> Result<(), OutOfMemory>
    requires { IsInRange item.instr }
    ensures { OnOk result (out.new.items ≡ out.old.items ++ guarding.guarded checked item) }
{
    match item.class {
        Class::Act => {
            if !checked {
                return put_acting(out, item);
            }
        }
        _ => (),
    }
    out.push(item)?;
    Ok(())
}
