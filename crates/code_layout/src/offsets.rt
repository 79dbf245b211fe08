//! The fields that the layout fills.

ghost use Rattle.std.specs.Prelude.{◌≡◌, ℕ, ◌+◌, ◌*◌, ◌%◌, ◌^◌, ◌≤◌};
ghost use Rattle.layout_law.specs.Layout.{offset, Reaches, filled_with};
ghost use Rattle.code_layout.specs.Starts.{BranchReaches};

use hard_items::{Fix, Item};
use mips_isa::Instr;

/// The offset of a branch from its delay slot's address to its target.
pub(crate) fn offset_to(from: u32, to: u32) -> u16
    requires reach { Reaches from to }
    requires from_word { from % 4 ≡ 0 }
    requires to_word { to % 4 ≡ 0 }
    ensures { result ≡ offset from to }
{
    if from <= to {
        ((to - from) / 4) as u16
    } else {
        (65536 - (from - to) / 4) as u16
    }
}

/// The instruction of an item at an address, whose field leads to an address, before the block at a third.
pub(crate) fn fill(item: &Item, at: u32, to: u32, back: u32) -> Instr
    requires at_word { at % 4 ≡ 0 }
    requires to_word { to % 4 ≡ 0 }
    requires low { at ≤ 2 ^ 28 }
    requires back_low { back ≤ 2 ^ 28 }
    requires reach { BranchReaches at to item.now.fix item.now.instr }
    ensures { result ≡ filled_with at to back item.now.fix item.now.instr }
{
    match item.fix {
        Fix::Plain => item.instr,
        Fix::Block(_) => match item.instr {
            Instr::J { .. } => Instr::J { target: to / 4 },
            Instr::Beq { rs, rt, .. } => Instr::Beq {
                rs,
                rt,
                imm: offset_to(at + 4, to),
            },
            Instr::Bne { rs, rt, .. } => Instr::Bne {
                rs,
                rt,
                imm: offset_to(at + 4, to),
            },
            other => other,
        },
        Fix::Function(_) => match item.instr {
            Instr::Jal { .. } => Instr::Jal { target: to / 4 },
            other => other,
        },
        Fix::ReturnHigh => match item.instr {
            Instr::Lui { rt, .. } => Instr::Lui {
                rt,
                imm: (back / 65536) as u16,
            },
            other => other,
        },
        Fix::ReturnLow => match item.instr {
            Instr::Ori { rt, rs, .. } => Instr::Ori {
                rt,
                rs,
                imm: (back % 65536) as u16,
            },
            other => other,
        },
    }
}
