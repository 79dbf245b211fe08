//! The words of a text: what each is, where it leads, and which starts it makes.
ghost use Rattle.std.specs.Prelude.{◌≡◌, ◌<◌, ◌^◌, IfSome};
ghost use Rattle.mips_isa.specs.Table.{IsInRange};
ghost use Rattle.mips_text.specs.Text.{instr_at, branch_goal, jump_goal};
ghost use Rattle.lint_words.specs.Words.{code_of, offset_of, skipped, fork_starts, starts_of, made, in_words};

use crate::table::WordTable;
use mips_isa::Instr;

/// Where the text begins.
pub const TEXT_START: u32 = 0x0040_0000;

/// The instruction at an address; none outside the text, between two words, or where the word is no instruction.
pub fn instr_at(text: &WordTable, a: u32) -> Option<Instr>
    ensures at { result ≡ instr_at text.now a }
    ensures range { IfSome result (λ instr. IsInRange instr) }
{
    if a % 4 != 0 || a < TEXT_START {
        return None;
    }
    let place = ((a - TEXT_START) / 4) as usize;
    if place < text.len() {
        text.at(place)
    } else {
        None
    }
}

/// The code of a break.
pub fn code_of(instr: Option<Instr>) -> Option<u32>
    ensures { result ≡ code_of instr }
{
    match instr {
        Some(Instr::Break { code }) => Some(code),
        _ => None,
    }
}

// The offset of a conditional branch.
fn offset_of(instr: Option<Instr>) -> Option<u16>
    ensures { result ≡ offset_of instr }
{
    match instr {
        Some(Instr::Beq { rs: _, rt: _, imm }) => Some(imm),
        Some(Instr::Bne { rs: _, rt: _, imm }) => Some(imm),
        _ => None,
    }
}

/// The code of the break that the branch at an address skips.
pub fn skipped(text: &WordTable, a: u32) -> Option<u32>
    requires { a < 4294967288 }
    ensures { result ≡ skipped text.now a }
{
    match offset_of(instr_at(text, a)) {
        None => None,
        Some(imm) => {
            if imm == 2 {
                code_of(instr_at(text, a + 8))
            } else {
                None
            }
        }
    }
}

/// Where a jump at an address leads.
pub fn jump_goal(a: u32, target: u32) -> u32
    requires { target < 2 ^ 26 }
    ensures { result ≡ jump_goal a target }
{
    a.wrapping_add(4) / 268435456 * 268435456 + target * 4
}

/// Where a branch at an address leads.
pub fn branch_goal(a: u32, imm: u16) -> u32
    ensures { result ≡ branch_goal a imm }
{
    let by = hard_words::sign16(imm).wrapping_mul(4);
    a.wrapping_add(4).wrapping_add(by)
}

// The starts that a branch makes.
fn fork_starts(skip: Option<u32>, a: u32, imm: u16) -> (Option<u32>, Option<u32>)
    requires { a < 4294967288 }
    ensures { result ≡ fork_starts skip a imm }
{
    match skip {
        None => (Some(branch_goal(a, imm)), Some(a + 8)),
        Some(_) => (None, None),
    }
}

// The starts that an instruction makes.
fn starts_of(instr: Option<Instr>, skip: Option<u32>, a: u32) -> (Option<u32>, Option<u32>)
    requires small { a < 4294967288 }
    requires range { IfSome instr (λ instr. IsInRange instr) }
    ensures { result ≡ starts_of instr skip a }
{
    match instr {
        Some(Instr::J { target }) => (Some(jump_goal(a, target)), None),
        Some(Instr::Jal { target }) => (Some(jump_goal(a, target)), Some(a + 8)),
        Some(Instr::Beq { rs: _, rt: _, imm }) => fork_starts(skip, a, imm),
        Some(Instr::Bne { rs: _, rt: _, imm }) => fork_starts(skip, a, imm),
        _ => (None, None),
    }
}

/// The starts that the word at an address makes: of a jal two, of a j one, of a conditional branch that skips no break two.
pub fn made(text: &WordTable, a: u32) -> (Option<u32>, Option<u32>)
    requires { a < 4294967288 }
    ensures { result ≡ made text.now a }
{
    starts_of(instr_at(text, a), skipped(text, a), a)
}

/// Whether an address is of a word of a text of so many words.
pub fn in_words(n: usize, w: u32) -> bool
    ensures { result ≡ in_words n w }
{
    w % 4 == 0 && (TEXT_START <= w && (((w - TEXT_START) / 4) as usize) < n)
}
