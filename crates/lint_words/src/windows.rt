//! Checks and windows: which checked registers await a critical use.
ghost use Rattle.std.specs.Prelude.{◌≡◌, ◌≤◌, ◌<◌, ◌||◌, ◌&&◌, ◌==◌, not};
ghost use Rattle.lint_words.specs.Around.{reporting};
ghost use Rattle.lint_words.specs.Windows.{critical, use_at, await_3, await_2, awaits, is_one, compared_by, check_at, window_by, window, serving, service_near};

use crate::around::{reads_by, reporting, writes_by};
use crate::table::WordTable;
use crate::words::{code_of, instr_at, skipped};
use mips_isa::Instr;

// Whether a branch that skips no report reads a register.
fn fork_reads(skip: Option<u32>, x: u8, y: u8, r: u8) -> bool
    ensures { result ≡ (not (reporting skip) && ((r == x) || (r == y))) }
{
    !reporting(skip) && (r == x || r == y)
}

/// Whether the word at u reads a register in a critical way.
pub fn critical(text: &WordTable, u: u32, r: u8) -> bool
    requires { u < 4294967288 }
    ensures { result ≡ critical text.now u r }
{
    match instr_at(text, u) {
        Some(Instr::Sw { rt: _, rs, imm: _ }) => r == rs,
        Some(Instr::Beq { rs, rt, imm: _ }) => fork_reads(skipped(text, u), rs, rt, r),
        Some(Instr::Bne { rs, rt, imm: _ }) => fork_reads(skipped(text, u), rs, rt, r),
        Some(Instr::Jr { rs }) => r == rs,
        Some(Instr::Syscall) => r == 4,
        _ => false,
    }
}

fn use_at(text: &WordTable, r: u8, a: u32, u: u32) -> bool
    requires { u < 4294967288 }
    ensures { result ≡ use_at text.now r a u }
{
    a <= u && critical(text, u, r)
}

fn await_3(text: &WordTable, r: u8, c: u32, a: u32) -> bool
    requires { c ≤ 4294967264 }
    ensures { result ≡ await_3 text.now r c a }
{
    use_at(text, r, a, c + 12)
        || (!writes_by(instr_at(text, c + 12), r) && use_at(text, r, a, c + 16))
}

fn await_2(text: &WordTable, r: u8, c: u32, a: u32) -> bool
    requires { c ≤ 4294967264 }
    ensures { result ≡ await_2 text.now r c a }
{
    use_at(text, r, a, c + 8) || (!writes_by(instr_at(text, c + 8), r) && await_3(text, r, c, a))
}

// Whether a use of the register awaits at a behind c.
fn awaits(text: &WordTable, r: u8, c: u32, a: u32) -> bool
    requires { c ≤ 4294967264 }
    ensures { result ≡ awaits text.now r c a }
{
    use_at(text, r, a, c + 4) || (!writes_by(instr_at(text, c + 4), r) && await_2(text, r, c, a))
}

fn is_one(code: Option<u32>) -> bool
    ensures { result ≡ is_one code }
{
    match code {
        None => false,
        Some(code) => code == 1,
    }
}

fn compared_by(x: u8, y: u8, imm: u16, code: Option<u32>) -> Option<(u8, u8)>
    ensures { result ≡ compared_by x y imm code }
{
    if imm == 2 && (is_one(code) && (!(x == y) && (!(x == 0) && !(y == 0)))) {
        Some((x, y))
    } else {
        None
    }
}

/// The registers that the check at c compares: two, different, neither of them 0.
pub fn check_at(text: &WordTable, c: u32) -> Option<(u8, u8)>
    requires { c < 4294967288 }
    ensures { result ≡ check_at text.now c }
{
    match instr_at(text, c) {
        Some(Instr::Beq { rs, rt, imm }) => {
            compared_by(rs, rt, imm, code_of(instr_at(text, c + 8)))
        }
        _ => None,
    }
}

fn window_by(text: &WordTable, pair: Option<(u8, u8)>, r: u8, c: u32, a: u32) -> bool
    requires { c ≤ 4294967264 }
    ensures { result ≡ window_by text.now pair r c a }
{
    match pair {
        None => false,
        Some(p) => (r == p.0 || r == p.1) && (c + 4 <= a && awaits(text, r, c, a)),
    }
}

/// Whether a register has a window at a by the check at c.
pub fn window(text: &WordTable, r: u8, c: u32, a: u32) -> bool
    requires { c ≤ 4294967264 }
    ensures { result ≡ window text.now r c a }
{
    window_by(text, check_at(text, c), r, c, a)
}

/// Whether an instruction calls a service.
pub fn serving(instr: Option<Instr>) -> bool
    ensures { result ≡ serving instr }
{
    match instr {
        Some(Instr::Syscall) => true,
        _ => false,
    }
}

/// Whether register 2 has a window at a by a service: where one is called, and where its answer is read.
pub fn service_near(text: &WordTable, a: u32) -> bool
    requires { 4 ≤ a }
    ensures { result ≡ service_near text.now a }
{
    serving(instr_at(text, a)) || (serving(instr_at(text, a - 4)) && reads_by(instr_at(text, a), 2))
}
