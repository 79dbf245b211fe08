//! The seven words of a head, and the words of the forms that call a service.
ghost use Rattle.std.specs.Prelude.{◌≡◌, ◌≤◌};
ghost use Rattle.lint_words.specs.Shapes.{is_differs, is_nop, is_adjusts, is_ori, is_beq, is_code, head_at, head_start, in_head, is_choice, moved_to, paired, moves_pair, service_at, output_at, exit_at, input_at, form_at, form_behind, in_form};

use crate::around::starts_at;
use crate::table::WordTable;
use crate::windows::serving;
use crate::words::{code_of, instr_at};
use mips_isa::Instr;

fn is_differs(instr: Option<Instr>) -> bool
    ensures { result ≡ is_differs instr }
{
    match instr {
        Some(Instr::Xori { rt, rs, imm: _ }) => rt == 24 && rs == 24,
        _ => false,
    }
}

/// Whether an instruction is a nop.
pub fn is_nop(instr: Option<Instr>) -> bool
    ensures { result ≡ is_nop instr }
{
    match instr {
        Some(Instr::Sll { rd, rt, sh }) => rd == 0 && (rt == 0 && sh == 0),
        _ => false,
    }
}

fn is_adjusts(instr: Option<Instr>) -> bool
    ensures { result ≡ is_adjusts instr }
{
    match instr {
        Some(Instr::Xor { rd, rs, rt }) => rd == 24 && (rs == 24 && rt == 28),
        _ => false,
    }
}

fn is_ori(instr: Option<Instr>, r: u8) -> bool
    ensures { result ≡ is_ori instr r }
{
    match instr {
        Some(Instr::Ori { rt, rs, imm: _ }) => rt == r && rs == 0,
        _ => false,
    }
}

fn is_beq(instr: Option<Instr>, r: u8, q: u8) -> bool
    ensures { result ≡ is_beq instr r q }
{
    match instr {
        Some(Instr::Beq { rs, rt, imm }) => rs == r && (rt == q && imm == 2),
        _ => false,
    }
}

fn is_code(code: Option<u32>, n: u32) -> bool
    ensures { result ≡ is_code code n }
{
    match code {
        None => false,
        Some(code) => code == n,
    }
}

/// Whether the seven words at u are a head.
pub fn head_at(text: &WordTable, u: u32) -> bool
    requires { u ≤ 4294967264 }
    ensures { result ≡ head_at text.now u }
{
    is_differs(instr_at(text, u))
        && ((is_adjusts(instr_at(text, u + 4)) || is_nop(instr_at(text, u + 4)))
            && (is_ori(instr_at(text, u + 8), 1)
                && (is_ori(instr_at(text, u + 12), 28)
                    && (is_beq(instr_at(text, u + 16), 24, 1)
                        && (is_nop(instr_at(text, u + 20))
                            && is_code(code_of(instr_at(text, u + 24)), 2))))))
}

fn head_start(text: &WordTable, bits: &[bool], u: u32) -> bool
    requires { u ≤ 4294967264 }
    ensures { result ≡ head_start text.now bits.now u }
{
    starts_at(bits, u) && head_at(text, u)
}

/// Whether a word is in the head of a start.
pub fn in_head(text: &WordTable, bits: &[bool], a: u32) -> bool
    requires low { 24 ≤ a }
    requires high { a ≤ 4294967264 }
    ensures { result ≡ in_head text.now bits.now a }
{
    head_start(text, bits, a)
        || (head_start(text, bits, a - 4)
            || (head_start(text, bits, a - 8)
                || (head_start(text, bits, a - 12)
                    || (head_start(text, bits, a - 16)
                        || (head_start(text, bits, a - 20) || head_start(text, bits, a - 24))))))
}

fn is_choice(instr: Option<Instr>, n: u16) -> bool
    ensures { result ≡ is_choice instr n }
{
    match instr {
        Some(Instr::Ori { rt, rs, imm }) => rt == 2 && (rs == 0 && imm == n),
        _ => false,
    }
}

fn moved_to(instr: Option<Instr>) -> Option<u8>
    ensures { result ≡ moved_to instr }
{
    match instr {
        Some(Instr::Addu { rd, rs, rt }) => { if rs == 2 && rt == 0 { Some(rd) } else { None } }
        _ => None,
    }
}

fn paired(m: u8, s: u8) -> bool
    ensures { result ≡ paired m s }
{
    ((4 <= m && m <= 13) && s as u16 == m as u16 + 10)
        || ((m == 29 && s == 30) || (m == 31 && s == 25))
}

fn moves_pair(m: Option<u8>, s: Option<u8>) -> bool
    ensures { result ≡ moves_pair m s }
{
    match m {
        None => false,
        Some(m) => match s {
            None => false,
            Some(s) => paired(m, s),
        },
    }
}

fn service_at(text: &WordTable, n: u16, c: u32) -> bool
    requires { c ≤ 4294967264 }
    ensures { result ≡ service_at text.now n c }
{
    is_beq(instr_at(text, c), 4, 14)
        && (is_choice(instr_at(text, c + 4), n)
            && (is_code(code_of(instr_at(text, c + 8)), 1) && serving(instr_at(text, c + 12))))
}

/// Whether the words at c are an output of a word.
pub fn output_at(text: &WordTable, c: u32) -> bool
    requires { c ≤ 4294967264 }
    ensures { result ≡ output_at text.now c }
{
    service_at(text, 1, c)
}

/// Whether the words at c are an exit.
pub fn exit_at(text: &WordTable, c: u32) -> bool
    requires { c ≤ 4294967264 }
    ensures { result ≡ exit_at text.now c }
{
    service_at(text, 17, c) && is_code(code_of(instr_at(text, c + 16)), 1)
}

/// Whether the words at c are an input of a word.
pub fn input_at(text: &WordTable, c: u32) -> bool
    requires { c ≤ 4294967264 }
    ensures { result ≡ input_at text.now c }
{
    is_choice(instr_at(text, c), 5)
        && (serving(instr_at(text, c + 4))
            && moves_pair(
                moved_to(instr_at(text, c + 8)),
                moved_to(instr_at(text, c + 12)),
            ))
}

fn form_at(text: &WordTable, c: u32) -> bool
    requires { c ≤ 4294967264 }
    ensures { result ≡ form_at text.now c }
{
    output_at(text, c) || (exit_at(text, c) || input_at(text, c))
}

/// Whether a word is one of a form, but not its first.
pub fn form_behind(text: &WordTable, a: u32) -> bool
    requires low { 16 ≤ a }
    requires high { a ≤ 4294967264 }
    ensures { result ≡ form_behind text.now a }
{
    form_at(text, a - 4)
        || (form_at(text, a - 8) || (form_at(text, a - 12) || exit_at(text, a - 16)))
}

/// Whether a word is one of a form.
pub fn in_form(text: &WordTable, a: u32) -> bool
    requires low { 16 ≤ a }
    requires high { a ≤ 4294967264 }
    ensures { result ≡ in_form text.now a }
{
    form_at(text, a) || form_behind(text, a)
}
