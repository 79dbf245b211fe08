//! The words around one word: what stands before it, and which way leads to it.
ghost use Rattle.std.specs.Prelude.{◌≡◌, ◌≤◌, ◌<◌, ◌+◌, IfSome, Some};
ghost use Rattle.lint_words.specs.Around.{starts_at, reads_by, writes_by, uses_by, jumps_by, in_slot, reporting, passing, is_some, straight_before, near_before, far_before, only_by, only_before, unwritten, back, is_at, leads};

use crate::table::WordTable;
use crate::words::{TEXT_START, code_of, in_words, instr_at, skipped};
use mips_isa::{Instr, is_jump, reads_register, writes_register};

/// Whether a table, with a bit for each word of the text, says that a word is a start.
pub fn starts_at(bits: &[bool], a: u32) -> bool
    ensures { result ≡ starts_at bits.now a }
{
    if a % 4 == 0 && (TEXT_START <= a && (((a - TEXT_START) / 4) as usize) < bits.len()) {
        bits[((a - TEXT_START) / 4) as usize]
    } else {
        false
    }
}

/// Whether an instruction reads a register.
pub fn reads_by(instr: Option<Instr>, r: u8) -> bool
    ensures { result ≡ reads_by instr r }
{
    match instr {
        None => false,
        Some(i) => reads_register(&i, r),
    }
}

/// Whether an instruction writes a register.
pub fn writes_by(instr: Option<Instr>, r: u8) -> bool
    ensures { result ≡ writes_by instr r }
{
    match instr {
        None => false,
        Some(i) => writes_register(&i, r),
    }
}

/// Whether an instruction reads or writes a register.
pub fn uses_by(instr: Option<Instr>, r: u8) -> bool
    ensures { result ≡ uses_by instr r }
{
    writes_by(instr, r) || reads_by(instr, r)
}

/// Whether an instruction is a branch or a jump.
pub fn jumps_by(instr: Option<Instr>) -> bool
    ensures { result ≡ jumps_by instr }
{
    match instr {
        None => false,
        Some(i) => is_jump(&i),
    }
}

/// Whether a word stands in a delay slot.
pub fn in_slot(text: &WordTable, a: u32) -> bool
    requires { 4 ≤ a }
    ensures { result ≡ in_slot text.now a }
{
    jumps_by(instr_at(text, a - 4))
}

/// Whether a code is that of a report.
pub fn reporting(code: Option<u32>) -> bool
    ensures { result ≡ reporting code }
{
    match code {
        None => false,
        Some(code) => code == 1 || code == 2,
    }
}

fn passing(code: Option<u32>) -> bool
    ensures { result ≡ passing code }
{
    match code {
        None => false,
        Some(code) => !(code == 1 || code == 2),
    }
}

/// Whether there is a code.
pub fn is_some(code: Option<u32>) -> bool
    ensures { result ≡ is_some code }
{
    match code {
        None => false,
        Some(_) => true,
    }
}

fn straight_before(text: &WordTable, a: u32) -> bool
    requires { 8 ≤ a }
    ensures { result ≡ straight_before text.now a }
{
    in_words(text.len(), a - 4)
        && (!in_slot(text, a - 4) && !is_some(code_of(instr_at(text, a - 4))))
}

/// Whether the word 4 before is before this one, which is no start.
pub fn near_before(text: &WordTable, a: u32) -> bool
    requires low { 8 ≤ a }
    requires high { a < 4294967288 }
    ensures { result ≡ near_before text.now a }
{
    straight_before(text, a) || (in_words(text.len(), a - 4) && passing(skipped(text, a - 8)))
}

/// Whether the word 8 before is before this one, which is no start.
pub fn far_before(text: &WordTable, a: u32) -> bool
    requires low { 12 ≤ a }
    requires high { a < 4294967288 }
    ensures { result ≡ far_before text.now a }
{
    in_words(text.len(), a - 8) && is_some(skipped(text, a - 12))
}

fn only_by(near: bool, far: bool, a: u32) -> Option<u32>
    requires { 8 ≤ a }
    ensures value { result ≡ only_by near far a }
    ensures bound { IfSome result (λ p. (a ≤ p + 8) × (p ≤ a)) }
{
    if near {
        if far { None } else { Some(a - 4) }
    } else if far {
        Some(a - 8)
    } else {
        None
    }
}

// The only word before a word that is no start.
fn only_before(text: &WordTable, a: u32) -> Option<u32>
    requires low { 12 ≤ a }
    requires high { a < 4294967288 }
    ensures value { result ≡ only_before text.now a }
    ensures bound { IfSome result (λ p. (a ≤ p + 8) × (p ≤ a)) }
{
    only_by(near_before(text, a), far_before(text, a), a)
}

// The word before, where it does not write the register.
fn unwritten(text: &WordTable, r: u8, before: Option<u32>) -> Option<u32>
    ensures value { result ≡ unwritten text.now r before }
    ensures bound { IfSome result (λ p. before ≡ Some p) }
{
    match before {
        None => None,
        Some(p) => {
            if writes_by(instr_at(text, p), r) {
                None
            } else {
                Some(p)
            }
        }
    }
}

// One word back on a way on which the register is not written.
fn back(text: &WordTable, bits: &[bool], r: u8, a: u32) -> Option<u32>
    requires low { 12 ≤ a }
    requires high { a < 4294967288 }
    ensures value { result ≡ back text.now bits.now r (Some a) }
    ensures bound { IfSome result (λ p. (a ≤ p + 8) × (p ≤ a)) }
{
    if starts_at(bits, a) {
        None
    } else {
        unwritten(text, r, only_before(text, a))
    }
}

// One more word back.
fn back_from(text: &WordTable, bits: &[bool], r: u8, from: Option<u32>) -> Option<u32>
    requires { IfSome from (λ a. (12 ≤ a) × (a < 4294967288)) }
    ensures value { result ≡ back text.now bits.now r from }
    ensures bound { IfSome result (λ p. IfSome from (λ a. (a ≤ p + 8) × (p ≤ a))) }
{
    match from {
        None => None,
        Some(a) => back(text, bits, r, a),
    }
}

fn is_at(p: Option<u32>, c: u32) -> bool
    ensures { result ≡ is_at p c }
{
    match p {
        None => false,
        Some(p) => p == c,
    }
}

/// Whether a way of at most four words, on which the register is not written, leads from c to a.
pub fn leads(text: &WordTable, bits: &[bool], r: u8, c: u32, a: u32) -> bool
    requires low { 64 ≤ a }
    requires high { a < 4294967288 }
    ensures { result ≡ leads text.now bits.now r c a }
{
    let p = back(text, bits, r, a);
    let q = back_from(text, bits, r, p);
    let s = back_from(text, bits, r, q);
    let t = back_from(text, bits, r, s);
    is_at(p, c) || (is_at(q, c) || (is_at(s, c) || is_at(t, c)))
}
