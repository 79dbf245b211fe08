//! The nine rules at one word.
ghost use Rattle.std.specs.Prelude.{◌≡◌, ◌≤◌, ◌==◌, IfSome};
ghost use Rattle.third_lint.specs.Votes.{A, B, C, role_of};
ghost use Rattle.third_lint.specs.RuleTests.{fits_role, product_pair, product_by, products, is_instr, keeps_pair, one_stream, is_jal, half_of, half_kept, rule_2, allowed, operand_kept, operands_kept, rule_3, loaded, clear_of, load_kept, product_at, rule_4, inside_by, rule_5, is_held, held, rule_7, rule_8, rule_9, first_rule};

use crate::flow::{first_next, second_next, voted};
use crate::marks::Marks;
use crate::shapes::{
    form_behind, in_form, in_input, in_vote, input_at, of_a, of_b, of_c, used_by, vote_behind,
};
use lint_words::{
    WordTable, code_of, far_before, in_slot, in_words, instr_at, jumps_by, near_before, reads_by,
    reporting, starts_at, uses_by,
};
use mips_isa::{Instr, is_product, reads_pair, writes_pair};

// A register of no stream but A.
fn fits_a(r: u8) -> bool
    ensures { result ≡ fits_role (role_of r) A }
{
    of_a(r) || !(of_b(r) || of_c(r))
}

fn pair_a(p: (u8, u8)) -> bool
    ensures { result ≡ product_pair A p }
{
    (of_a(p.0) || of_a(p.1)) && (fits_a(p.0) && fits_a(p.1))
}

fn product_a(instr: Option<Instr>) -> bool
    ensures { result ≡ product_by instr A }
{
    match instr {
        None => false,
        Some(i) => is_product(&i) && pair_a(reads_pair(&i)),
    }
}

/// Whether HI and LO come from stream A.
pub(crate) fn products_a(text: &WordTable, starts: &[bool], a: u32) -> bool
    requires low { 64 ≤ a }
    requires high { a ≤ 4294967200 }
    ensures { result ≡ products text.now starts.now A a }
{
    let near = near_before(text, a);
    let far = far_before(text, a);
    !starts_at(starts, a)
        && ((near || far)
            && ((!near || product_a(instr_at(text, a - 4)))
                && (!far || product_a(instr_at(text, a - 8)))))
}

// A register of no stream but B.
fn fits_b(r: u8) -> bool
    ensures { result ≡ fits_role (role_of r) B }
{
    of_b(r) || !(of_a(r) || of_c(r))
}

fn pair_b(p: (u8, u8)) -> bool
    ensures { result ≡ product_pair B p }
{
    (of_b(p.0) || of_b(p.1)) && (fits_b(p.0) && fits_b(p.1))
}

fn product_b(instr: Option<Instr>) -> bool
    ensures { result ≡ product_by instr B }
{
    match instr {
        None => false,
        Some(i) => is_product(&i) && pair_b(reads_pair(&i)),
    }
}

/// Whether HI and LO come from stream B.
pub(crate) fn products_b(text: &WordTable, starts: &[bool], a: u32) -> bool
    requires low { 64 ≤ a }
    requires high { a ≤ 4294967200 }
    ensures { result ≡ products text.now starts.now B a }
{
    let near = near_before(text, a);
    let far = far_before(text, a);
    !starts_at(starts, a)
        && ((near || far)
            && ((!near || product_b(instr_at(text, a - 4)))
                && (!far || product_b(instr_at(text, a - 8)))))
}

// A register of no stream but C.
fn fits_c(r: u8) -> bool
    ensures { result ≡ fits_role (role_of r) C }
{
    of_c(r) || !(of_a(r) || of_b(r))
}

fn pair_c(p: (u8, u8)) -> bool
    ensures { result ≡ product_pair C p }
{
    (of_c(p.0) || of_c(p.1)) && (fits_c(p.0) && fits_c(p.1))
}

fn product_c(instr: Option<Instr>) -> bool
    ensures { result ≡ product_by instr C }
{
    match instr {
        None => false,
        Some(i) => is_product(&i) && pair_c(reads_pair(&i)),
    }
}

/// Whether HI and LO come from stream C.
pub(crate) fn products_c(text: &WordTable, starts: &[bool], a: u32) -> bool
    requires low { 64 ≤ a }
    requires high { a ≤ 4294967200 }
    ensures { result ≡ products text.now starts.now C a }
{
    let near = near_before(text, a);
    let far = far_before(text, a);
    !starts_at(starts, a)
        && ((near || far)
            && ((!near || product_c(instr_at(text, a - 4)))
                && (!far || product_c(instr_at(text, a - 8)))))
}

fn is_instr(instr: Option<Instr>) -> bool
    ensures { result ≡ is_instr instr }
{
    match instr {
        None => false,
        Some(_) => true,
    }
}

// Whether registers, 0 and 2 aside, are of stream A.
fn keeps_a(p: (u8, u8)) -> bool
    ensures { result ≡ keeps_pair A p }
{
    (p.0 == 0 || (p.0 == 2 || of_a(p.0))) && (p.1 == 0 || (p.1 == 2 || of_a(p.1)))
}

// Whether registers, 0 and 2 aside, are of stream B.
fn keeps_b(p: (u8, u8)) -> bool
    ensures { result ≡ keeps_pair B p }
{
    (p.0 == 0 || (p.0 == 2 || of_b(p.0))) && (p.1 == 0 || (p.1 == 2 || of_b(p.1)))
}

// Whether registers, 0 and 2 aside, are of stream C.
fn keeps_c(p: (u8, u8)) -> bool
    ensures { result ≡ keeps_pair C p }
{
    (p.0 == 0 || (p.0 == 2 || of_c(p.0))) && (p.1 == 0 || (p.1 == 2 || of_c(p.1)))
}

// Whether what an instruction writes and what it reads is of one stream.
fn one_stream(instr: Option<Instr>) -> bool
    ensures { result ≡ one_stream instr }
{
    match instr {
        None => true,
        Some(i) => {
            let writes = writes_pair(&i);
            let reads = reads_pair(&i);
            (keeps_a(writes) && keeps_a(reads))
                || ((keeps_b(writes) && keeps_b(reads)) || (keeps_c(writes) && keeps_c(reads)))
        }
    }
}

fn is_jal(instr: Option<Instr>) -> bool
    ensures { result ≡ is_jal instr }
{
    match instr {
        Some(Instr::Jal { target: _ }) => true,
        _ => false,
    }
}

fn half_of(instr: Option<Instr>) -> Option<u8>
    ensures { result ≡ half_of instr }
{
    match instr {
        Some(Instr::Mfhi { rd }) => Some(rd),
        Some(Instr::Mflo { rd }) => Some(rd),
        _ => None,
    }
}

fn half_kept(text: &WordTable, starts: &[bool], a: u32, half: Option<u8>) -> bool
    requires low { 64 ≤ a }
    requires high { a ≤ 4294967200 }
    ensures { result ≡ half_kept text.now starts.now a half }
{
    match half {
        None => true,
        Some(rd) => {
            rd == 0
                || ((of_a(rd) && products_a(text, starts, a))
                    || ((of_b(rd) && products_b(text, starts, a))
                        || (of_c(rd) && products_c(text, starts, a))))
        }
    }
}

fn rule_2(text: &WordTable, starts: &[bool], a: u32) -> bool
    requires low { 64 ≤ a }
    requires high { a ≤ 4294967200 }
    ensures { result ≡ rule_2 text.now starts.now a }
{
    let instr = instr_at(text, a);
    (one_stream(instr) || (is_jal(instr) || (in_vote(text, a) || in_input(text, a))))
        && half_kept(text, starts, a, half_of(instr))
}

fn is_zero(r: u8) -> bool
    ensures { result ≡ (r == 0) }
{
    r == 0
}

fn allowed(text: &WordTable, entered: &[bool], a: u32, r: u8) -> bool
    requires low { 128 ≤ a }
    requires high { a ≤ 4294967200 }
    ensures { result ≡ allowed text.now entered.now a r }
{
    voted(text, entered, a, r) || input_at(text, a - 4)
}

fn operand_kept(text: &WordTable, entered: &[bool], a: u32, r: u8) -> bool
    requires low { 128 ≤ a }
    requires high { a ≤ 4294967200 }
    ensures { result ≡ operand_kept text.now entered.now a r }
{
    !used_by(instr_at(text, a), r) || (is_zero(r) || allowed(text, entered, a, r))
}

fn operands_kept(text: &WordTable, entered: &[bool], a: u32, instr: Option<Instr>) -> bool
    requires low { 128 ≤ a }
    requires high { a ≤ 4294967200 }
    ensures { result ≡ operands_kept text.now entered.now a instr }
{
    match instr {
        None => true,
        Some(i) => {
            let p = reads_pair(&i);
            operand_kept(text, entered, a, p.0) && operand_kept(text, entered, a, p.1)
        }
    }
}

fn rule_3(text: &WordTable, entered: &[bool], a: u32) -> bool
    requires low { 128 ≤ a }
    requires high { a ≤ 4294967200 }
    ensures { result ≡ rule_3 text.now entered.now a }
{
    operands_kept(text, entered, a, instr_at(text, a))
}

fn loaded(instr: Option<Instr>) -> Option<u8>
    ensures { result ≡ loaded instr }
{
    match instr {
        Some(Instr::Lw { rt, rs: _, imm: _ }) => Some(rt),
        _ => None,
    }
}

fn clear_of(text: &WordTable, rt: u8, next: Option<u32>) -> bool
    ensures { result ≡ clear_of text.now rt next }
{
    match next {
        None => true,
        Some(b) => !reads_by(instr_at(text, b), rt),
    }
}

fn load_kept(text: &WordTable, a: u32, load: Option<u8>) -> bool
    requires low { 4 ≤ a }
    requires high { a ≤ 4294967264 }
    ensures { result ≡ load_kept text.now a load }
{
    match load {
        None => true,
        Some(rt) => {
            rt == 0
                || (clear_of(text, rt, first_next(text, a))
                    && clear_of(text, rt, second_next(text, a)))
        }
    }
}

/// Whether an instruction is a multiplication or a division.
pub(crate) fn product_at(instr: Option<Instr>) -> bool
    ensures { result ≡ product_at instr }
{
    match instr {
        None => false,
        Some(i) => is_product(&i),
    }
}

fn rule_4(text: &WordTable, after: &[bool], twice: &[bool], a: u32) -> bool
    requires low { 64 ≤ a }
    requires high { a ≤ 4294967200 }
    ensures { result ≡ rule_4 text.now after.now twice.now a }
{
    let instr = instr_at(text, a);
    load_kept(text, a, loaded(instr))
        && ((!product_at(instr) || (!starts_at(after, a) && !starts_at(twice, a)))
            && !(jumps_by(instr) && in_slot(text, a)))
}

fn inside_by(text: &WordTable, next: Option<u32>) -> bool
    ensures { result ≡ inside_by text.now next }
{
    match next {
        None => true,
        Some(b) => in_words(text.len(), b),
    }
}

fn rule_5(text: &WordTable, a: u32) -> bool
    requires low { 64 ≤ a }
    requires high { a ≤ 4294967200 }
    ensures { result ≡ rule_5 text.now a }
{
    inside_by(text, first_next(text, a)) && inside_by(text, second_next(text, a))
}

fn is_held(r: u8) -> bool
    ensures { result ≡ is_held r }
{
    of_a(r) || (of_b(r) || of_c(r))
}

fn held(instr: Option<Instr>) -> bool
    ensures { result ≡ held instr }
{
    match instr {
        Some(Instr::Lw { rt, rs: _, imm: _ }) => is_held(rt),
        Some(Instr::Sw { rt, rs: _, imm: _ }) => is_held(rt),
        _ => true,
    }
}

fn rule_7(text: &WordTable, a: u32) -> bool
    requires low { 64 ≤ a }
    requires high { a ≤ 4294967200 }
    ensures { result ≡ rule_7 text.now a }
{
    !uses_by(instr_at(text, a), 2) || in_form(text, a)
}

fn rule_8(text: &WordTable, a: u32) -> bool
    ensures { result ≡ rule_8 text.now a }
{
    !reporting(code_of(instr_at(text, a)))
}

fn rule_9(text: &WordTable, entered: &[bool], a: u32) -> bool
    requires low { 64 ≤ a }
    requires high { a ≤ 4294967200 }
    ensures { result ≡ rule_9 text.now entered.now a }
{
    !starts_at(entered, a) || (!vote_behind(text, a) && !form_behind(text, a))
}

/// The lowest rule that is broken at a word, or 0.
pub(crate) fn first_rule(text: &WordTable, marks: &Marks, a: u32) -> u8
    requires low { 128 ≤ a }
    requires high { a ≤ 4294967200 }
    ensures { result ≡ first_rule text.now marks.now.starts.items marks.now.entered.items marks.now.after.items marks.now.twice.items a }
{
    if !is_instr(instr_at(text, a)) {
        1
    } else if !rule_2(text, marks.starts.as_slice(), a) {
        2
    } else if !rule_3(text, marks.entered.as_slice(), a) {
        3
    } else if !rule_4(text, marks.after.as_slice(), marks.twice.as_slice(), a) {
        4
    } else if !rule_5(text, a) {
        5
    } else if !held(instr_at(text, a)) {
        6
    } else if !rule_7(text, a) {
        7
    } else if !rule_8(text, a) {
        8
    } else if !rule_9(text, marks.entered.as_slice(), a) {
        9
    } else {
        0
    }
}
