//! The ten rules at one word.
ghost use Rattle.std.specs.Prelude.{◌≡◌, ◌≤◌, IfSome};
ghost use Rattle.mips_isa.specs.Table.{IsInRange};
ghost use Rattle.mips_faults.specs.Faults.{in_even, in_odd};
ghost use Rattle.mips_text.specs.Typing.{master, shadow, signs, role_of};
ghost use Rattle.harden_lint.specs.StreamTests.{fits_role, product_pair, product_by, products};
ghost use Rattle.harden_lint.specs.RuleTests.{goal_of, is_branch, first_next, second_next, is_instr, keeps_pair, one_stream, half_of, half_kept, rule_2, rule_3, operand_kept, operands_kept, rule_4, loaded, clear_of, load_kept, is_half, moves_before, moves_twice, product_at, rule_5, inside_by, rule_6, held, signs_pair, uses_signs, rule_8, rule_9, choosing, rule_10, first_rule};

use crate::roles::{guarded, of_master, of_shadow, of_signs, streams_by};
use lint_words::{
    WordTable, branch_goal, check_at, code_of, critical, exit_at, far_before, form_behind, head_at,
    in_form, in_head, in_slot, in_words, input_at, instr_at, is_nop, is_some, jump_goal, jumps_by,
    near_before, output_at, reads_by, reporting, skipped, starts_at, uses_by,
};
use mips_isa::{Instr, is_product, reads_pair, writes_pair};

// A register of no stream but this one.
fn fits_master(r: u8) -> bool
    ensures { result ≡ fits_role (role_of r) master }
{
    of_master(r) || !(of_shadow(r) || of_signs(r))
}

fn fits_shadow(r: u8) -> bool
    ensures { result ≡ fits_role (role_of r) shadow }
{
    of_shadow(r) || !(of_master(r) || of_signs(r))
}

fn master_pair(p: (u8, u8)) -> bool
    ensures { result ≡ product_pair master p }
{
    (of_master(p.0) || of_master(p.1)) && (fits_master(p.0) && fits_master(p.1))
}

fn shadow_pair(p: (u8, u8)) -> bool
    ensures { result ≡ product_pair shadow p }
{
    (of_shadow(p.0) || of_shadow(p.1)) && (fits_shadow(p.0) && fits_shadow(p.1))
}

fn master_product(instr: Option<Instr>) -> bool
    ensures { result ≡ product_by instr master }
{
    match instr {
        None => false,
        Some(i) => is_product(&i) && master_pair(reads_pair(&i)),
    }
}

fn shadow_product(instr: Option<Instr>) -> bool
    ensures { result ≡ product_by instr shadow }
{
    match instr {
        None => false,
        Some(i) => is_product(&i) && shadow_pair(reads_pair(&i)),
    }
}

/// Whether HI and LO come from the master stream.
pub(crate) fn master_products(text: &WordTable, bits: &[bool], a: u32) -> bool
    requires low { 64 ≤ a }
    requires high { a ≤ 4294967264 }
    ensures { result ≡ products text.now bits.now master a }
{
    let near = near_before(text, a);
    let far = far_before(text, a);
    !starts_at(bits, a)
        && ((near || far)
            && ((!near || master_product(instr_at(text, a - 4)))
                && (!far || master_product(instr_at(text, a - 8)))))
}

/// Whether HI and LO come from the shadow stream.
pub(crate) fn shadow_products(text: &WordTable, bits: &[bool], a: u32) -> bool
    requires low { 64 ≤ a }
    requires high { a ≤ 4294967264 }
    ensures { result ≡ products text.now bits.now shadow a }
{
    let near = near_before(text, a);
    let far = far_before(text, a);
    !starts_at(bits, a)
        && ((near || far)
            && ((!near || shadow_product(instr_at(text, a - 4)))
                && (!far || shadow_product(instr_at(text, a - 8)))))
}

fn goal_of(instr: Option<Instr>, j: u32) -> Option<u32>
    requires { IfSome instr (λ i. IsInRange i) }
    ensures { result ≡ goal_of instr j }
{
    match instr {
        Some(Instr::J { target }) => Some(jump_goal(j, target)),
        Some(Instr::Jal { target }) => Some(jump_goal(j, target)),
        Some(Instr::Beq { rs: _, rt: _, imm }) => Some(branch_goal(j, imm)),
        Some(Instr::Bne { rs: _, rt: _, imm }) => Some(branch_goal(j, imm)),
        _ => None,
    }
}

fn is_branch(instr: Option<Instr>) -> bool
    ensures { result ≡ is_branch instr }
{
    match instr {
        Some(
            Instr::Beq {
                rs: _,
                rt: _,
                imm: _,
            },
        ) => true,
        Some(
            Instr::Bne {
                rs: _,
                rt: _,
                imm: _,
            },
        ) => true,
        _ => false,
    }
}

fn first_next(text: &WordTable, a: u32) -> Option<u32>
    requires low { 4 ≤ a }
    requires high { a ≤ 4294967264 }
    ensures { result ≡ first_next text.now a }
{
    if in_slot(text, a) {
        goal_of(instr_at(text, a - 4), a - 4)
    } else if is_some(code_of(instr_at(text, a))) {
        None
    } else {
        Some(a + 4)
    }
}

fn second_next(text: &WordTable, a: u32) -> Option<u32>
    requires low { 4 ≤ a }
    requires high { a ≤ 4294967264 }
    ensures { result ≡ second_next text.now a }
{
    if is_branch(instr_at(text, a - 4)) && !reporting(skipped(text, a - 4)) {
        Some(a + 4)
    } else {
        None
    }
}

fn is_instr(instr: Option<Instr>) -> bool
    ensures { result ≡ is_instr instr }
{
    match instr {
        None => false,
        Some(_) => true,
    }
}

// Whether registers, 0 and 2 aside, are of a stream.
fn keeps_master(p: (u8, u8)) -> bool
    ensures { result ≡ keeps_pair master p }
{
    (p.0 == 0 || (p.0 == 2 || of_master(p.0))) && (p.1 == 0 || (p.1 == 2 || of_master(p.1)))
}

fn keeps_shadow(p: (u8, u8)) -> bool
    ensures { result ≡ keeps_pair shadow p }
{
    (p.0 == 0 || (p.0 == 2 || of_shadow(p.0))) && (p.1 == 0 || (p.1 == 2 || of_shadow(p.1)))
}

fn keeps_signs(p: (u8, u8)) -> bool
    ensures { result ≡ keeps_pair signs p }
{
    (p.0 == 0 || (p.0 == 2 || of_signs(p.0))) && (p.1 == 0 || (p.1 == 2 || of_signs(p.1)))
}

// Whether what an instruction writes and what it reads is of one stream.
fn one_stream(instr: Option<Instr>) -> bool
    ensures { result ≡ one_stream instr }
{
    match instr {
        None => true,
        Some(i) => {
            let writes = writes_pair(&i);
            let reads = reads_pair(&i);
            (keeps_master(writes) && keeps_master(reads))
                || ((keeps_shadow(writes) && keeps_shadow(reads))
                    || (keeps_signs(writes) && keeps_signs(reads)))
        }
    }
}

fn half_of(instr: Option<Instr>) -> Option<u8>
    ensures { result ≡ half_of instr }
{
    match instr {
        Some(Instr::Mfhi { rd }) => Some(rd),
        Some(Instr::Mflo { rd }) => Some(rd),
        _ => None,
    }
}

fn half_kept(text: &WordTable, bits: &[bool], a: u32, half: Option<u8>) -> bool
    requires low { 64 ≤ a }
    requires high { a ≤ 4294967264 }
    ensures { result ≡ half_kept text.now bits.now a half }
{
    match half {
        None => true,
        Some(rd) => {
            rd == 0
                || ((of_master(rd) && master_products(text, bits, a))
                    || (of_shadow(rd) && shadow_products(text, bits, a)))
        }
    }
}

fn rule_2(text: &WordTable, bits: &[bool], a: u32) -> bool
    requires { a ≤ 4294967264 }
    ensures { result ≡ rule_2 text.now bits.now a }
{
    !starts_at(bits, a) || head_at(text, a)
}

fn rule_3(text: &WordTable, bits: &[bool], a: u32) -> bool
    requires low { 64 ≤ a }
    requires high { a ≤ 4294967264 }
    ensures { result ≡ rule_3 text.now bits.now a }
{
    let instr = instr_at(text, a);
    (streams_by(check_at(text, a)) || (in_head(text, bits, a) || one_stream(instr)))
        && half_kept(text, bits, a, half_of(instr))
}

fn operand_kept(text: &WordTable, bits: &[bool], a: u32, r: u8) -> bool
    requires low { 64 ≤ a }
    requires high { a ≤ 4294967264 }
    ensures { result ≡ operand_kept text.now bits.now a r }
{
    !critical(text, a, r) || (r == 0 || (guarded(text, bits, a, r) || input_at(text, a - 4)))
}

fn operands_kept(text: &WordTable, bits: &[bool], a: u32, instr: Option<Instr>) -> bool
    requires low { 64 ≤ a }
    requires high { a ≤ 4294967264 }
    ensures { result ≡ operands_kept text.now bits.now a instr }
{
    match instr {
        None => true,
        Some(i) => {
            let p = reads_pair(&i);
            operand_kept(text, bits, a, p.0) && operand_kept(text, bits, a, p.1)
        }
    }
}

fn rule_4(text: &WordTable, bits: &[bool], a: u32) -> bool
    requires low { 64 ≤ a }
    requires high { a ≤ 4294967264 }
    ensures { result ≡ rule_4 text.now bits.now a }
{
    operands_kept(text, bits, a, instr_at(text, a))
}

fn loaded(instr: Option<Instr>) -> Option<u8>
    ensures { result ≡ loaded instr }
{
    match instr {
        Some(Instr::Lw { rt, rs: _, imm: _ }) => Some(rt),
        _ => None,
    }
}

fn clear_of(text: &WordTable, rt: u8, next: Option<u32>) -> bool
    ensures { result ≡ clear_of text.now rt next }
{
    match next {
        None => true,
        Some(b) => !reads_by(instr_at(text, b), rt),
    }
}

fn load_kept(text: &WordTable, a: u32, load: Option<u8>) -> bool
    requires low { 4 ≤ a }
    requires high { a ≤ 4294967264 }
    ensures { result ≡ load_kept text.now a load }
{
    match load {
        None => true,
        Some(rt) => {
            rt == 0
                || (clear_of(text, rt, first_next(text, a))
                    && clear_of(text, rt, second_next(text, a)))
        }
    }
}

fn is_half(instr: Option<Instr>) -> bool
    ensures { result ≡ is_half instr }
{
    match instr {
        Some(Instr::Mfhi { rd: _ }) => true,
        Some(Instr::Mflo { rd: _ }) => true,
        _ => false,
    }
}

fn moves_before(text: &WordTable, bits: &[bool], a: u32) -> bool
    requires low { 12 ≤ a }
    requires high { a ≤ 4294967264 }
    ensures { result ≡ moves_before text.now bits.now a }
{
    !starts_at(bits, a)
        && ((near_before(text, a) && is_half(instr_at(text, a - 4)))
            || (far_before(text, a) && is_half(instr_at(text, a - 8))))
}

fn moves_twice(text: &WordTable, bits: &[bool], a: u32) -> bool
    requires low { 24 ≤ a }
    requires high { a ≤ 4294967264 }
    ensures { result ≡ moves_twice text.now bits.now a }
{
    !starts_at(bits, a)
        && ((near_before(text, a) && moves_before(text, bits, a - 4))
            || (far_before(text, a) && moves_before(text, bits, a - 8)))
}

/// Whether an instruction is a multiplication or a division.
pub(crate) fn product_at(instr: Option<Instr>) -> bool
    ensures { result ≡ product_at instr }
{
    match instr {
        None => false,
        Some(i) => is_product(&i),
    }
}

fn rule_5(text: &WordTable, bits: &[bool], a: u32) -> bool
    requires low { 64 ≤ a }
    requires high { a ≤ 4294967264 }
    ensures { result ≡ rule_5 text.now bits.now a }
{
    let instr = instr_at(text, a);
    load_kept(text, a, loaded(instr))
        && ((!product_at(instr) || (!moves_before(text, bits, a) && !moves_twice(text, bits, a)))
            && !(jumps_by(instr) && in_slot(text, a)))
}

fn inside_by(text: &WordTable, next: Option<u32>) -> bool
    ensures { result ≡ inside_by text.now next }
{
    match next {
        None => true,
        Some(b) => in_words(text.len(), b),
    }
}

fn rule_6(text: &WordTable, a: u32) -> bool
    requires low { 64 ≤ a }
    requires high { a ≤ 4294967264 }
    ensures { result ≡ rule_6 text.now a }
{
    inside_by(text, first_next(text, a)) && inside_by(text, second_next(text, a))
}

fn in_even(r: u8) -> bool
    ensures { result ≡ in_even r }
{
    (4 <= r && r <= 13) || r == 31
}

fn in_odd(r: u8) -> bool
    ensures { result ≡ in_odd r }
{
    (14 <= r && r <= 23) || r == 25
}

fn held(instr: Option<Instr>) -> bool
    ensures { result ≡ held instr }
{
    match instr {
        Some(Instr::Lw { rt, rs: _, imm: _ }) => in_even(rt) || in_odd(rt),
        Some(Instr::Sw { rt, rs: _, imm: _ }) => in_even(rt) || in_odd(rt),
        _ => true,
    }
}

fn signs_pair(p: (u8, u8)) -> bool
    ensures { result ≡ signs_pair p }
{
    of_signs(p.0) || of_signs(p.1)
}

fn uses_signs(instr: Option<Instr>) -> bool
    ensures { result ≡ uses_signs instr }
{
    match instr {
        None => false,
        Some(i) => signs_pair(writes_pair(&i)) || signs_pair(reads_pair(&i)),
    }
}

fn rule_8(text: &WordTable, bits: &[bool], a: u32) -> bool
    requires low { 64 ≤ a }
    requires high { a ≤ 4294967264 }
    ensures { result ≡ rule_8 text.now bits.now a }
{
    !uses_signs(instr_at(text, a)) || in_head(text, bits, a)
}

fn rule_9(text: &WordTable, bits: &[bool], a: u32) -> bool
    requires low { 64 ≤ a }
    requires high { a ≤ 4294967264 }
    ensures { result ≡ rule_9 text.now bits.now a }
{
    (!uses_by(instr_at(text, a), 2) || in_form(text, a))
        && (!starts_at(bits, a) || !form_behind(text, a))
}

fn choosing(text: &WordTable, a: u32) -> bool
    requires low { 64 ≤ a }
    requires high { a ≤ 4294967264 }
    ensures { result ≡ choosing text.now a }
{
    output_at(text, a - 4) || exit_at(text, a - 4)
}

fn rule_10(text: &WordTable, bits: &[bool], a: u32) -> bool
    requires low { 64 ≤ a }
    requires high { a ≤ 4294967264 }
    ensures { result ≡ rule_10 text.now bits.now a }
{
    !in_slot(text, a) || (!starts_at(bits, a) && (is_nop(instr_at(text, a)) || choosing(text, a)))
}

/// The lowest rule that is broken at a word, or 0.
pub(crate) fn first_rule(text: &WordTable, bits: &[bool], a: u32) -> u8
    requires low { 64 ≤ a }
    requires high { a ≤ 4294967264 }
    ensures { result ≡ first_rule text.now bits.now a }
{
    if !is_instr(instr_at(text, a)) {
        1
    } else if !rule_2(text, bits, a) {
        2
    } else if !rule_3(text, bits, a) {
        3
    } else if !rule_4(text, bits, a) {
        4
    } else if !rule_5(text, bits, a) {
        5
    } else if !rule_6(text, a) {
        6
    } else if !held(instr_at(text, a)) {
        7
    } else if !rule_8(text, bits, a) {
        8
    } else if !rule_9(text, bits, a) {
        9
    } else if !rule_10(text, bits, a) {
        10
    } else {
        0
    }
}
