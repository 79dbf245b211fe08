//! The next words of a word, and which words lead where.
ghost use Rattle.std.specs.Prelude.{◌≡◌, ◌≤◌, ◌==◌, IfSome};
ghost use Rattle.mips_isa.specs.Table.{IsInRange};
ghost use Rattle.third_lint.specs.RuleTests.{goal_of, is_branch, first_next, second_next, is_half, apart, back_at, enters, nexts_if, near_next, follows, straight_2, straight, voted_from, voted};
ghost use Rattle.lint_words.specs.Around.{is_at};

use crate::shapes::awaited;
use lint_words::{
    WordTable, branch_goal, code_of, in_slot, in_words, instr_at, is_some, jump_goal, reporting,
    skipped, starts_at,
};
use mips_isa::Instr;

fn goal_of(instr: Option<Instr>, j: u32) -> Option<u32>
    requires { IfSome instr (λ i. IsInRange i) }
    ensures { result ≡ goal_of instr j }
{
    match instr {
        Some(Instr::J { target }) => Some(jump_goal(j, target)),
        Some(Instr::Jal { target }) => Some(jump_goal(j, target)),
        Some(Instr::Beq { rs: _, rt: _, imm }) => Some(branch_goal(j, imm)),
        Some(Instr::Bne { rs: _, rt: _, imm }) => Some(branch_goal(j, imm)),
        _ => None,
    }
}

fn is_branch(instr: Option<Instr>) -> bool
    ensures { result ≡ is_branch instr }
{
    match instr {
        Some(
            Instr::Beq {
                rs: _,
                rt: _,
                imm: _,
            },
        ) => true,
        Some(
            Instr::Bne {
                rs: _,
                rt: _,
                imm: _,
            },
        ) => true,
        _ => false,
    }
}

/// The first next word of a word, if any.
pub(crate) fn first_next(text: &WordTable, a: u32) -> Option<u32>
    requires low { 4 ≤ a }
    requires high { a ≤ 4294967264 }
    ensures { result ≡ first_next text.now a }
{
    if in_slot(text, a) {
        goal_of(instr_at(text, a - 4), a - 4)
    } else if is_some(code_of(instr_at(text, a))) {
        None
    } else {
        Some(a + 4)
    }
}

/// The second next word of a word, if any.
pub(crate) fn second_next(text: &WordTable, a: u32) -> Option<u32>
    requires low { 4 ≤ a }
    requires high { a ≤ 4294967264 }
    ensures { result ≡ second_next text.now a }
{
    if is_branch(instr_at(text, a - 4)) && !reporting(skipped(text, a - 4)) {
        Some(a + 4)
    } else {
        None
    }
}

/// Whether an instruction is a mfhi or mflo.
pub(crate) fn is_half(instr: Option<Instr>) -> bool
    ensures { result ≡ is_half instr }
{
    match instr {
        Some(Instr::Mfhi { rd: _ }) => true,
        Some(Instr::Mflo { rd: _ }) => true,
        _ => false,
    }
}

fn apart(next: Option<u32>, a: u32) -> Option<u32>
    requires { a ≤ 4294967200 }
    ensures { result ≡ apart next a }
{
    match next {
        None => None,
        Some(b) => { if b == a + 4 { None } else { Some(b) } }
    }
}

fn back_at(instr: Option<Instr>, a: u32) -> Option<u32>
    requires { a ≤ 4294967200 }
    ensures { result ≡ back_at instr a }
{
    match instr {
        Some(Instr::Jal { target: _ }) => Some(a + 8),
        _ => None,
    }
}

/// Where a run may go from a word other than to the word behind it, and 8 after a jal.
pub(crate) fn enters(text: &WordTable, a: u32) -> (Option<u32>, Option<u32>)
    requires low { 64 ≤ a }
    requires high { a ≤ 4294967200 }
    ensures { result ≡ enters text.now a }
{
    (apart(first_next(text, a), a), back_at(instr_at(text, a), a))
}

/// The next words of a word, where it is marked.
pub(crate) fn nexts_if(text: &WordTable, marked: bool, a: u32) -> (Option<u32>, Option<u32>)
    requires low { 64 ≤ a }
    requires high { a ≤ 4294967200 }
    ensures { result ≡ nexts_if text.now marked a }
{
    if marked {
        (first_next(text, a), second_next(text, a))
    } else {
        (None, None)
    }
}

fn is_at(p: Option<u32>, c: u32) -> bool
    ensures { result ≡ is_at p c }
{
    match p {
        None => false,
        Some(p) => p == c,
    }
}

fn near_next(text: &WordTable, w: u32) -> bool
    requires low { 64 ≤ w }
    requires high { w ≤ 4294967264 }
    ensures { result ≡ near_next text.now w }
{
    in_words(text.len(), w - 4)
        && (is_at(first_next(text, w - 4), w) || is_at(second_next(text, w - 4), w))
}

fn follows(text: &WordTable, entered: &[bool], w: u32) -> bool
    requires low { 64 ≤ w }
    requires high { w ≤ 4294967264 }
    ensures { result ≡ follows text.now entered.now w }
{
    near_next(text, w) && !starts_at(entered, w)
}

fn same(a: u32, b: u32) -> bool
    ensures { result ≡ (a == b) }
{
    a == b
}

fn straight_2(text: &WordTable, entered: &[bool], v: u32, a: u32) -> bool
    requires low { 64 ≤ v }
    requires high { v ≤ 4294967200 }
    ensures { result ≡ straight_2 text.now entered.now v a }
{
    follows(text, entered, v + 28) && (same(a, v + 28) || follows(text, entered, v + 32))
}

fn straight(text: &WordTable, entered: &[bool], v: u32, a: u32) -> bool
    requires low { 64 ≤ v }
    requires high { v ≤ 4294967200 }
    ensures { result ≡ straight text.now entered.now v a }
{
    follows(text, entered, v + 24) && (same(a, v + 24) || straight_2(text, entered, v, a))
}

/// Whether the vote at v votes a register at a word.
pub(crate) fn voted_from(text: &WordTable, entered: &[bool], v: u32, a: u32, r: u8) -> bool
    requires low { 64 ≤ v }
    requires high { v ≤ 4294967200 }
    ensures { result ≡ voted_from text.now entered.now v a r }
{
    v + 24 <= a && (awaited(text, v, a, r) && straight(text, entered, v, a))
}

/// Whether a register is voted at a word.
pub(crate) fn voted(text: &WordTable, entered: &[bool], a: u32, r: u8) -> bool
    requires low { 128 ≤ a }
    requires high { a ≤ 4294967200 }
    ensures { result ≡ voted text.now entered.now a r }
{
    voted_from(text, entered, a - 24, a, r)
        || (voted_from(text, entered, a - 28, a, r) || voted_from(text, entered, a - 32, a, r))
}
