//! The streams of registers, the votes and the forms of services around one word.
ghost use Rattle.std.specs.Prelude.{◌≡◌, ◌≤◌};
ghost use Rattle.lint_words.specs.Around.{is_some};
ghost use Rattle.third_lint.specs.Votes.{A, B, C};
ghost use Rattle.third_lint.specs.Shapes.{of, second, third, is_and, is_or, is_copy, first_by, vote_first, vote_rest, vote_by, vote_at, vote_behind, in_vote, used_by, use_from, awaits_2, awaits, one_of, behind_vote, awaited_by, awaited, chooses, serves_at, called_at, moves_to, input_at, input_behind, in_input, form_behind, in_form, both_at, answered};

use lint_words::{WordTable, instr_at, reads_by, serving, writes_by};
use mips_isa::Instr;

/// Whether a register is of stream A.
pub(crate) fn of_a(r: u8) -> bool
    ensures { result ≡ of A r }
{
    (4 <= r && r <= 9) || (r == 29 || r == 31)
}

/// Whether a register is of stream B.
pub(crate) fn of_b(r: u8) -> bool
    ensures { result ≡ of B r }
{
    (10 <= r && r <= 15) || (r == 30 || r == 25)
}

/// Whether a register is of stream C.
pub(crate) fn of_c(r: u8) -> bool
    ensures { result ≡ of C r }
{
    (16 <= r && r <= 21) || (r == 28 || r == 24)
}

/// The register of stream B in the role of a register of A.
pub(crate) fn second(x: u8) -> u8
    ensures { result ≡ second x }
{
    if x == 29 {
        30
    } else if x == 31 {
        25
    } else if x <= 9 {
        x + 6
    } else {
        0
    }
}

/// The register of stream C in the role of a register of A.
pub(crate) fn third(x: u8) -> u8
    ensures { result ≡ third x }
{
    if x == 29 {
        28
    } else if x == 31 {
        24
    } else if x <= 9 {
        x + 12
    } else {
        0
    }
}

fn is_and(instr: Option<Instr>, d: u8, p: u8, q: u8) -> bool
    ensures { result ≡ is_and instr d p q }
{
    match instr {
        Some(Instr::And { rd, rs, rt }) => rd == d && (rs == p && rt == q),
        _ => false,
    }
}

fn is_or(instr: Option<Instr>, d: u8, p: u8, q: u8) -> bool
    ensures { result ≡ is_or instr d p q }
{
    match instr {
        Some(Instr::Or { rd, rs, rt }) => rd == d && (rs == p && rt == q),
        _ => false,
    }
}

fn is_copy(instr: Option<Instr>, d: u8, p: u8) -> bool
    ensures { result ≡ is_copy instr d p }
{
    match instr {
        Some(Instr::Addu { rd, rs, rt }) => rd == d && (rs == p && rt == 0),
        _ => false,
    }
}

fn first_by(d: u8, x: u8, y: u8) -> Option<u8>
    ensures { result ≡ first_by d x y }
{
    if d == 1 && (of_a(x) && y == second(x)) {
        Some(x)
    } else {
        None
    }
}

fn vote_first(instr: Option<Instr>) -> Option<u8>
    ensures { result ≡ vote_first instr }
{
    match instr {
        Some(Instr::And { rd, rs, rt }) => first_by(rd, rs, rt),
        _ => None,
    }
}

fn vote_rest(text: &WordTable, v: u32, x: u8) -> bool
    requires { v ≤ 4294967200 }
    ensures { result ≡ vote_rest text.now v x }
{
    is_or(instr_at(text, v + 4), 3, x, second(x))
        && (is_and(instr_at(text, v + 8), 3, 3, third(x))
            && (is_or(instr_at(text, v + 12), x, 1, 3)
                && (is_copy(instr_at(text, v + 16), second(x), x)
                    && is_copy(instr_at(text, v + 20), third(x), x))))
}

fn vote_by(text: &WordTable, v: u32, first: Option<u8>) -> Option<u8>
    requires { v ≤ 4294967200 }
    ensures { result ≡ vote_by text.now v first }
{
    match first {
        None => None,
        Some(x) => { if vote_rest(text, v, x) { Some(x) } else { None } }
    }
}

/// The register of stream A on which the six words at an address vote, if they are a vote.
pub(crate) fn vote_at(text: &WordTable, v: u32) -> Option<u8>
    requires { v ≤ 4294967200 }
    ensures { result ≡ vote_at text.now v }
{
    vote_by(text, v, vote_first(instr_at(text, v)))
}

/// Whether the words at an address are a vote.
pub(crate) fn is_vote(text: &WordTable, v: u32) -> bool
    requires { v ≤ 4294967200 }
    ensures { result ≡ is_some (vote_at text.now v) }
{
    match vote_at(text, v) {
        None => false,
        Some(_) => true,
    }
}

/// Whether a word is one of a vote, but not its first.
pub(crate) fn vote_behind(text: &WordTable, a: u32) -> bool
    requires low { 64 ≤ a }
    requires high { a ≤ 4294967200 }
    ensures { result ≡ vote_behind text.now a }
{
    is_vote(text, a - 4)
        || (is_vote(text, a - 8)
            || (is_vote(text, a - 12) || (is_vote(text, a - 16) || is_vote(text, a - 20))))
}

/// Whether a word is one of a vote.
pub(crate) fn in_vote(text: &WordTable, a: u32) -> bool
    requires low { 64 ≤ a }
    requires high { a ≤ 4294967200 }
    ensures { result ≡ in_vote text.now a }
{
    is_vote(text, a) || vote_behind(text, a)
}

/// Whether an instruction uses a register so that no wrong word may stand there.
pub(crate) fn used_by(instr: Option<Instr>, r: u8) -> bool
    ensures { result ≡ used_by instr r }
{
    match instr {
        Some(Instr::Sw { rt: _, rs, imm: _ }) => r == rs,
        Some(Instr::Beq { rs, rt, imm: _ }) => r == rs || r == rt,
        Some(Instr::Bne { rs, rt, imm: _ }) => r == rs || r == rt,
        Some(Instr::Jr { rs }) => r == rs,
        Some(Instr::Syscall) => r == 4,
        _ => false,
    }
}

fn use_from(text: &WordTable, a: u32, r: u8, u: u32) -> bool
    ensures { result ≡ use_from text.now a r u }
{
    a <= u && used_by(instr_at(text, u), r)
}

fn awaits_2(text: &WordTable, v: u32, a: u32, r: u8) -> bool
    requires { v ≤ 4294967200 }
    ensures { result ≡ awaits_2 text.now v a r }
{
    use_from(text, a, r, v + 28)
        || (!writes_by(instr_at(text, v + 28), r) && use_from(text, a, r, v + 32))
}

fn awaits(text: &WordTable, v: u32, a: u32, r: u8) -> bool
    requires { v ≤ 4294967200 }
    ensures { result ≡ awaits text.now v a r }
{
    use_from(text, a, r, v + 24)
        || (!writes_by(instr_at(text, v + 24), r) && awaits_2(text, v, a, r))
}

fn one_of(x: u8, r: u8) -> bool
    ensures { result ≡ one_of x r }
{
    r == x || (r == second(x) || r == third(x))
}

fn behind_vote(v: u32, a: u32, x: u8, r: u8) -> bool
    requires { v ≤ 4294967200 }
    ensures { result ≡ behind_vote v a x r }
{
    v + 24 <= a || (a == v + 20 && r == second(x))
}

fn awaited_by(text: &WordTable, v: u32, a: u32, r: u8, vote: Option<u8>) -> bool
    requires { v ≤ 4294967200 }
    ensures { result ≡ awaited_by text.now v a r vote }
{
    match vote {
        None => false,
        Some(x) => one_of(x, r) && (behind_vote(v, a, x, r) && awaits(text, v, a, r)),
    }
}

/// Whether a register of the vote at v awaits its use at a.
pub(crate) fn awaited(text: &WordTable, v: u32, a: u32, r: u8) -> bool
    requires { v ≤ 4294967200 }
    ensures { result ≡ awaited text.now v a r }
{
    awaited_by(text, v, a, r, vote_at(text, v))
}

fn chooses(instr: Option<Instr>, n: u16) -> bool
    ensures { result ≡ chooses instr n }
{
    match instr {
        Some(Instr::Ori { rt, rs, imm }) => rt == 2 && (rs == 0 && imm == n),
        _ => false,
    }
}

fn serves_at(text: &WordTable, n: u16, c: u32) -> bool
    requires { c ≤ 4294967200 }
    ensures { result ≡ serves_at text.now n c }
{
    chooses(instr_at(text, c), n) && serving(instr_at(text, c + 4))
}

fn called_at(text: &WordTable, c: u32) -> bool
    requires { c ≤ 4294967200 }
    ensures { result ≡ called_at text.now c }
{
    serves_at(text, 1, c) || serves_at(text, 17, c)
}

fn moves_to_a(instr: Option<Instr>) -> bool
    ensures { result ≡ moves_to instr A }
{
    match instr {
        Some(Instr::Addu { rd, rs, rt }) => of_a(rd) && (rs == 2 && rt == 0),
        _ => false,
    }
}

fn moves_to_b(instr: Option<Instr>) -> bool
    ensures { result ≡ moves_to instr B }
{
    match instr {
        Some(Instr::Addu { rd, rs, rt }) => of_b(rd) && (rs == 2 && rt == 0),
        _ => false,
    }
}

fn moves_to_c(instr: Option<Instr>) -> bool
    ensures { result ≡ moves_to instr C }
{
    match instr {
        Some(Instr::Addu { rd, rs, rt }) => of_c(rd) && (rs == 2 && rt == 0),
        _ => false,
    }
}

/// Whether the words at an address are an input of a word to the three streams.
pub(crate) fn input_at(text: &WordTable, c: u32) -> bool
    requires { c ≤ 4294967200 }
    ensures { result ≡ input_at text.now c }
{
    serves_at(text, 5, c)
        && (moves_to_a(instr_at(text, c + 8))
            && (moves_to_b(instr_at(text, c + 12)) && moves_to_c(instr_at(text, c + 16))))
}

fn input_behind(text: &WordTable, a: u32) -> bool
    requires low { 64 ≤ a }
    requires high { a ≤ 4294967200 }
    ensures { result ≡ input_behind text.now a }
{
    input_at(text, a - 4)
        || (input_at(text, a - 8) || (input_at(text, a - 12) || input_at(text, a - 16)))
}

/// Whether a word is one of an input.
pub(crate) fn in_input(text: &WordTable, a: u32) -> bool
    requires low { 64 ≤ a }
    requires high { a ≤ 4294967200 }
    ensures { result ≡ in_input text.now a }
{
    input_at(text, a) || input_behind(text, a)
}

/// Whether a word is one of an output, an exit or an input, but not its first.
pub(crate) fn form_behind(text: &WordTable, a: u32) -> bool
    requires low { 64 ≤ a }
    requires high { a ≤ 4294967200 }
    ensures { result ≡ form_behind text.now a }
{
    called_at(text, a - 4) || input_behind(text, a)
}

/// Whether a word is one of an output, an exit or an input.
pub(crate) fn in_form(text: &WordTable, a: u32) -> bool
    requires low { 64 ≤ a }
    requires high { a ≤ 4294967200 }
    ensures { result ≡ in_form text.now a }
{
    called_at(text, a) || (input_at(text, a) || form_behind(text, a))
}

/// Whether a vote stands 4, 8 or 12 before a word.
pub(crate) fn both_at(text: &WordTable, a: u32) -> bool
    requires low { 64 ≤ a }
    requires high { a ≤ 4294967200 }
    ensures { result ≡ both_at text.now a }
{
    is_vote(text, a - 4) || (is_vote(text, a - 8) || is_vote(text, a - 12))
}

/// Whether register 2 has a window at a word by a service.
pub(crate) fn answered(text: &WordTable, a: u32) -> bool
    requires low { 64 ≤ a }
    requires high { a ≤ 4294967200 }
    ensures { result ≡ answered text.now a }
{
    serving(instr_at(text, a))
        || ((serving(instr_at(text, a - 4)) || serving(instr_at(text, a - 8)))
            && reads_by(instr_at(text, a), 2))
}
