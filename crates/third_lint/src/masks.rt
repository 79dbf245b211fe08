//! Masks of registers: which are voted at a word, and which have a window there.
ghost use Rattle.std.specs.Prelude.{◌≡◌, ◌≤◌, ◌<◌, ◌%◌, ◌^◌, ◌==◌, ◌&&◌, ◌↔◌, ℕ};
ghost use Rattle.std.specs.Int.{bit_at};
ghost use Rattle.third_lint.specs.Votes.{NearThird};
ghost use Rattle.third_lint.specs.Shapes.{vote_at, settled_by, awaited, awaited_at, helps};
ghost use Rattle.third_lint.specs.RuleTests.{voted_from};
ghost use Rattle.third_lint.specs.Masks.{IsMask, IsVotedMask};

use crate::flow::voted_from;
use crate::shapes::{answered, awaited, both_at, is_vote, second, third, vote_at};
use lint_words::WordTable;

// The mask of one register.
fn bit(r: u8) -> u32
    requires { r < 32 }
    ensures { result ≡ 2 ^ r }
{
    1 << r
}

// The mask of a register, where a test of it holds; else 0.
fn bit_if(r: u8, holds: bool) -> u32
    ensures { IsMask (λ q. (q == r) && holds) result }
{
    if holds && r < 32 { bit(r) } else { 0 }
}

// The registers that the vote at v votes at a word.
fn voted_by(text: &WordTable, entered: &[bool], v: u32, a: u32) -> u32
    requires low { 64 ≤ v }
    requires high { v ≤ 4294967200 }
    ensures { IsMask (λ r. voted_from text.now entered.now v a r) result }
{
    match vote_at(text, v) {
        None => 0,
        Some(x) => {
            let y = second(x);
            let z = third(x);
            let by_x = voted_from(text, entered, v, a, x);
            let by_y = voted_from(text, entered, v, a, y);
            let by_z = voted_from(text, entered, v, a, z);
            let first = bit_if(x, by_x);
            let next = bit_if(y, by_y);
            let last = bit_if(z, by_z);
            first | (next | last)
        }
    }
}

/// The registers that are voted at a word, as a mask: bit r is for register r.
pub(crate) fn voted_mask(text: &WordTable, entered: &[bool], a: u32) -> u32
    requires low { 128 ≤ a }
    requires high { a ≤ 4294967200 }
    ensures { IsVotedMask text.now entered.now a result }
{
    let first = voted_by(text, entered, a - 24, a);
    let next = voted_by(text, entered, a - 28, a);
    let last = voted_by(text, entered, a - 32, a);
    first | (next | last)
}

// The registers of the vote at v that await their use at a word.
fn awaited_by(text: &WordTable, v: u32, a: u32) -> u32
    requires { v ≤ 4294967200 }
    ensures { IsMask (λ r. awaited text.now v a r) result }
{
    match vote_at(text, v) {
        None => 0,
        Some(x) => {
            let y = second(x);
            let z = third(x);
            let by_x = awaited(text, v, a, x);
            let by_y = awaited(text, v, a, y);
            let by_z = awaited(text, v, a, z);
            let first = bit_if(x, by_x);
            let next = bit_if(y, by_y);
            let last = bit_if(z, by_z);
            first | (next | last)
        }
    }
}

// The registers of the votes before a word that await their use there.
fn awaited_mask(text: &WordTable, a: u32) -> u32
    requires low { 128 ≤ a }
    requires high { a ≤ 4294967200 }
    ensures { IsMask (λ r. awaited_at text.now a r) result }
{
    let first = awaited_by(text, a - 20, a);
    let second = awaited_by(text, a - 24, a);
    let third = awaited_by(text, a - 28, a);
    let fourth = awaited_by(text, a - 32, a);
    first | (second | (third | fourth))
}

// The register that the vote at v has settled.
fn settled_by(text: &WordTable, v: u32) -> u32
    requires { v ≤ 4294967200 }
    ensures { IsMask (λ r. settled_by (vote_at text.now v) r) result }
{
    match vote_at(text, v) {
        None => 0,
        Some(x) => bit_if(x, true),
    }
}

// Registers 1 and 3 in the midst of a vote, and register 2 behind a service.
fn helper_mask(text: &WordTable, a: u32) -> u32
    requires low { 128 ≤ a }
    requires high { a ≤ 4294967200 }
    ensures { IsMask (λ r. helps text.now a r) result }
{
    let both = bit_if(1, both_at(text, a));
    let other = bit_if(3, is_vote(text, a - 12));
    let answer = bit_if(2, answered(text, a));
    both | (other | answer)
}

/// The registers that have a window at the word at an address, as a mask: bit r is for register r.
pub(crate) fn window_mask(text: &WordTable, a: u32) -> u32
    requires low { 128 ≤ a }
    requires high { a ≤ 4294967200 }
    requires word { a % 4 ≡ 0 }
    ensures { (r : ℕ) → (bit_at result r ≡ 1) ↔ NearThird text.now a r }
{
    let first = settled_by(text, a - 16);
    let second = settled_by(text, a - 20);
    let waiting = awaited_mask(text, a);
    let helping = helper_mask(text, a);
    ((first | second) | waiting) | helping
}
