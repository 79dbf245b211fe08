//! The rows of a text.
ghost use Rattle.std.specs.Prelude.{◌≡◌, ◌≤◌, ◌<◌, ◌-◌, ◌||◌, length, IfOk};
ghost use Rattle.mips_text.specs.Text.{IsText, InText, instr_at};
ghost use Rattle.harden_lint.specs.Masks.{IsMask, IsGuardedMask, stream_of, RowFor, RowsTo};
ghost use Rattle.mips_text.specs.Typing.{master, shadow};
ghost use Rattle.harden_lint.specs.StreamTests.{guarded_from, products};
ghost use Rattle.harden_lint.specs.RuleTests.{product_at};

use crate::pairs::bit_if;
use crate::roles::guarded_from;
use crate::rules::{master_products, product_at, shadow_products};
use crate::{Stream, TypingRow};
use hard_words::OutOfMemory;
use lint_words::{TEXT_START, WordTable, check_at, instr_at};
use std::alloc::Global;

// The registers that the check at c guards at a word.
fn mask_from(text: &WordTable, bits: &[bool], c: u32, a: u32) -> u32
    requires low { 64 ≤ a }
    requires high { a < 4294967288 }
    requires check { c ≤ 4294967264 }
    ensures { IsMask (λ r. guarded_from text.now bits.now r c a) result }
{
    match check_at(text, c) {
        None => 0,
        Some((x, y)) => {
            let left = bit_if(x, guarded_from(text, bits, x, c, a));
            let right = bit_if(y, guarded_from(text, bits, y, c, a));
            left | right
        }
    }
}

// The registers that are guarded at a word.
fn guarded_mask(text: &WordTable, bits: &[bool], a: u32) -> u32
    requires low { 64 ≤ a }
    requires high { a ≤ 4294967264 }
    ensures { IsGuardedMask text.now bits.now a result }
{
    let first = mask_from(text, bits, a - 4, a);
    let second = mask_from(text, bits, a - 8, a);
    let third = mask_from(text, bits, a - 12, a);
    let fourth = mask_from(text, bits, a - 16, a);
    first | (second | (third | fourth))
}

// Whether one of the two words before is a product.
fn after_product(text: &WordTable, a: u32) -> bool
    requires { 8 ≤ a }
    ensures { result ≡ (product_at (instr_at text.now (a - 4)) || product_at (instr_at text.now (a - 8))) }
{
    product_at(instr_at(text, a - 4)) || product_at(instr_at(text, a - 8))
}

// The stream that HI and LO come from at a word after a product.
fn producer_by(text: &WordTable, bits: &[bool], a: u32) -> Stream
    requires low { 64 ≤ a }
    requires high { a ≤ 4294967264 }
    ensures { result ≡ stream_of (products text.now bits.now master a) (products text.now bits.now shadow a) }
{
    if master_products(text, bits, a) {
        Stream::Master
    } else if shadow_products(text, bits, a) {
        Stream::Shadow
    } else {
        Stream::Nobody
    }
}

// The stream that HI and LO come from at a word.
fn producer(text: &WordTable, bits: &[bool], a: u32) -> Stream
    requires low { 64 ≤ a }
    requires high { a ≤ 4294967264 }
    ensures { result ≡ stream_of (products text.now bits.now master a) (products text.now bits.now shadow a) }
{
    if after_product(text, a) {
        producer_by(text, bits, a)
    } else {
        Stream::Nobody
    }
}

// The row of a word.
fn row_at(text: &WordTable, bits: &[bool], a: u32) -> TypingRow
    requires text { IsText text.now }
    requires word { InText text.now a }
    requires high { a ≤ 4294967264 }
    ensures { RowFor text.now bits.now a result }
{
    let guarded = guarded_mask(text, bits, a);
    let products = producer(text, bits, a);
    TypingRow {
        master: 2684370928,
        shadow: 1124057088,
        signs: 285212674,
        guarded,
        products,
    }
}

/// The rows of all words.
pub(crate) fn make_rows(
    alloc: Global,
    text: &WordTable,
    bits: &[bool],
) -> Result<Vec<TypingRow>, OutOfMemory>
    requires { IsText text.now }
    ensures { IfOk result (λ rows. RowsTo text.now bits.now (length text.now) rows.items) }
{
    let mut rows: Vec<TypingRow> = Vec::with_capacity(alloc, text.len())?;
    for k in 0..text.len() {
        rows.push(row_at(text, bits, TEXT_START + 4 * (k as u32)))?;
    }
    Ok(rows)
}
