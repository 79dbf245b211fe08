//! The rows of a text.
ghost use Rattle.std.specs.Prelude.{◌≡◌, ◌≤◌, ◌<◌, ◌-◌, ◌||◌, length, IfOk};
ghost use Rattle.mips_text.specs.Text.{IsText, InText, instr_at};
ghost use Rattle.third_lint.specs.Votes.{A, B, C};
ghost use Rattle.third_lint.specs.RuleTests.{product_at, products};
ghost use Rattle.third_lint.specs.Masks.{code_of, RowFor, RowsTo};

use crate::ThirdRow;
use crate::masks::voted_mask;
use crate::rules::{product_at, products_a, products_b, products_c};
use hard_words::OutOfMemory;
use lint_words::{TEXT_START, WordTable, instr_at};
use std::alloc::Global;

// Whether one of the two words before is a product.
fn after_product(text: &WordTable, a: u32) -> bool
    requires { 8 ≤ a }
    ensures { result ≡ (product_at (instr_at text.now (a - 4)) || product_at (instr_at text.now (a - 8))) }
{
    product_at(instr_at(text, a - 4)) || product_at(instr_at(text, a - 8))
}

// The number of a stream, or 0.
fn code_of(by_a: bool, by_b: bool, by_c: bool) -> u8
    ensures { result ≡ code_of by_a by_b by_c }
{
    if by_a {
        1
    } else if by_b {
        2
    } else if by_c {
        3
    } else {
        0
    }
}

// The stream that HI and LO come from at a word after a product.
fn producer_by(text: &WordTable, starts: &[bool], a: u32) -> u8
    requires low { 64 ≤ a }
    requires high { a ≤ 4294967200 }
    ensures { result ≡ code_of (products text.now starts.now A a) (products text.now starts.now B a) (products text.now starts.now C a) }
{
    code_of(
        products_a(text, starts, a),
        products_b(text, starts, a),
        products_c(text, starts, a),
    )
}

// The stream that HI and LO come from at a word.
fn producer(text: &WordTable, starts: &[bool], a: u32) -> u8
    requires low { 64 ≤ a }
    requires high { a ≤ 4294967200 }
    ensures { result ≡ code_of (products text.now starts.now A a) (products text.now starts.now B a) (products text.now starts.now C a) }
{
    if after_product(text, a) {
        producer_by(text, starts, a)
    } else {
        0
    }
}

// The row of a word.
fn row_at(text: &WordTable, starts: &[bool], entered: &[bool], a: u32) -> ThirdRow
    requires text { IsText text.now }
    requires word { InText text.now a }
    requires low { 128 ≤ a }
    requires high { a ≤ 4294967200 }
    ensures { RowFor text.now starts.now entered.now a result }
{
    let voted = voted_mask(text, entered, a);
    let products = producer(text, starts, a);
    ThirdRow {
        a: 2684355568,
        b: 1107360768,
        c: 289341440,
        voted,
        products,
    }
}

/// The rows of all words.
pub(crate) fn make_rows(
    alloc: Global,
    text: &WordTable,
    starts: &[bool],
    entered: &[bool],
) -> Result<Vec<ThirdRow>, OutOfMemory>
    requires { IsText text.now }
    ensures { IfOk result (λ rows. RowsTo text.now starts.now entered.now (length text.now) rows.items) }
{
    let mut rows: Vec<ThirdRow> = Vec::with_capacity(alloc, text.len())?;
    for k in 0..text.len() {
        rows.push(row_at(text, starts, entered, TEXT_START + 4 * (k as u32)))?;
    }
    Ok(rows)
}
