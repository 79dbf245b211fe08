//! The lint of a whole text.
ghost use Rattle.std.specs.Prelude.{◌≡◌, ◌<◌, ◌≤◌, ℕ, List, IfOk, IsErrOf, Option};
ghost use Rattle.harden_lint.specs.declared.TypingRow.{TypingRow};
ghost use Rattle.mips_text.specs.Text.{IsText};
ghost use Rattle.mips_text.specs.Blocks.{IsStart};
ghost use Rattle.harden_lint.specs.Rows.{Typed};
ghost use Rattle.harden_lint.specs.Rules.{BadAt};
ghost use Rattle.harden_lint.specs.Outcome.{Scanned, Decided, with_slot, with_start, outside_of, before_of, outcome};
ghost use Rattle.harden_lint.specs.StartTable.{Table};

use crate::error::LintError;
use crate::rules::first_rule;
use crate::starts::{Starts, find_starts};
use crate::table::make_rows;
use crate::{Typing, TypingRows};
use lint_words::{TEXT_START, WordTable, in_slot};
use std::alloc::Global;

// The first word that breaks a rule, and the lowest rule that it breaks.
fn scan(text: &WordTable, bits: &[bool]) -> Option<(u32, u8)>
    requires { IsText text.now }
    ensures { (entry : ℕ) (out : Option ℕ) → Table text.now (IsStart text.now entry) bits.now out → Scanned text.now entry result }
{
    for k in 0..text.len() {
        let a = TEXT_START + 4 * (k as u32);
        let rule = first_rule(text, bits, a);
        if rule != 0 {
            return Some((a, rule));
        }
    }
    None
}

fn with_slot(slot: bool, end: u32) -> Option<(u32, u8)>
    ensures { result ≡ with_slot slot end }
{
    if slot { Some((end, 10)) } else { None }
}

fn with_start(slot: bool, end: u32, w: u32) -> Option<(u32, u8)>
    ensures { result ≡ with_start slot end w }
{
    if slot && end < w {
        Some((end, 10))
    } else {
        Some((w, 2))
    }
}

fn outside_of(outside: Option<u32>, slot: bool, end: u32) -> Option<(u32, u8)>
    ensures { result ≡ outside_of outside slot end }
{
    match outside {
        None => with_slot(slot, end),
        Some(w) => with_start(slot, end, w),
    }
}

fn before_of(outside: Option<u32>, found: (u32, u8)) -> Option<(u32, u8)>
    ensures { result ≡ before_of outside found }
{
    match outside {
        None => Some(found),
        Some(w) => {
            if w < found.0 {
                Some((w, 2))
            } else {
                Some(found)
            }
        }
    }
}

fn outcome(
    found: Option<(u32, u8)>,
    outside: Option<u32>,
    slot: bool,
    end: u32,
) -> Option<(u32, u8)>
    ensures { result ≡ outcome found outside slot end }
{
    match found {
        None => outside_of(outside, slot, end),
        Some(p) => before_of(outside, p),
    }
}

// What the lint answers of a text with this table of starts.
fn judge(text: &WordTable, starts: &Starts) -> Option<(u32, u8)>
    requires { IsText text.now }
    ensures { (entry : ℕ) → Table text.now (IsStart text.now entry) starts.now.bits.items starts.now.outside → Decided text.now entry result }
{
    let found = scan(text, starts.bits.as_slice());
    let end = TEXT_START + 4 * (text.len() as u32);
    outcome(found, starts.outside, in_slot(text, end), end)
}

/// The rows of a text of at most 66,060,288 words, from address 0x00400000 on, which begins at `entry`, where it breaks no rule;
/// else the lowest address at which a rule is broken, and the lowest rule there. That address may lie outside the text.
pub fn lint(alloc: Global, text: &[u32], entry: u32) -> Result<Typing, LintError>
    requires { IsText text.now }
    ensures typed { IfOk result (λ t. Typed text.now entry t.rows) }
    ensures accepted { (rows : List TypingRow) → Typed text.now entry rows → (address rule : ℕ) → IsErrOf result (LintError.BadAt address rule) → ⊥ }
    ensures lowest { (address rule : ℕ) → IsErrOf result (LintError.BadAt address rule) → BadAt text.now entry address rule }
    ensures refused { (address rule : ℕ) → BadAt text.now entry address rule → IfOk result (λ t. ⊥) }
{
    let table = WordTable::new(alloc, text)?;
    let starts = find_starts(alloc, &table, entry)?;
    match judge(&table, &starts) {
        Some((address, rule)) => Err(LintError::BadAt { address, rule }),
        None => {
            let rows = make_rows(alloc, &table, starts.bits.as_slice())?;
            Ok(Typing {
                rows: TypingRows::from_vec(rows),
            })
        }
    }
}
