//! The lint of a whole text of three streams.
ghost use Rattle.std.specs.Prelude.{◌≡◌, ◌<◌, ◌≤◌, ℕ, List, IfOk, IsErrOf};
ghost use Rattle.third_lint.specs.declared.ThirdRow.{ThirdRow};
ghost use Rattle.mips_text.specs.Text.{IsText};
ghost use Rattle.third_lint.specs.Rows.{Typed};
ghost use Rattle.third_lint.specs.Rules.{BadAt};
ghost use Rattle.third_lint.specs.Tables.{AreMarks};
ghost use Rattle.third_lint.specs.Outcome.{Scanned};

use crate::error::ThirdError;
use crate::marks::{Marks, find_marks};
use crate::rules::first_rule;
use crate::table::make_rows;
use crate::{ThirdRows, TypingThird};
use lint_words::{TEXT_START, WordTable};
use std::alloc::Global;

// The first word that breaks a rule, and the lowest rule that it breaks.
fn scan(text: &WordTable, marks: &Marks) -> Option<(u32, u8)>
    requires { IsText text.now }
    ensures { (entry : ℕ) → AreMarks text.now entry marks.now.starts.items marks.now.entered.items marks.now.after.items marks.now.twice.items → Scanned text.now entry result }
{
    for k in 0..text.len() {
        let a = TEXT_START + 4 * (k as u32);
        let rule = first_rule(text, marks, a);
        if rule != 0 {
            return Some((a, rule));
        }
    }
    None
}

/// The rows of a text of at most 66,060,288 words, from address 0x00400000 on, which begins at `entry`, where no word breaks a rule
/// of the three streams; else the lowest address at which a rule is broken, and the lowest rule, 1 to 9, that is broken there. That
/// address is of a word of the text. It takes time in proportion to the words.
///
/// # Errors
///
/// [`ThirdError::BadAt`] as said, and [`ThirdError::OutOfMemory`] for want of memory alone.
pub fn lint_third(alloc: Global, text: &[u32], entry: u32) -> Result<TypingThird, ThirdError>
    requires { IsText text.now }
    ensures typed { IfOk result (λ t. Typed text.now entry t.rows) }
    ensures accepted { (rows : List ThirdRow) → Typed text.now entry rows → (address rule : ℕ) → IsErrOf result (ThirdError.BadAt address rule) → ⊥ }
    ensures lowest { (address rule : ℕ) → IsErrOf result (ThirdError.BadAt address rule) → BadAt text.now entry address rule }
    ensures refused { (address rule : ℕ) → BadAt text.now entry address rule → IfOk result (λ t. ⊥) }
{
    let table = WordTable::new(alloc, text)?;
    let marks = find_marks(alloc, &table, entry)?;
    match scan(&table, &marks) {
        Some((address, rule)) => Err(ThirdError::BadAt { address, rule }),
        None => {
            let starts = marks.starts.as_slice();
            let entered = marks.entered.as_slice();
            let rows = make_rows(alloc, &table, starts, entered)?;
            Ok(TypingThird {
                rows: ThirdRows::from_vec(rows),
            })
        }
    }
}
