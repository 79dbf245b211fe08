//! The audit.

ghost use Rattle.std.specs.Prelude.{◌≡◌, ◌≤◌, ◌↔◌, ℕ, List, Ok, Err, IfOk, length};
ghost use Rattle.elf_image.specs.Bounds.{Fits};
ghost use Rattle.elf_image.specs.Layout.{fields_of};
ghost use Rattle.run_audit.specs.Audits.{Passes, IsRefused, AuditedRun, IsAnswered};
ghost use Rattle.run_audit.specs.Turns.{Judged};
ghost use Rattle.run_audit.specs.declared.error.AuditError.{AuditError};

use crate::error::AuditError;
use crate::starts::find_starts;
use crate::turns::walk;
use elf_image::Image;
use harden_lint::{lint, shows_flip_within, shows_within};
use lint_words::WordTable;
use mips_laws::end_stays;
use mips_machine::Machine;
use std::alloc::Global;

// The audit, its answers in one.
fn judge(alloc: Global, image: &Image, feed: Vec<u32>, steps: u64) -> Result<u64, AuditError>
    requires fits { Fits (fields_of image.now) }
    requires feed { length feed.items ≤ 1000000 }
    ensures judged { Judged (fields_of image.now) feed.items steps result }
    ensures run { IfOk result (λ made. AuditedRun (fields_of image.now) feed.items steps) }
{
    shows_within();
    shows_flip_within();
    let text = image.text.as_slice();
    let _typing = lint(alloc, text, image.entry)?;
    let table = WordTable::new(alloc, text)?;
    let starts = find_starts(alloc, &table, image.entry)?;
    let mut machine = Machine::boot(alloc, image, feed)?;
    walk(&mut machine, &table, starts.as_slice(), steps)
}

/// Audits an image on an input of at most 1,000,000 words: asks the lint of its text, and makes its run without a change, at most
/// `steps` steps. It answers how many steps were made: until the end of the run, or `steps` where it has no end by then. Then
/// every word that a fault puts in a place that is no window is unseen or told within `steps` steps.
///
/// # Errors
///
/// `Lint`, where the lint refuses the text. Else `Misplaced`, the first step of the run at a state that is not placed; or
/// `Reports`, the step by which the run reports.
pub fn audit(alloc: Global, image: &Image, feed: Vec<u32>, steps: u64) -> Result<u64, AuditError>
    requires fits { Fits (fields_of image.now) }
    requires feed { length feed.items ≤ 1000000 }
    // What it says of a run that passes.
    ensures run { IfOk result (λ made. AuditedRun (fields_of image.now) feed.items steps) }
    // Its answers, each exactly where it is due, unless memory fails.
    ensures passes { IsAnswered result → (made : ℕ) → (result ≡ Ok made) ↔ Passes (fields_of image.now) feed.items steps made }
    ensures refuses { IsAnswered result → (error : AuditError) →
        (result ≡ Err error) ↔ IsRefused (fields_of image.now) feed.items steps error }
{
    end_stays();
    judge(alloc, image, feed, steps)
}
