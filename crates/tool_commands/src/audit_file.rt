//! The command that audits an image.

ghost use Rattle.std.specs.Prelude.{◌≡◌, ◌≢◌, ◌≤◌, ◌++◌, Some, IsTrue, IfOk, IfErr, length};
ghost use Rattle.run_audit.specs.AuditLines.{no_line, passed_lines, steps_line, windows_line};
ghost use Rattle.elf_image.specs.Bounds.{Fits};
ghost use Rattle.elf_image.specs.Layout.{fields_of};
ghost use Rattle.hard_shelf.specs.Outside.{Rose};
ghost use Rattle.run_audit.specs.Audits.{IsRefused};
ghost use Rattle.tool_words.specs.Commands.{Audit};
ghost use Rattle.tool_outcomes.specs.Failures.{audit_status};
ghost use Rattle.tool_commands.specs.Passed.{IsPassed};
ghost use Rattle.tool_outcomes.specs.Parts.{Leaves, Said, Writes};

use crate::run_file::{Loaded, load};
use hard_shelf::{Shelf, Sink, SinkFault};
use hard_words::OutOfMemory;
use run_audit::{AuditError, audit, no_line, steps_line, window_count, windows_line, yes_line};
use std::alloc::Global;
use tool_outcomes::{Failure, NOT_PASSED, report, say, status_of_text};
use tool_words::AuditWords;

/// What is told of an audit that passes.
#[derive(Clone, Copy)]
pub struct Passed {
    /// How many steps its run made.
    pub made: u64,
    /// How many windows the text has.
    pub windows: u64,
}

/// The words `audit IMG INPUT STEPS`: the audit is made, and what comes of it is written.
pub fn audit_image<H: Shelf, O: Sink>(
    alloc: Global,
    words: &AuditWords<'_>,
    shelf: &mut H,
    out: &mut O,
) -> u8
    ensures { Leaves (IsTrue (H.tells shelf.old)) (H.held shelf.old) (H.held shelf.new) (Rose (H.faults shelf.old) (H.faults shelf.new))
        (IsTrue (O.tells out.old)) (O.written out.old) (O.written out.new) (Rose (O.faults out.old) (O.faults out.new))
        (Some (Audit words.now.image.now words.now.input.now words.now.steps)) result }
{
    match load(alloc, words.image, words.input, shelf) {
        Err(failure) => report(out, failure),
        Ok(loaded) => match pass(alloc, loaded, words.steps) {
            Err(error) => report_error(out, error),
            Ok(passed) => status_of_text(write_passed(passed, out)),
        },
    }
}

// Makes the audit, and counts the windows where it passes.
fn pass(alloc: Global, loaded: Loaded, steps: u64) -> Result<Passed, AuditError>
    requires fits { Fits (fields_of loaded.image) }
    requires few { length loaded.feed.items ≤ 1000000 }
    ensures passed { IfOk result (λ passed. IsPassed (fields_of loaded.image) loaded.feed.items steps passed) }
    ensures refused { IfErr result (λ error. error ≢ AuditError.OutOfMemory → IsRefused (fields_of loaded.image) loaded.feed.items steps error) }
{
    let Loaded { image, feed } = loaded;
    match audit(alloc, &image, feed, steps) {
        Err(error) => Err(error),
        Ok(made) => match window_count(alloc, &image) {
            Err(OutOfMemory) => Err(AuditError::OutOfMemory),
            Ok(windows) => Ok(Passed { made, windows }),
        },
    }
}

// Says why an audit does not pass, and answers the status. Nothing is said of memory.
fn report_error<O: Sink>(out: &mut O, error: AuditError) -> u8
    ensures said { Said (IsTrue (O.tells out.old)) (O.written out.old) (O.written out.new) (Rose (O.faults out.old) (O.faults out.new))
        (no_line error) (audit_status error) result }
    ensures silent { error ≡ AuditError.OutOfMemory → (result ≡ 9) × (IsTrue (O.tells out.old) → O.written out.new ≡ O.written out.old) }
{
    match error {
        AuditError::Lint {
            address: _,
            rule: _,
        } => say(out, no_line(error).as_slice(), NOT_PASSED),
        AuditError::Reports { step: _ } => say(out, no_line(error).as_slice(), NOT_PASSED),
        AuditError::Misplaced { step: _, at: _ } => say(out, no_line(error).as_slice(), NOT_PASSED),
        AuditError::OutOfMemory => report(out, Failure::Memory),
    }
}

// Writes the lines of an audit that passes.
fn write_passed<O: Sink>(passed: Passed, out: &mut O) -> Result<(), SinkFault>
    ensures tells { O.tells out.new ≡ O.tells out.old }
    ensures count { O.faults out.old ≤ O.faults out.new }
    ensures writes { Writes (IsTrue (O.tells out.old)) (O.written out.old) (O.written out.new) (Rose (O.faults out.old) (O.faults out.new))
        (passed_lines passed.made passed.windows) result }
{
    match out.write(yes_line().as_slice()) {
        Err(fault) => Err(fault),
        Ok(()) => write_counts(passed, out),
    }
}

// Writes the lines of the steps and the windows.
fn write_counts<O: Sink>(passed: Passed, out: &mut O) -> Result<(), SinkFault>
    ensures tells { O.tells out.new ≡ O.tells out.old }
    ensures count { O.faults out.old ≤ O.faults out.new }
    ensures writes { Writes (IsTrue (O.tells out.old)) (O.written out.old) (O.written out.new) (Rose (O.faults out.old) (O.faults out.new))
        (steps_line passed.made ++ windows_line passed.windows) result }
{
    match out.write(steps_line(passed.made).as_slice()) {
        Err(fault) => Err(fault),
        Ok(()) => out.write(windows_line(passed.windows).as_slice()),
    }
}
