//! The lines.

ghost use Rattle.std.specs.Prelude.{◌≡◌};
ghost use Rattle.run_audit.specs.AuditLines.{yes_line, steps_line, windows_line, lint_line, reported_line, misplaced_line, no_line};

use crate::error::AuditError;
use arrayvec::ArrayVec;
use fault_replay::{Line, put, put_address, put_number};

/// The line of an audit that does not pass; an empty one where there was no memory.
pub fn no_line(error: AuditError) -> Line
    ensures { result.items ≡ no_line error }
{
    match error {
        AuditError::Lint { address, rule } => lint_line(address, rule),
        AuditError::Reports { step } => reported_line(step),
        AuditError::Misplaced { step, at } => misplaced_line(step, at),
        AuditError::OutOfMemory => ArrayVec::new(),
    }
}

/// The first line of an audit that passes.
pub fn yes_line() -> Line
    ensures { result.items ≡ yes_line }
{
    let mut line = ArrayVec::new();
    put(&mut line, b"audit yes\n");
    line
}

/// The line of how many steps were made.
#[tactic(auto, unfolding(crate::specs::AuditLines::steps_line))]
pub fn steps_line(made: u64) -> Line
    ensures { result.items ≡ steps_line made }
{
    let mut line = ArrayVec::new();
    put(&mut line, b"steps ");
    put_number(&mut line, made);
    line.push(b'\n');
    line
}

/// The line of how many windows there are.
#[tactic(auto, unfolding(crate::specs::AuditLines::windows_line))]
pub fn windows_line(count: u64) -> Line
    ensures { result.items ≡ windows_line count }
{
    let mut line = ArrayVec::new();
    put(&mut line, b"windows ");
    put_number(&mut line, count);
    line.push(b'\n');
    line
}

#[tactic(auto, unfolding(crate::specs::AuditLines::lint_line))]
fn lint_line(address: u32, rule: u8) -> Line
    ensures { result.items ≡ lint_line address rule }
{
    let mut line = ArrayVec::new();
    put(&mut line, b"audit no: lint rule ");
    put_number(&mut line, rule as u64);
    put(&mut line, b" at ");
    put_address(&mut line, address);
    line.push(b'\n');
    line
}

#[tactic(auto, unfolding(crate::specs::AuditLines::reported_line))]
fn reported_line(step: u64) -> Line
    ensures { result.items ≡ reported_line step }
{
    let mut line = ArrayVec::new();
    put(&mut line, b"audit no: reported at step ");
    put_number(&mut line, step);
    line.push(b'\n');
    line
}

#[tactic(auto, unfolding(crate::specs::AuditLines::misplaced_line))]
fn misplaced_line(step: u64, at: u32) -> Line
    ensures { result.items ≡ misplaced_line step at }
{
    let mut line = ArrayVec::new();
    put(&mut line, b"audit no: misplaced at ");
    put_address(&mut line, at);
    put(&mut line, b", step ");
    put_number(&mut line, step);
    line.push(b'\n');
    line
}
