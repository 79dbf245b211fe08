//! The command that runs a source as the language means it.

ghost use Rattle.std.specs.Prelude.{◌≡◌, ◌≤◌, [], ◌∷◌, Some, IsTrue, IfOk, IfErr, IsErrOf};
ghost use Rattle.compile_rules.specs.Compiled.{IsCheckedSource};
ghost use Rattle.hard_shelf.specs.Outside.{Rose, SameNames};
ghost use Rattle.tool_words.specs.Commands.{Eval};
ghost use Rattle.tool_outcomes.specs.Failures.{run_status};
ghost use Rattle.tool_outcomes.specs.Files.{Holds, InputFile, SourceFile};
ghost use Rattle.tool_outcomes.specs.Parts.{Leaves, Reads, RefusesBytes};
ghost use Rattle.tool_commands.specs.Ready.{IsReady};

use check_law::same_run;
use check_rules::Checked;
use compile_chain::{LONGEST_SOURCE, checked_source};
use compile_rules::Refusal;
use eval_show::{ShowError, show_run};
use hard_shelf::{Shelf, Sink};
use std::alloc::Global;
use tool_outcomes::{DONE, Failure, NO_MEMORY, SINK_FAULT, report, take_file, take_input};
use tool_words::EvalWords;

/// The words `eval SRC INPUT TURNS`: the run of the source's program is shown, as its words come.
pub fn eval_source<H: Shelf, O: Sink>(
    alloc: Global,
    words: &EvalWords<'_>,
    shelf: &mut H,
    out: &mut O,
) -> u8
    ensures { Leaves (IsTrue (H.tells shelf.old)) (H.held shelf.old) (H.held shelf.new) (Rose (H.faults shelf.old) (H.faults shelf.new))
        (IsTrue (O.tells out.old)) (O.written out.old) (O.written out.new) (Rose (O.faults out.old) (O.faults out.new))
        (Some (Eval words.now.source.now words.now.input.now words.now.turns)) result }
{
    same_run();
    match load_source(alloc, words.source, words.input, shelf) {
        Err(failure) => report(out, failure),
        Ok((checked, feed)) => status_of_run(show_run(alloc, &checked, feed, words.turns, out)),
    }
}

// The checked program of the source and the input under two names. The source is taken, and refused where it is bad, before
// the input is taken.
fn load_source<H: Shelf>(
    alloc: Global,
    source: &str,
    input: &str,
    shelf: &mut H,
) -> Result<(Checked, Vec<u32>), Failure>
    ensures same { SameNames (H.held shelf.old) (H.held shelf.new) }
    ensures count { H.faults shelf.old ≤ H.faults shelf.new }
    ensures reads { Reads (IsTrue (H.tells shelf.old)) (H.held shelf.old) (Rose (H.faults shelf.old) (H.faults shelf.new))
        (SourceFile source.now ∷ InputFile input.now ∷ [])
        (λ both. IsReady (H.held shelf.old) source.now input.now both.0 both.1.items) result }
{
    match take_checked(alloc, source, shelf) {
        Err(failure) => Err(failure),
        Ok(checked) => match take_input(alloc, input, shelf) {
            Err(failure) => Err(failure),
            Ok(feed) => Ok((checked, feed)),
        },
    }
}

// The checked program of the source under a name.
fn take_checked<H: Shelf>(alloc: Global, source: &str, shelf: &mut H) -> Result<Checked, Failure>
    ensures tells { H.tells shelf.new ≡ H.tells shelf.old }
    ensures same { SameNames (H.held shelf.old) (H.held shelf.new) }
    ensures count { H.faults shelf.old ≤ H.faults shelf.new }
    ensures reads { Reads (IsTrue (H.tells shelf.old)) (H.held shelf.old) (Rose (H.faults shelf.old) (H.faults shelf.new)) (SourceFile source.now ∷ [])
        (λ c. Holds (H.held shelf.old) source.now (λ bytes. IsCheckedSource bytes c)) result }
{
    match take_file(
        alloc,
        source,
        LONGEST_SOURCE,
        Failure::Source(Refusal::TooLong),
        shelf,
    ) {
        Err(failure) => Err(failure),
        Ok(bytes) => checked(alloc, &bytes),
    }
}

// The checked program of a source.
fn checked(alloc: Global, source: &[u8]) -> Result<Checked, Failure>
    ensures ok { IfOk result (λ c. IsCheckedSource source.now c) }
    ensures explained { IfErr result (λ failure. RefusesBytes source.now failure) }
{
    match checked_source(alloc, source) {
        Err(Refusal::OutOfMemory) => Err(Failure::Memory),
        Err(refusal) => Err(Failure::Source(refusal)),
        Ok(checked) => Ok(checked),
    }
}

// The status of a run that was shown whole, or not.
fn status_of_run(work: Result<(), ShowError>) -> u8
    ensures { result ≡ run_status work }
{
    match work {
        Ok(()) => DONE,
        Err(ShowError::Sink) => SINK_FAULT,
        Err(ShowError::OutOfMemory) => NO_MEMORY,
    }
}
