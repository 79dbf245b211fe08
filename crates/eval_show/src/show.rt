//! The lines of a run, as its words come.

ghost use Rattle.std.specs.Prelude.{◌≡◌, ◌≤◌, ◌++◌, IsTrue, IfOk, OnOk, OnErr, IsErrOf};
ghost use Rattle.c_meaning.specs.Meaning.{run_of};
ghost use Rattle.check_rules.specs.Limits.{resolved_names};
ghost use Rattle.fault_replay.specs.Show.{end_line, word_lines};
ghost use Rattle.hard_shelf.specs.Outside.{Rose, AppendsPart};
ghost use Rattle.eval_show.specs.EvalLines.{end_of, shown};
ghost use Rattle.eval_show.specs.Turns.{IsTurnShown, rest};

use c_eval::{Evaluator, Turn};
use c_meaning::EvalEnd;
use check_rules::Checked;
use fault_replay::{end_line, word_line};
use hard_shelf::{Sink, SinkFault};
use hard_words::OutOfMemory;
use mips_machine::End;
use std::alloc::Global;

/// Why a run is not shown whole.
#[derive(Clone, Copy, Debug, PartialEq, Eq)]
pub enum ShowError {
    /// The sink failed.
    Sink,
    /// There was no memory.
    OutOfMemory,
}

/// Runs a checked program with this input and so much fuel, and shows the run: each word that it puts out as a signed decimal
/// number on a line, and then a line for how it ended. Each line is one write, made as the word comes.
///
/// # Errors
///
/// A fault of the sink, which its count shows, or want of memory. What was written then is the beginning of the text.
pub fn show_run<O: Sink>(
    alloc: Global,
    checked: &Checked,
    feed: Vec<u32>,
    turns: u64,
    out: &mut O,
) -> Result<(), ShowError>
    ensures tells { O.tells out.new ≡ O.tells out.old }
    ensures count { O.faults out.old ≤ O.faults out.new }
    ensures ok { OnOk result (IsTrue (O.tells out.old) →
        O.written out.new ≡ O.written out.old ++ shown (run_of (resolved_names checked.now) checked.now.program feed.items turns)) }
    ensures fault { IsErrOf result ShowError.Sink → Rose (O.faults out.old) (O.faults out.new) }
    ensures part { OnErr result (IsTrue (O.tells out.old) →
        AppendsPart (O.written out.old) (O.written out.new) (shown (run_of (resolved_names checked.now) checked.now.program feed.items turns))) }
{
    match Evaluator::start(alloc, checked, feed, turns) {
        Err(OutOfMemory) => Err(ShowError::OutOfMemory),
        Ok(run) => show_all(run, out),
    }
}

// Shows what is still to come of a run.
fn show_all<O: Sink>(mut run: Evaluator<'_>, out: &mut O) -> Result<(), ShowError>
    ensures tells { O.tells out.new ≡ O.tells out.old }
    ensures count { O.faults out.old ≤ O.faults out.new }
    ensures ok { OnOk result (IsTrue (O.tells out.old) → O.written out.new ≡ O.written out.old ++ shown (rest run.entry)) }
    ensures fault { IsErrOf result ShowError.Sink → Rose (O.faults out.old) (O.faults out.new) }
    ensures part { OnErr result (IsTrue (O.tells out.old) → AppendsPart (O.written out.old) (O.written out.new) (shown (rest run.entry))) }
{
    match show_words(&mut run, out) {
        Err(error) => Err(error),
        Ok(end) => match show_end(end, out) {
            Err(SinkFault) => Err(ShowError::Sink),
            Ok(()) => Ok(()),
        },
    }
}

// Shows the words that are still to come, and gives the end.
fn show_words<O: Sink>(run: &mut Evaluator<'_>, out: &mut O) -> Result<EvalEnd, ShowError>
    ensures tells { O.tells out.new ≡ O.tells out.old }
    ensures count { O.faults out.old ≤ O.faults out.new }
    ensures end { IfOk result (λ end. (rest run.old).end ≡ end) }
    ensures ok { OnOk result (IsTrue (O.tells out.old) → O.written out.new ≡ O.written out.old ++ word_lines (rest run.old).output) }
    ensures fault { IsErrOf result ShowError.Sink → Rose (O.faults out.old) (O.faults out.new) }
    ensures part { OnErr result (IsTrue (O.tells out.old) → AppendsPart (O.written out.old) (O.written out.new) (word_lines (rest run.old).output)) }
{
    loop {
        match show_turn(run, out) {
            Err(error) => return Err(error),
            Ok(Some(end)) => return Ok(end),
            Ok(None) => {}
        }
    }
}

// Makes a turn, and shows the word that it puts out, if any. It gives the end, if the run has ended.
fn show_turn<O: Sink>(run: &mut Evaluator<'_>, out: &mut O) -> Result<Option<EvalEnd>, ShowError>
    ensures tells { O.tells out.new ≡ O.tells out.old }
    ensures count { O.faults out.old ≤ O.faults out.new }
    ensures shown { IsTurnShown (IsTrue (O.tells out.old)) (O.written out.old) (O.written out.new) (Rose (O.faults out.old) (O.faults out.new)) run.old run.new result }
{
    match run.turn() {
        Err(OutOfMemory) => Err(ShowError::OutOfMemory),
        Ok(Turn::Working) => Ok(None),
        Ok(Turn::Ended(end)) => Ok(Some(end)),
        Ok(Turn::Put(word)) => match out.write(word_line(word).as_slice()) {
            Err(SinkFault) => Err(ShowError::Sink),
            Ok(()) => Ok(None),
        },
    }
}

// Writes the line of how a run ended.
fn show_end<O: Sink>(end: EvalEnd, out: &mut O) -> Result<(), SinkFault>
    ensures tells { O.tells out.new ≡ O.tells out.old }
    ensures count { O.faults out.old ≤ O.faults out.new }
    ensures ok { OnOk result (IsTrue (O.tells out.old) → O.written out.new ≡ O.written out.old ++ end_line (end_of end)) }
    ensures fault { OnErr result (Rose (O.faults out.old) (O.faults out.new)) }
    ensures part { OnErr result (IsTrue (O.tells out.old) → AppendsPart (O.written out.old) (O.written out.new) (end_line (end_of end))) }
{
    let line = end_line(end_of(end));
    out.write(line.as_slice())
}

// How a run of a program ended, as that of a machine.
fn end_of(end: EvalEnd) -> Option<End>
    ensures { result ≡ end_of end }
{
    match end {
        EvalEnd::Exited(word) => Some(End::Exited(word)),
        EvalEnd::Trapped(number) => Some(End::Trapped(number)),
        EvalEnd::Starved => Some(End::Starved),
        EvalEnd::Going => None,
    }
}
