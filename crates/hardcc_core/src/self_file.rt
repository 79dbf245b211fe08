//! The command that makes a program, compiles it, and runs its image.

ghost use Rattle.std.specs.Prelude.{◌≡◌, ◌≤◌, ◌++◌, Some, IsTrue, IfOk, IfErr, codes};
ghost use Rattle.fault_replay.specs.Show.{end_line};
ghost use Rattle.hard_shelf.specs.Outside.{Rose};
ghost use Rattle.program_maker.specs.Text.{made_text};
ghost use Rattle.tool_words.specs.Commands.{SelfRun, self_image};
ghost use Rattle.tool_outcomes.specs.Parts.{Leaves, PutsAndSays, RefusesBytes, Writes};
ghost use Rattle.hardcc_core.specs.SelfRuns.{IsSelfRun};
ghost use Rattle.tool_outcomes.specs.Summaries.{summary_lines};
ghost use Rattle.fault_campaign.specs.Tallies.{outcome_line};

use compile_chain::compile;
use compile_rules::Refusal;
use elf_image::write_image;
use fault_replay::{Counted, count_outputs, end_line};
use hard_shelf::{Shelf, ShelfError, Sink, SinkFault};
use hard_words::OutOfMemory;
use mips_machine::{End, Machine};
use program_maker::make;
use std::alloc::Global;
use tool_commands::write_outcome;
use tool_outcomes::{Failure, report, status_of_text};
use tool_words::SelfRunWords;

/// What is told of a source and of the run of its image.
#[derive(Clone, Copy)]
pub(crate) struct Summary {
    /// How many bytes the source has.
    pub(crate) bytes: u64,
    /// The words that the run put out, counted.
    pub(crate) counted: Counted,
    /// How the run stands.
    pub(crate) end: Option<End>,
}

/// The words `selfrun NUMBER SIZE STEPS`: the image of the made program is put, and its run is told of. All memory is taken
/// before the put.
pub(crate) fn self_run<H: Shelf, O: Sink>(
    alloc: Global,
    words: &SelfRunWords,
    shelf: &mut H,
    out: &mut O,
) -> u8
    ensures { Leaves (IsTrue (H.tells shelf.old)) (H.held shelf.old) (H.held shelf.new) (Rose (H.faults shelf.old) (H.faults shelf.new))
        (IsTrue (O.tells out.old)) (O.written out.old) (O.written out.new) (Rose (O.faults out.old) (O.faults out.new))
        (Some (SelfRun words.now.number words.now.size words.now.steps)) result }
{
    match made_run(alloc, words) {
        Err(failure) => report(out, failure),
        Ok((file, told)) => put_and_tell(&file, told, shelf, out),
    }
}

// The file of the image of the made program, and what is told of its run.
fn made_run(alloc: Global, words: &SelfRunWords) -> Result<(Vec<u8>, Summary), Failure>
    ensures ok { IfOk result (λ made. IsSelfRun (made_text words.now.number words.now.size) words.now.steps made.0.items made.1) }
    ensures explained { IfErr result (λ failure. RefusesBytes (made_text words.now.number words.now.size) failure) }
{
    match make(alloc, words.number, words.size) {
        Err(OutOfMemory) => Err(Failure::Memory),
        Ok(text) => source_run(alloc, &text, words.steps),
    }
}

// The file of the image of a source, and what is told of its run.
fn source_run(alloc: Global, source: &[u8], steps: u64) -> Result<(Vec<u8>, Summary), Failure>
    ensures ok { IfOk result (λ made. IsSelfRun source.now steps made.0.items made.1) }
    ensures explained { IfErr result (λ failure. RefusesBytes source.now failure) }
{
    match compile(alloc, source) {
        Err(Refusal::OutOfMemory) => Err(Failure::Memory),
        Err(refusal) => Err(Failure::Source(refusal)),
        Ok(image) => match write_image(alloc, &image) {
            Err(OutOfMemory) => Err(Failure::Memory),
            Ok(file) => match Machine::boot(alloc, &image, Vec::new(alloc)) {
                Err(OutOfMemory) => Err(Failure::Memory),
                Ok(mut machine) => {
                    let counted = count_outputs(&mut machine, steps);
                    Ok((
                        file,
                        Summary {
                            bytes: source.len() as u64,
                            counted,
                            end: machine.end,
                        },
                    ))
                }
            },
        },
    }
}

// Puts the image, and then writes the lines.
fn put_and_tell<H: Shelf, O: Sink>(file: &[u8], told: Summary, shelf: &mut H, out: &mut O) -> u8
    ensures { PutsAndSays (IsTrue (H.tells shelf.old)) (H.held shelf.old) (H.held shelf.new) (Rose (H.faults shelf.old) (H.faults shelf.new))
        (IsTrue (O.tells out.old)) (O.written out.old) (O.written out.new) (Rose (O.faults out.old) (O.faults out.new))
        self_image file.now (summary_lines told.bytes told.counted told.end) result }
{
    match shelf.put("self.img", file) {
        Ok(()) => status_of_text(write_summary(told, out)),
        Err(ShelfError::OutOfMemory) => report(out, Failure::Memory),
        Err(ShelfError::Absent) => report(out, Failure::Shelf),
        Err(ShelfError::TooLarge) => report(out, Failure::Shelf),
        Err(ShelfError::Failed) => report(out, Failure::Shelf),
    }
}

// Writes the lines.
fn write_summary<O: Sink>(told: Summary, out: &mut O) -> Result<(), SinkFault>
    ensures tells { O.tells out.new ≡ O.tells out.old }
    ensures count { O.faults out.old ≤ O.faults out.new }
    ensures writes { Writes (IsTrue (O.tells out.old)) (O.written out.old) (O.written out.new) (Rose (O.faults out.old) (O.faults out.new))
        (summary_lines told.bytes told.counted told.end) result }
{
    match write_outcome(b"source ", told.bytes, out) {
        Err(fault) => Err(fault),
        Ok(()) => write_counted(told, out),
    }
}

// Writes the lines from the number of words on.
fn write_counted<O: Sink>(told: Summary, out: &mut O) -> Result<(), SinkFault>
    ensures tells { O.tells out.new ≡ O.tells out.old }
    ensures count { O.faults out.old ≤ O.faults out.new }
    ensures writes { Writes (IsTrue (O.tells out.old)) (O.written out.old) (O.written out.new) (Rose (O.faults out.old) (O.faults out.new))
        (outcome_line (codes "outputs ") told.counted.outputs ++ (outcome_line (codes "sum ") told.counted.total ++ end_line told.end)) result }
{
    match write_outcome(b"outputs ", told.counted.outputs, out) {
        Err(fault) => Err(fault),
        Ok(()) => write_total(told, out),
    }
}

// Writes the lines from the sum on.
fn write_total<O: Sink>(told: Summary, out: &mut O) -> Result<(), SinkFault>
    ensures tells { O.tells out.new ≡ O.tells out.old }
    ensures count { O.faults out.old ≤ O.faults out.new }
    ensures writes { Writes (IsTrue (O.tells out.old)) (O.written out.old) (O.written out.new) (Rose (O.faults out.old) (O.faults out.new))
        (outcome_line (codes "sum ") told.counted.total ++ end_line told.end) result }
{
    match write_outcome(b"sum ", told.counted.total as u64, out) {
        Err(fault) => Err(fault),
        Ok(()) => out.write(end_line(told.end).as_slice()),
    }
}
