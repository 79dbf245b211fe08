//! The command that counts what flips in runs of an image come to.

ghost use Rattle.std.specs.Prelude.{◌≡◌, ◌≤◌, ◌++◌, Some, IsTrue, IfOk, codes, length};
ghost use Rattle.elf_image.specs.Bounds.{Fits};
ghost use Rattle.elf_image.specs.Layout.{fields_of};
ghost use Rattle.fault_campaign.specs.Campaign.{IsTally};
ghost use Rattle.hard_shelf.specs.Outside.{Rose};
ghost use Rattle.tool_words.specs.Commands.{Campaign};
ghost use Rattle.tool_outcomes.specs.Parts.{Leaves, Writes};
ghost use Rattle.fault_campaign.specs.Tallies.{outcome_line, tally_lines};

use crate::run_file::{Loaded, load};
use arrayvec::ArrayVec;
use fault_campaign::{Tally, campaign};
use fault_replay::{Line, put, put_number};
use hard_shelf::{Shelf, Sink, SinkFault};
use hard_words::OutOfMemory;
use std::alloc::Global;
use tool_outcomes::{Failure, report, status_of_text};
use tool_words::CampaignWords;

/// The words `campaign IMG INPUT STEPS FROM TO`: all flips are tried, and then a line is written for each outcome.
pub fn count_flips<H: Shelf, O: Sink>(
    alloc: Global,
    words: &CampaignWords<'_>,
    shelf: &mut H,
    out: &mut O,
) -> u8
    ensures { Leaves (IsTrue (H.tells shelf.old)) (H.held shelf.old) (H.held shelf.new) (Rose (H.faults shelf.old) (H.faults shelf.new))
        (IsTrue (O.tells out.old)) (O.written out.old) (O.written out.new) (Rose (O.faults out.old) (O.faults out.new))
        (Some (Campaign words.now.image.now words.now.input.now words.now.steps words.now.from words.now.to)) result }
{
    match load(alloc, words.image, words.input, shelf) {
        Err(failure) => report(out, failure),
        Ok(loaded) => match flip_all(alloc, loaded, words) {
            Err(OutOfMemory) => report(out, Failure::Memory),
            Ok(tally) => status_of_text(write_tally(tally, out)),
        },
    }
}

// Tries all flips.
fn flip_all(alloc: Global, loaded: Loaded, words: &CampaignWords<'_>) -> Result<Tally, OutOfMemory>
    requires fits { Fits (fields_of loaded.image) }
    requires few { length loaded.feed.items ≤ 1000000 }
    ensures { IfOk result (IsTally (fields_of loaded.image) loaded.feed.items words.now.steps words.now.from words.now.to) }
{
    campaign(
        alloc,
        &loaded.image,
        loaded.feed.as_slice(),
        words.steps,
        words.from,
        words.to,
    )
}

// Writes a line for each outcome.
fn write_tally<O: Sink>(tally: Tally, out: &mut O) -> Result<(), SinkFault>
    ensures tells { O.tells out.new ≡ O.tells out.old }
    ensures count { O.faults out.old ≤ O.faults out.new }
    ensures writes { Writes (IsTrue (O.tells out.old)) (O.written out.old) (O.written out.new) (Rose (O.faults out.old) (O.faults out.new))
        (tally_lines tally) result }
{
    match write_outcome(b"same ", tally.same, out) {
        Err(fault) => Err(fault),
        Ok(()) => write_noticed(tally, out),
    }
}

// Writes the lines from the reported flips on.
fn write_noticed<O: Sink>(tally: Tally, out: &mut O) -> Result<(), SinkFault>
    ensures tells { O.tells out.new ≡ O.tells out.old }
    ensures count { O.faults out.old ≤ O.faults out.new }
    ensures writes { Writes (IsTrue (O.tells out.old)) (O.written out.old) (O.written out.new) (Rose (O.faults out.old) (O.faults out.new))
        (outcome_line (codes "reported ") tally.reported ++ (outcome_line (codes "exception ") tally.exception
        ++ (outcome_line (codes "windowed ") tally.windowed ++ outcome_line (codes "silent ") tally.silent))) result }
{
    match write_outcome(b"reported ", tally.reported, out) {
        Err(fault) => Err(fault),
        Ok(()) => write_exceptions(tally, out),
    }
}

// Writes the lines from the exceptions on.
fn write_exceptions<O: Sink>(tally: Tally, out: &mut O) -> Result<(), SinkFault>
    ensures tells { O.tells out.new ≡ O.tells out.old }
    ensures count { O.faults out.old ≤ O.faults out.new }
    ensures writes { Writes (IsTrue (O.tells out.old)) (O.written out.old) (O.written out.new) (Rose (O.faults out.old) (O.faults out.new))
        (outcome_line (codes "exception ") tally.exception
        ++ (outcome_line (codes "windowed ") tally.windowed ++ outcome_line (codes "silent ") tally.silent)) result }
{
    match write_outcome(b"exception ", tally.exception, out) {
        Err(fault) => Err(fault),
        Ok(()) => write_unnoticed(tally, out),
    }
}

// Writes the lines of the windows and of the flips that nothing tells of.
fn write_unnoticed<O: Sink>(tally: Tally, out: &mut O) -> Result<(), SinkFault>
    ensures tells { O.tells out.new ≡ O.tells out.old }
    ensures count { O.faults out.old ≤ O.faults out.new }
    ensures writes { Writes (IsTrue (O.tells out.old)) (O.written out.old) (O.written out.new) (Rose (O.faults out.old) (O.faults out.new))
        (outcome_line (codes "windowed ") tally.windowed ++ outcome_line (codes "silent ") tally.silent) result }
{
    match write_outcome(b"windowed ", tally.windowed, out) {
        Err(fault) => Err(fault),
        Ok(()) => write_outcome(b"silent ", tally.silent, out),
    }
}

/// Writes the line of a name and a number, as of one outcome.
pub fn write_outcome<O: Sink>(name: &[u8], count: u64, out: &mut O) -> Result<(), SinkFault>
    requires { length name.now ≤ 20 }
    ensures tells { O.tells out.new ≡ O.tells out.old }
    ensures count { O.faults out.old ≤ O.faults out.new }
    ensures writes { Writes (IsTrue (O.tells out.old)) (O.written out.old) (O.written out.new) (Rose (O.faults out.old) (O.faults out.new))
        (outcome_line name.now count) result }
{
    out.write(outcome_line(name, count).as_slice())
}

#[tactic(auto, unfolding(fault_campaign::specs::Tallies::outcome_line))]
fn outcome_line(name: &[u8], count: u64) -> Line
    requires { length name.now ≤ 20 }
    ensures { result.items ≡ outcome_line name.now count }
{
    let mut line = ArrayVec::new();
    put(&mut line, name);
    put_number(&mut line, count);
    line.push(b'\n');
    line
}
