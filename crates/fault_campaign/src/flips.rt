//! The flips of a campaign.

ghost use Rattle.std.specs.Prelude.{◌≡◌, ◌≤◌, ◌<◌, None, IfOk, OnOk, length};
ghost use Rattle.elf_image.specs.Bounds.{Fits};
ghost use Rattle.elf_image.specs.Layout.{fields_of};
ghost use Rattle.mips_faults.specs.Faults.{image_run};
ghost use Rattle.mips_machine.specs.View.{state_of};
ghost use Rattle.fault_campaign.specs.Campaign.{Counts, IsTally, Tries};
ghost use Rattle.fault_campaign.specs.Runs.{IsReady, KeepsText, image_of};

use crate::compare::{compare, is_window};
use crate::outcome::{Outcome, Tally};
use crate::runs::{CleanRun, restart, run_clean, run_flipped};
use elf_image::Image;
use hard_words::OutOfMemory;
use mips_machine::Machine;
use std::alloc::Global;

/// What is tried: an image, beside its clean run.
#[derive(Drop)]
pub struct Trial<'a> {
    /// The image.
    pub image: &'a Image,
    /// The clean run.
    pub clean: CleanRun,
    /// How many steps each run makes.
    pub steps: u64,
    /// The first step at which flips are tried.
    pub from: u64,
    /// The step before which the last are.
    pub to: u64,
}

/// Tries the flip of a register at a step where the clean run stands at an address.
fn try_flip(
    alloc: Global,
    trial: &Trial<'_>,
    machine: &mut Machine,
    n: u64,
    reg: u8,
    out: &mut Vec<u32>,
) -> Result<Outcome, OutOfMemory>
    requires ready { IsReady trial.now (state_of machine.old) }
    requires from { trial.now.from ≤ n }
    requires to { n < trial.now.to }
    requires register { reg ≤ 31 }
    ensures outcome { IfOk result (Tries (image_of trial.now) machine.old.feed trial.now.steps n reg) }
    ensures text { OnOk result (KeepsText (state_of machine.old) (state_of machine.new)) }
{
    let address = trial.clean.addresses[(n - trial.from) as usize];
    if is_window(trial.image.windows.as_slice(), address, reg) {
        return Ok(Outcome::Windowed);
    }
    restart(alloc, machine, trial.image)?;
    run_flipped(machine, n, reg, trial.steps, out)?;
    Ok(compare(
        out.as_slice(),
        machine.end,
        trial.clean.output.as_slice(),
        trial.clean.end,
    ))
}

/// Tries the flips of registers 1 to 31 at a step.
fn try_step(
    alloc: Global,
    trial: &Trial<'_>,
    machine: &mut Machine,
    n: u64,
    out: &mut Vec<u32>,
    tally: &mut Tally,
) -> Result<(), OutOfMemory>
    requires ready { IsReady trial.now (state_of machine.old) }
    requires from { trial.now.from ≤ n }
    requires to { n < trial.now.to }
    requires counts { Counts (image_of trial.now) machine.old.feed trial.now.steps trial.now.from n 0 tally.old }
    ensures counts { OnOk result (Counts (image_of trial.now) machine.old.feed trial.now.steps trial.now.from n 31 tally.new) }
    ensures text { OnOk result (KeepsText (state_of machine.old) (state_of machine.new)) }
{
    for before in 0..31u8 {
        let outcome = try_flip(alloc, trial, machine, n, before + 1, out)?;
        tally.count(outcome);
    }
    Ok(())
}

/// Tries the flips of all steps.
fn try_all(alloc: Global, trial: &Trial<'_>, machine: &mut Machine) -> Result<Tally, OutOfMemory>
    requires ready { IsReady trial.now (state_of machine.old) }
    ensures { IfOk result (IsTally (image_of trial.now) machine.old.feed trial.now.steps trial.now.from trial.now.to) }
{
    let mut out = Vec::new(alloc);
    let mut tally = Tally::no_flips();
    for n in trial.from..trial.to {
        try_step(alloc, trial, machine, n, &mut out, &mut tally)?;
    }
    Ok(tally)
}

/// Counts what flips of single bits come to: for each step from `from` up to `to` and each register from 1 to 31 one flip is tried,
/// in a run of its own of `steps` steps from the image's start, on this input. The bit is another at each step. A flip at an address
/// and a register that the image lists as a window is not tried, and counts as windowed.
///
/// It takes memory for the image in a machine, for the words of two runs, and once more for each flip for the image's memory.
///
/// # Errors
///
/// There was no memory.
pub fn campaign(
    alloc: Global,
    image: &Image,
    feed: &[u32],
    steps: u64,
    from: u64,
    to: u64,
) -> Result<Tally, OutOfMemory>
    requires fits { Fits (fields_of image.now) }
    requires feed { length feed.now ≤ 1000000 }
    requires order { from ≤ to }
    requires within { to ≤ steps }
    requires few { steps ≤ 10000000 }
    ensures { IfOk result (IsTally (fields_of image.now) feed.now steps from to) }
{
    let feed = Vec::from_slice(alloc, feed)?;
    let mut machine = Machine::boot(alloc, image, feed)?;
    let clean = run_clean(alloc, &mut machine, steps, from, to)?;
    let trial = Trial {
        image,
        clean,
        steps,
        from,
        to,
    };
    try_all(alloc, &trial, &mut machine)
}
