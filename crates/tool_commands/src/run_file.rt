//! The commands that run an image, with a change or without.

ghost use Rattle.std.specs.Prelude.{◌≡◌, ◌≤◌, [], ◌∷◌, Some, IsTrue, IfOk, length};
ghost use Rattle.elf_image.specs.Bounds.{Fits};
ghost use Rattle.elf_image.specs.Layout.{fields_of};
ghost use Rattle.hard_shelf.specs.Outside.{Rose, SameNames};
ghost use Rattle.tool_words.specs.Commands.{Run, RunChanged};
ghost use Rattle.tool_outcomes.specs.Files.{ImageFile, InputFile, FaultFile};
ghost use Rattle.tool_commands.specs.Loaded.{IsLoaded, IsChanged};
ghost use Rattle.tool_outcomes.specs.Parts.{Reads, Leaves};
ghost use Rattle.mips_isa.specs.Image.{boot_state};
ghost use Rattle.mips_isa.specs.Runs.{IsChange};
ghost use Rattle.mips_machine.specs.View.{state_of};

use elf_image::Image;
use fault_replay::replay;
use hard_shelf::{Shelf, Sink};
use hard_words::{Change, OutOfMemory};
use mips_machine::Machine;
use std::alloc::Global;
use tool_outcomes::{Failure, report, status_of_text, take_fault, take_image, take_input};
use tool_words::{FaultWords, RunWords};

/// What a run begins with.
#[derive(Drop)]
pub struct Loaded {
    /// The image that is run.
    pub image: Image,
    /// The words that the program can ask for.
    pub feed: Vec<u32>,
}

/// The words `run IMG INPUT STEPS`: the run is shown.
pub fn run_image<H: Shelf, O: Sink>(
    alloc: Global,
    words: &RunWords<'_>,
    shelf: &mut H,
    out: &mut O,
) -> u8
    ensures { Leaves (IsTrue (H.tells shelf.old)) (H.held shelf.old) (H.held shelf.new) (Rose (H.faults shelf.old) (H.faults shelf.new))
        (IsTrue (O.tells out.old)) (O.written out.old) (O.written out.new) (Rose (O.faults out.old) (O.faults out.new))
        (Some (Run words.now.image.now words.now.input.now words.now.steps)) result }
{
    match load(alloc, words.image, words.input, shelf) {
        Err(failure) => report(out, failure),
        Ok(loaded) => match booted(alloc, loaded) {
            Err(OutOfMemory) => report(out, Failure::Memory),
            Ok(mut machine) => status_of_text(replay(&mut machine, None, words.steps, out)),
        },
    }
}

/// The words `fault IMG INPUT STEPS FAULTFILE`: the run with the change is shown.
pub fn run_changed<H: Shelf, O: Sink>(
    alloc: Global,
    words: &FaultWords<'_>,
    shelf: &mut H,
    out: &mut O,
) -> u8
    ensures { Leaves (IsTrue (H.tells shelf.old)) (H.held shelf.old) (H.held shelf.new) (Rose (H.faults shelf.old) (H.faults shelf.new))
        (IsTrue (O.tells out.old)) (O.written out.old) (O.written out.new) (Rose (O.faults out.old) (O.faults out.new))
        (Some (RunChanged words.now.image.now words.now.input.now words.now.steps words.now.fault.now)) result }
{
    match load_changed(alloc, words, shelf) {
        Err(failure) => report(out, failure),
        Ok((loaded, change)) => match booted(alloc, loaded) {
            Err(OutOfMemory) => report(out, Failure::Memory),
            Ok(mut machine) => {
                status_of_text(replay(&mut machine, Some(change), words.steps, out))
            }
        },
    }
}

// The machine at the start of a run.
fn booted(alloc: Global, loaded: Loaded) -> Result<Machine, OutOfMemory>
    requires fits { Fits (fields_of loaded.image) }
    requires few { length loaded.feed.items ≤ 1000000 }
    ensures { IfOk result (λ machine. state_of machine ≡ boot_state (fields_of loaded.image) loaded.feed.items) }
{
    let Loaded { image, feed } = loaded;
    Machine::boot(alloc, &image, feed)
}

/// The image and the input under two names. The image is taken, and refused where it is bad, before the input is taken.
pub fn load<H: Shelf>(
    alloc: Global,
    image: &str,
    input: &str,
    shelf: &mut H,
) -> Result<Loaded, Failure>
    ensures tells { H.tells shelf.new ≡ H.tells shelf.old }
    ensures same { SameNames (H.held shelf.old) (H.held shelf.new) }
    ensures count { H.faults shelf.old ≤ H.faults shelf.new }
    ensures reads { Reads (IsTrue (H.tells shelf.old)) (H.held shelf.old) (Rose (H.faults shelf.old) (H.faults shelf.new))
        (ImageFile image.now ∷ InputFile input.now ∷ []) (IsLoaded (H.held shelf.old) image.now input.now) result }
    ensures fits { IfOk result (λ loaded. Fits (fields_of loaded.image)) }
    ensures few { IfOk result (λ loaded. length loaded.feed.items ≤ 1000000) }
{
    match take_image(alloc, image, shelf) {
        Err(failure) => Err(failure),
        Ok(image) => match take_input(alloc, input, shelf) {
            Err(failure) => Err(failure),
            Ok(feed) => Ok(Loaded { image, feed }),
        },
    }
}

// The same and the change, which is taken last.
fn load_changed<H: Shelf>(
    alloc: Global,
    words: &FaultWords<'_>,
    shelf: &mut H,
) -> Result<(Loaded, Change), Failure>
    ensures same { SameNames (H.held shelf.old) (H.held shelf.new) }
    ensures change { IfOk result (λ both. IsChange both.1.kind) }
    ensures reads { Reads (IsTrue (H.tells shelf.old)) (H.held shelf.old) (Rose (H.faults shelf.old) (H.faults shelf.new))
        (ImageFile words.now.image.now ∷ InputFile words.now.input.now ∷ FaultFile words.now.fault.now ∷ [])
        (IsChanged (H.held shelf.old) words.now.image.now words.now.input.now words.now.fault.now) result }
    ensures fits { IfOk result (λ both. Fits (fields_of both.0.image)) }
    ensures few { IfOk result (λ both. length both.0.feed.items ≤ 1000000) }
{
    match load(alloc, words.image, words.input, shelf) {
        Err(failure) => Err(failure),
        Ok(loaded) => match take_fault(alloc, words.fault, shelf) {
            Err(failure) => Err(failure),
            Ok(change) => Ok((loaded, change)),
        },
    }
}
