//! The files that a command reads: each is taken, and refused where it is bad.

ghost use Rattle.std.specs.Prelude.{◌≡◌, ◌≢◌, ◌⊎◌, ◌≤◌, [], ◌∷◌, Some, None, IsTrue, IfOk, IfErr, IsErrOf, IfSome, length};
ghost use Rattle.elf_image.specs.Bounds.{Fits};
ghost use Rattle.elf_image.specs.Layout.{fields_of};
ghost use Rattle.hard_shelf.specs.Outside.{Rose, SameNames, HoldsMore};
ghost use Rattle.mips_isa.specs.Runs.{IsChange};
ghost use Rattle.tool_outcomes.specs.Files.{Holds, ImageFile, InputFile, FaultFile, IsRunnable, IsInput, IsFault, longest_fault};
ghost use Rattle.tool_outcomes.specs.Parts.{Explains, Reads};

use crate::failure::Failure;
use elf_image::{Image, ImageError, LONGEST_FILE, read_image};
use hard_lines::{LinesError, read_fault, read_inputs};
use hard_shelf::{Shelf, ShelfError};
use hard_words::Change;
use std::alloc::Global;

// The greatest number of bytes of an input.
const LONGEST_INPUT: u64 = 16_777_216;

// The greatest number of bytes of a file of a fault.
const LONGEST_FAULT: u64 = 256;

/// The bytes under a name, at most so many; `large` is the failure where they are more.
pub fn take_file<H: Shelf>(
    alloc: Global,
    name: &str,
    most: u64,
    large: Failure,
    shelf: &mut H,
) -> Result<Vec<u8>, Failure>
    requires { large ≢ Failure.Shelf }
    ensures tells { H.tells shelf.new ≡ H.tells shelf.old }
    ensures same { SameNames (H.held shelf.old) (H.held shelf.new) }
    ensures count { H.faults shelf.old ≤ H.faults shelf.new }
    ensures short { IfOk result (λ bytes. length bytes.items ≤ most) }
    ensures held { IfOk result (λ bytes. IsTrue (H.tells shelf.old) → H.held shelf.old name.now ≡ Some bytes.items) }
    ensures explained { IfErr result (λ failure. IsTrue (H.tells shelf.old) →
        Explains (λ why. (why ≡ large) × HoldsMore (H.held shelf.old name.now) most) failure) }
    ensures shelf { IsErrOf result Failure.Shelf → Rose (H.faults shelf.old) (H.faults shelf.new) ⊎
        (IsTrue (H.tells shelf.old) × (H.held shelf.old name.now ≡ None)) }
{
    match shelf.take(alloc, name, most) {
        Ok(bytes) => Ok(bytes),
        Err(ShelfError::TooLarge) => Err(large),
        Err(ShelfError::OutOfMemory) => Err(Failure::Memory),
        Err(ShelfError::Absent) => Err(Failure::Shelf),
        Err(ShelfError::Failed) => Err(Failure::Shelf),
    }
}

/// The image under a name.
pub fn take_image<H: Shelf>(alloc: Global, name: &str, shelf: &mut H) -> Result<Image, Failure>
    ensures tells { H.tells shelf.new ≡ H.tells shelf.old }
    ensures same { SameNames (H.held shelf.old) (H.held shelf.new) }
    ensures count { H.faults shelf.old ≤ H.faults shelf.new }
    ensures fits { IfOk result (λ image. Fits (fields_of image)) }
    ensures reads { Reads (IsTrue (H.tells shelf.old)) (H.held shelf.old) (Rose (H.faults shelf.old) (H.faults shelf.new)) (ImageFile name.now ∷ [])
        (λ image. Holds (H.held shelf.old) name.now (λ bytes. IsRunnable bytes (fields_of image))) result }
{
    match take_file(alloc, name, LONGEST_FILE, Failure::LargeImage, shelf) {
        Err(failure) => Err(failure),
        Ok(bytes) => match read_image(alloc, &bytes) {
            Ok(image) => Ok(image),
            Err(error) => Err(image_failure(error)),
        },
    }
}

/// The numbers of the input under a name, at most 1,000,000.
pub fn take_input<H: Shelf>(alloc: Global, name: &str, shelf: &mut H) -> Result<Vec<u32>, Failure>
    ensures tells { H.tells shelf.new ≡ H.tells shelf.old }
    ensures same { SameNames (H.held shelf.old) (H.held shelf.new) }
    ensures count { H.faults shelf.old ≤ H.faults shelf.new }
    ensures few { IfOk result (λ feed. length feed.items ≤ 1000000) }
    ensures reads { Reads (IsTrue (H.tells shelf.old)) (H.held shelf.old) (Rose (H.faults shelf.old) (H.faults shelf.new)) (InputFile name.now ∷ [])
        (λ feed. Holds (H.held shelf.old) name.now (λ text. IsInput text feed.items)) result }
{
    match take_file(alloc, name, LONGEST_INPUT, Failure::LargeInput, shelf) {
        Err(failure) => Err(failure),
        Ok(text) => match read_inputs(alloc, &text) {
            Ok(feed) => Ok(feed),
            Err(error) => Err(input_failure(error)),
        },
    }
}

/// The change that the file of a fault under a name stands for.
pub fn take_fault<H: Shelf>(alloc: Global, name: &str, shelf: &mut H) -> Result<Change, Failure>
    ensures tells { H.tells shelf.new ≡ H.tells shelf.old }
    ensures same { SameNames (H.held shelf.old) (H.held shelf.new) }
    ensures count { H.faults shelf.old ≤ H.faults shelf.new }
    ensures change { IfOk result (λ change. IsChange change.kind) }
    ensures reads { Reads (IsTrue (H.tells shelf.old)) (H.held shelf.old) (Rose (H.faults shelf.old) (H.faults shelf.new)) (FaultFile name.now ∷ [])
        (λ change. Holds (H.held shelf.old) name.now (λ text. IsFault text change)) result }
{
    match take_file(alloc, name, LONGEST_FAULT, Failure::LargeFault, shelf) {
        Err(failure) => Err(failure),
        Ok(text) => match read_fault(&text) {
            Ok(change) => Ok(change),
            Err(error) => Err(Failure::Fault(error)),
        },
    }
}

// The failure of a command whose image is not read.
fn image_failure(error: ImageError) -> Failure
    ensures { ((error ≡ ImageError.OutOfMemory) × (result ≡ Failure.Memory)) ⊎ ((error ≢ ImageError.OutOfMemory) × (result ≡ Failure.Image error)) }
{
    match error {
        ImageError::OutOfMemory => Failure::Memory,
        _ => Failure::Image(error),
    }
}

// The failure of a command whose input is not read.
fn input_failure(error: LinesError) -> Failure
    ensures { ((error ≡ LinesError.OutOfMemory) × (result ≡ Failure.Memory)) ⊎ ((error ≢ LinesError.OutOfMemory) × (result ≡ Failure.Input error)) }
{
    match error {
        LinesError::OutOfMemory => Failure::Memory,
        _ => Failure::Input(error),
    }
}
