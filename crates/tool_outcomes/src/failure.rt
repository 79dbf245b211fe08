//! Why a command is not done, and what is said of it.

ghost use Rattle.std.specs.Prelude.{◌≡◌, ◌⊎◌, IsTrue, is_ok, if◌then◌else◌};
ghost use Rattle.hard_shelf.specs.Outside.{Rose};
ghost use Rattle.tool_outcomes.specs.Failures.{line_of, status_of};
ghost use Rattle.tool_outcomes.specs.Parts.{Said};

use crate::refusal_lines::{
    fault_line, fault_too_large, image_line, image_too_large, input_line, input_too_large,
    source_line,
};
use compile_rules::Refusal;
use elf_image::ImageError;
use hard_lines::{FaultError, LinesError};
use hard_shelf::{Sink, SinkFault};
use hard_words::OutOfMemory;

/// The status of a call that did all.
pub const DONE: u8 = 0;

/// The status of a call whose words are no command.
pub const USAGE: u8 = 2;

/// The status of an audit that does not pass.
pub const NOT_PASSED: u8 = 10;

/// The status of a call whose sink failed.
pub const SINK_FAULT: u8 = 8;

/// The status of a call that had no memory.
pub const NO_MEMORY: u8 = 9;

/// Why a command is not done.
#[derive(Clone, Copy, Debug, PartialEq, Eq)]
pub enum Failure {
    /// The source is refused.
    Source(Refusal),
    /// The image is refused.
    Image(ImageError),
    /// The image has more than 3,221,225,472 bytes.
    LargeImage,
    /// The file of the fault is refused.
    Fault(FaultError),
    /// The file of the fault has more than 256 bytes.
    LargeFault,
    /// The input is refused.
    Input(LinesError),
    /// The input has more than 16,777,216 bytes.
    LargeInput,
    /// The shelf failed, or a file is not there.
    Shelf,
    /// There was no memory.
    Memory,
}

impl From<OutOfMemory> for Failure {
    ghost use Rattle.tool_outcomes.specs.declared.failure.Failure.TheVariants.{Memory};

    ghost from_gives = { λ _ failure. failure ≡ Memory };

    fn from(_error: OutOfMemory) -> Failure {
        Failure::Memory
    }
}

/// Says why a command is not done, and answers the status. Nothing is said of the shelf and of memory.
pub fn report<O: Sink>(out: &mut O, failure: Failure) -> u8
    ensures said { Said (IsTrue (O.tells out.old)) (O.written out.old) (O.written out.new) (Rose (O.faults out.old) (O.faults out.new))
        (line_of failure) (status_of failure) result }
    ensures silent { (status_of failure ≡ 7) ⊎ (status_of failure ≡ 9) → (result ≡ status_of failure) × (IsTrue (O.tells out.old) → O.written out.new ≡ O.written out.old) }
{
    match failure {
        Failure::Source(refusal) => say(out, source_line(refusal).as_slice(), 3),
        Failure::Image(error) => say(out, image_line(error).as_slice(), 4),
        Failure::LargeImage => say(out, image_too_large(), 4),
        Failure::Fault(error) => say(out, fault_line(error).as_slice(), 5),
        Failure::LargeFault => say(out, fault_too_large(), 5),
        Failure::Input(error) => say(out, input_line(error).as_slice(), 6),
        Failure::LargeInput => say(out, input_too_large(), 6),
        Failure::Shelf => 7,
        Failure::Memory => NO_MEMORY,
    }
}

/// Writes a line, and answers the status, or that the sink failed.
pub fn say<O: Sink>(out: &mut O, line: &[u8], status: u8) -> u8
    ensures { Said (IsTrue (O.tells out.old)) (O.written out.old) (O.written out.new) (Rose (O.faults out.old) (O.faults out.new)) line.now status result }
{
    match out.write(line) {
        Ok(()) => status,
        Err(_) => SINK_FAULT,
    }
}

/// The status of a text that was written, or not.
pub fn status_of_text(work: Result<(), SinkFault>) -> u8
    ensures { result ≡ (if is_ok work then 0 else 8) }
{
    match work {
        Ok(()) => DONE,
        Err(_) => SINK_FAULT,
    }
}
