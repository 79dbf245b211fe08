//! The file that a command puts.

ghost use Rattle.std.specs.Prelude.{◌≡◌, ◌⊎◌, IsTrue};
ghost use Rattle.hard_shelf.specs.Outside.{Rose};
ghost use Rattle.tool_outcomes.specs.Parts.{PutsAndSays};

use crate::failure::{DONE, Failure, report, say};
use hard_shelf::{Shelf, ShelfError, Sink};

/// Puts a file, and then writes a line.
pub fn put_and_say<H: Shelf, O: Sink>(
    name: &str,
    file: &[u8],
    line: &[u8],
    shelf: &mut H,
    out: &mut O,
) -> u8
    ensures { PutsAndSays (IsTrue (H.tells shelf.old)) (H.held shelf.old) (H.held shelf.new) (Rose (H.faults shelf.old) (H.faults shelf.new))
        (IsTrue (O.tells out.old)) (O.written out.old) (O.written out.new) (Rose (O.faults out.old) (O.faults out.new))
        name.now file.now line.now result }
{
    match shelf.put(name, file) {
        Ok(()) => say(out, line, DONE),
        Err(ShelfError::OutOfMemory) => report(out, Failure::Memory),
        Err(ShelfError::Absent) => report(out, Failure::Shelf),
        Err(ShelfError::TooLarge) => report(out, Failure::Shelf),
        Err(ShelfError::Failed) => report(out, Failure::Shelf),
    }
}
