//! The command that makes a program.

ghost use Rattle.std.specs.Prelude.{Some, IsTrue};
ghost use Rattle.hard_shelf.specs.Outside.{Rose};
ghost use Rattle.tool_words.specs.Commands.{Make};
ghost use Rattle.tool_outcomes.specs.Parts.{Leaves};

use hard_shelf::{Shelf, Sink};
use hard_words::OutOfMemory;
use program_maker::make;
use std::alloc::Global;
use tool_outcomes::{Failure, put_and_say, report};
use tool_words::MakeWords;

/// The words `make NUMBER SIZE OUT`: the made program is put, and `made` is written.
pub fn make_program<H: Shelf, O: Sink>(
    alloc: Global,
    words: &MakeWords<'_>,
    shelf: &mut H,
    out: &mut O,
) -> u8
    ensures { Leaves (IsTrue (H.tells shelf.old)) (H.held shelf.old) (H.held shelf.new) (Rose (H.faults shelf.old) (H.faults shelf.new))
        (IsTrue (O.tells out.old)) (O.written out.old) (O.written out.new) (Rose (O.faults out.old) (O.faults out.new))
        (Some (Make words.now.number words.now.size words.now.out.now)) result }
{
    match make(alloc, words.number, words.size) {
        Err(OutOfMemory) => report(out, Failure::Memory),
        Ok(text) => put_and_say(words.out, &text, b"made\n", shelf, out),
    }
}
