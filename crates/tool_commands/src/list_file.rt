//! The command that lists the windows and the aliases of an image.

ghost use Rattle.std.specs.Prelude.{◌≡◌, ◌≤◌, Some, IsTrue, length};
ghost use Rattle.std.specs.List.{flat_map};
ghost use Rattle.elf_image.specs.Layout.{fields_of};
ghost use Rattle.hard_shelf.specs.Outside.{Rose};
ghost use Rattle.tool_words.specs.Commands.{ListPairs};
ghost use Rattle.tool_outcomes.specs.Pairs.{window_line, alias_line, count_line, pair_lines};
ghost use Rattle.tool_outcomes.specs.Parts.{Leaves, Writes};

use arrayvec::ArrayVec;
use elf_image::Image;
use fault_replay::{Line, put, put_address, put_number};
use hard_shelf::{Shelf, Sink, SinkFault};
use std::alloc::Global;
use tool_outcomes::{report, status_of_text, take_image};
use tool_words::ListWords;

/// The words `list IMG`: a line for each window, a line for each alias, and how many there are.
pub fn list_pairs<H: Shelf, O: Sink>(
    alloc: Global,
    words: &ListWords<'_>,
    shelf: &mut H,
    out: &mut O,
) -> u8
    ensures { Leaves (IsTrue (H.tells shelf.old)) (H.held shelf.old) (H.held shelf.new) (Rose (H.faults shelf.old) (H.faults shelf.new))
        (IsTrue (O.tells out.old)) (O.written out.old) (O.written out.new) (Rose (O.faults out.old) (O.faults out.new))
        (Some (ListPairs words.now.image.now)) result }
{
    match take_image(alloc, words.image, shelf) {
        Err(failure) => report(out, failure),
        Ok(image) => status_of_text(write_pairs(&image, out)),
    }
}

// Writes the lines of an image's lists.
fn write_pairs<O: Sink>(image: &Image, out: &mut O) -> Result<(), SinkFault>
    ensures tells { O.tells out.new ≡ O.tells out.old }
    ensures count { O.faults out.old ≤ O.faults out.new }
    ensures writes { Writes (IsTrue (O.tells out.old)) (O.written out.old) (O.written out.new) (Rose (O.faults out.old) (O.faults out.new))
        (pair_lines (fields_of image.now)) result }
{
    write_windows(image.windows.as_slice(), out)?;
    write_aliases(image.aliases.as_slice(), out)?;
    out.write(count_line(image.windows.len(), image.aliases.len()).as_slice())
}

// Writes a line for each window.
fn write_windows<O: Sink>(windows: &[(u32, u8)], out: &mut O) -> Result<(), SinkFault>
    ensures tells { O.tells out.new ≡ O.tells out.old }
    ensures count { O.faults out.old ≤ O.faults out.new }
    ensures writes { Writes (IsTrue (O.tells out.old)) (O.written out.old) (O.written out.new) (Rose (O.faults out.old) (O.faults out.new))
        (flat_map window_line windows.now) result }
{
    for window in windows {
        out.write(window_line(*window).as_slice())?;
    }
    Ok(())
}

// Writes a line for each alias.
fn write_aliases<O: Sink>(aliases: &[(u32, u32)], out: &mut O) -> Result<(), SinkFault>
    ensures tells { O.tells out.new ≡ O.tells out.old }
    ensures count { O.faults out.old ≤ O.faults out.new }
    ensures writes { Writes (IsTrue (O.tells out.old)) (O.written out.old) (O.written out.new) (Rose (O.faults out.old) (O.faults out.new))
        (flat_map alias_line aliases.now) result }
{
    for alias in aliases {
        out.write(alias_line(*alias).as_slice())?;
    }
    Ok(())
}

#[tactic(auto, unfolding(tool_outcomes::specs::Pairs::window_line))]
fn window_line(window: (u32, u8)) -> Line
    ensures { result.items ≡ window_line window }
{
    let mut line = ArrayVec::new();
    put(&mut line, b"window ");
    put_address(&mut line, window.0);
    put(&mut line, b" $");
    put_number(&mut line, window.1 as u64);
    line.push(b'\n');
    line
}

#[tactic(auto, unfolding(tool_outcomes::specs::Pairs::alias_line))]
fn alias_line(alias: (u32, u32)) -> Line
    ensures { result.items ≡ alias_line alias }
{
    let mut line = ArrayVec::new();
    put(&mut line, b"alias ");
    put_address(&mut line, alias.0);
    put(&mut line, b" ");
    put_address(&mut line, alias.1);
    line.push(b'\n');
    line
}

#[tactic(auto, unfolding(tool_outcomes::specs::Pairs::count_line))]
fn count_line(windows: usize, aliases: usize) -> Line
    ensures { result.items ≡ count_line windows aliases }
{
    let mut line = ArrayVec::new();
    put(&mut line, b"windows ");
    put_number(&mut line, windows as u64);
    put(&mut line, b" aliases ");
    put_number(&mut line, aliases as u64);
    line.push(b'\n');
    line
}
