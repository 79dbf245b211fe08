//! The command that compiles a source.

ghost use Rattle.std.specs.Prelude.{◌≡◌, ◌≤◌, [], ◌∷◌, Some, IsTrue, IfOk, IfErr, IsErrOf};
ghost use Rattle.hard_shelf.specs.Outside.{Rose, SameNames};
ghost use Rattle.tool_words.specs.Commands.{Compile};
ghost use Rattle.compile_rules.specs.Compiled.{IsAccepted, IsNotCompiled};
ghost use Rattle.elf_image.specs.Bounds.{Fits};
ghost use Rattle.elf_image.specs.Layout.{fields_of};
ghost use Rattle.tool_outcomes.specs.Edges.{CompilesFor, IsImageFor};
ghost use Rattle.tool_outcomes.specs.Files.{Holds, SourceFile};
ghost use Rattle.tool_outcomes.specs.Parts.{Leaves, Reads, RefusesBytes};

use compile_chain::{LONGEST_SOURCE, compile, compile_split};
use compile_rules::Refusal;
use elf_image::{Image, write_image};
use hard_shelf::{Shelf, Sink};
use hard_words::OutOfMemory;
use std::alloc::Global;
use tool_outcomes::{Failure, put_and_say, report, take_file};
use tool_words::{CompileWords, CriticalEdges};

/// The words `compile SRC IMG` and `compile-split SRC IMG`: the image of the source is put, and `compiled` is written.
pub fn compile_file<H: Shelf, O: Sink>(
    alloc: Global,
    words: &CompileWords<'_>,
    shelf: &mut H,
    out: &mut O,
) -> u8
    ensures { Leaves (IsTrue (H.tells shelf.old)) (H.held shelf.old) (H.held shelf.new) (Rose (H.faults shelf.old) (H.faults shelf.new))
        (IsTrue (O.tells out.old)) (O.written out.old) (O.written out.new) (Rose (O.faults out.old) (O.faults out.new))
        (Some (Compile words.now.edges words.now.source.now words.now.image.now)) result }
{
    match take_compiled(alloc, words.edges, words.source, shelf) {
        Err(failure) => report(out, failure),
        Ok(file) => put_and_say(words.image, &file, b"compiled\n", shelf, out),
    }
}

// The file of the image of the source under a name.
fn take_compiled<H: Shelf>(
    alloc: Global,
    edges: CriticalEdges,
    source: &str,
    shelf: &mut H,
) -> Result<Vec<u8>, Failure>
    ensures tells { H.tells shelf.new ≡ H.tells shelf.old }
    ensures same { SameNames (H.held shelf.old) (H.held shelf.new) }
    ensures count { H.faults shelf.old ≤ H.faults shelf.new }
    ensures reads { Reads (IsTrue (H.tells shelf.old)) (H.held shelf.old) (Rose (H.faults shelf.old) (H.faults shelf.new)) (SourceFile source.now ∷ [])
        (λ file. Holds (H.held shelf.old) source.now (λ bytes. IsAccepted bytes × IsImageFor edges bytes file.items)) result }
{
    match take_file(
        alloc,
        source,
        LONGEST_SOURCE,
        Failure::Source(Refusal::TooLong),
        shelf,
    ) {
        Err(failure) => Err(failure),
        Ok(bytes) => compiled(alloc, edges, &bytes),
    }
}

// The file of the image of a source.
fn compiled(alloc: Global, edges: CriticalEdges, source: &[u8]) -> Result<Vec<u8>, Failure>
    ensures ok { IfOk result (λ file. IsAccepted source.now × IsImageFor edges source.now file.items) }
    ensures explained { IfErr result (λ failure. RefusesBytes source.now failure) }
{
    match image_of(alloc, edges, source) {
        Err(Refusal::OutOfMemory) => Err(Failure::Memory),
        Err(refusal) => Err(Failure::Source(refusal)),
        Ok(image) => match write_image(alloc, &image) {
            Ok(file) => Ok(file),
            Err(OutOfMemory) => Err(Failure::Memory),
        },
    }
}

// The image of a source.
fn image_of(alloc: Global, edges: CriticalEdges, source: &[u8]) -> Result<Image, Refusal>
    ensures ok { IfOk result (λ image. CompilesFor edges source.now (fields_of image)) }
    ensures fits { IfOk result (λ image. Fits (fields_of image)) }
    ensures accepted { IfOk result (λ image. IsAccepted source.now) }
    ensures refused { IfErr result (λ refusal. IsNotCompiled source.now refusal) }
{
    match edges {
        CriticalEdges::Kept => compile(alloc, source),
        CriticalEdges::Split => compile_split(alloc, source),
    }
}
