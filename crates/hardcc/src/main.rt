//! The program `hardcc`: it does what the words of its command line say.
#![tactic(auto)]

ghost use Rattle.std.specs.Prelude.{◌≡◌, ◌⊎◌, IfOk, IsTrue, drop};
ghost use Rattle.std.specs.Vec.Iter.{into_iter_items};
ghost use Rattle.hard_shelf.specs.Outside.{Rose, SameNames};
ghost use Rattle.tool_words.specs.Commands.{command};
ghost use Rattle.tool_outcomes.specs.Parts.{Leaves};

use hard_shelf::{DirShelf, OutSink, Shelf, Sink};
use hardcc_core::run_tool;
use std::alloc::{AllocError, Global};
use std::env;
use std::env::Args;
use std::io::ErrorKind;
use std::process::ExitCode;
use std::rt::{Env, Files};

fn main(rt: HostRuntime) -> ExitCode {
    ExitCode::from(status(&rt))
}

// The status of the words of the command line, over the folder that the program runs in and standard output. Where one of them
// isn't UTF-8 they are no command.
fn status<R: Env + Files + Print + AllocGlobal>(rt: &R) -> u8 {
    let mut shelf = DirShelf::new(rt);
    let mut out = OutSink::new(rt);
    match env::args(rt) {
        Ok(args) => run_words(rt.alloc(), args, &mut shelf, &mut out),
        Err(error) => {
            if error.kind() == ErrorKind::OutOfMemory {
                9
            } else {
                run_tool(rt.alloc(), &Vec::new(rt.alloc()), &mut shelf, &mut out)
            }
        }
    }
}

// Does what all words behind the first, the program's name, say; or answers 9 and does nothing, where there is no memory for them.
fn run_words<H: Shelf, O: Sink>(alloc: Global, args: Args, shelf: &mut H, out: &mut O) -> u8
    ensures { Leaves (IsTrue (H.tells shelf.old)) (H.held shelf.old) (H.held shelf.new) (Rose (H.faults shelf.old) (H.faults shelf.new))
        (IsTrue (O.tells out.old)) (O.written out.old) (O.written out.new) (Rose (O.faults out.old) (O.faults out.new))
        (command (drop 1 (into_iter_items args))) result
        ⊎ ((result ≡ 9) × SameNames (H.held shelf.old) (H.held shelf.new) × (O.written out.new ≡ O.written out.old)) }
{
    match words_behind(alloc, args) {
        Err(AllocError) => 9,
        Ok(words) => run_tool(alloc, &words, shelf, out),
    }
}

// The words behind the first, the program's name, in their order and as many as there are.
fn words_behind(alloc: Global, args: Args) -> Result<Vec<String>, AllocError>
    ensures { IfOk result (λ words. words.items ≡ drop 1 (into_iter_items args)) }
{
    let mut words = Vec::new(alloc);
    let mut args = args;
    args.next();
    for word in args {
        words.push(word)?;
    }
    Ok(words)
}
