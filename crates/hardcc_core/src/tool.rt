//! The top call.

ghost use Rattle.std.specs.Prelude.{◌≡◌, ◌⊎◌, ◌++◌, List, ℕ, None, IsTrue};
ghost use Rattle.hard_shelf.specs.Outside.{Rose, SameNames, AppendsPart};
ghost use Rattle.tool_outcomes.specs.declared.failure.Failure.{Failure};
ghost use Rattle.tool_words.specs.Commands.{command};
ghost use Rattle.tool_outcomes.specs.Failures.{status_of};
ghost use Rattle.tool_outcomes.specs.Outcomes.{Misses, Refuses, Accepts, IsAudit, IsEval, FailsAudit, Audited, Puts, Done, Says, IsRefusal};
ghost use Rattle.run_audit.specs.declared.error.AuditError.{AuditError};
ghost use Rattle.tool_outcomes.specs.Parts.{Leaves};

use crate::self_file::self_run;
use hard_shelf::{Shelf, Sink};
use std::alloc::Global;
use tool_commands::{
    audit_image, compile_file, count_flips, eval_source, list_pairs, make_program, run_changed,
    run_image,
};
use tool_outcomes::{USAGE, say};
use tool_words::{Command, command_of};

/// Does what the words of the command line, the program's name left out, say, and answers a status.
///
/// | Words | What is done |
/// |---|---|
/// | `compile SRC IMG` | the source is compiled, and its image put; `compiled` is written |
/// | `compile-split SRC IMG` | the same, but each critical edge gets a block of its own, so that the image has no aliases |
/// | `run IMG INPUT STEPS` | the image is run on the input, for at most so many steps; the run is written |
/// | `fault IMG INPUT STEPS FAULTFILE` | the same with the change that the file of a fault says |
/// | `audit IMG INPUT STEPS` | the audit of the image on the input, of at most so many steps, is made; what it finds is written |
/// | `campaign IMG INPUT STEPS FROM TO` | flips at the steps from FROM up to TO are tried, each in a run of its own; how often each outcome came is written |
/// | `list IMG` | the windows and aliases that the image lists are written |
/// | `eval SRC INPUT TURNS` | the program of the source is run on the input as the language means it, with so much fuel; the run is written, as its words come |
/// | `selfrun NUMBER SIZE STEPS` | the program of a number, with so many functions, is compiled, and its image put under the name `self.img`; the lines tell how many bytes the program has, how many words the run of that image without input, for at most so many steps, puts out, their sum modulo 2^32, and how the run stands |
/// | `make NUMBER SIZE OUT` | the program of a number, with so many functions, is put; `made` is written |
///
/// | Status | Comes |
/// |---|---|
/// | 0 | all is done, and the text of it was written |
/// | 2 | the words are no command; the line is `usage` |
/// | 3 | the source is refused, or the program that `selfrun` makes is; the line says why |
/// | 4 | the image is refused; the line says why |
/// | 5 | the file of a fault is refused; the line says why |
/// | 6 | the input is refused; the line says why |
/// | 7 | the shelf failed, or a file that is read is not there; nothing is written |
/// | 8 | the sink failed; a part of the text may stand |
/// | 9 | there was no memory; nothing is written, but of `eval` a part of the text may stand |
/// | 10 | the audit does not pass; the line says why |
///
/// The files are taken in the order of the words, and each is refused before the next is taken. Each
/// line is one write.
pub fn run_tool<H: Shelf, O: Sink>(
    alloc: Global,
    words: &Vec<String>,
    shelf: &mut H,
    out: &mut O,
) -> u8
    ensures statuses { (result ≡ 0) ⊎ (result ≡ 2) ⊎ IsRefusal result ⊎ (result ≡ 7) ⊎ (result ≡ 8) ⊎ (result ≡ 9) ⊎ (result ≡ 10) }

    // What was promised is done.
    ensures done { result ≡ 0 → IsTrue (H.tells shelf.old) → Done (H.held shelf.old) (H.held shelf.new) (command words.now.items) }
    ensures audited { result ≡ 0 → IsTrue (H.tells shelf.old) → Audited (H.held shelf.old) (command words.now.items) }
    ensures complete { IsTrue (H.tells shelf.old) → Accepts (H.held shelf.old) (command words.now.items) →
        (Rose (H.faults shelf.old) (H.faults shelf.new) → ⊥) → (Rose (O.faults out.old) (O.faults out.new) → ⊥) → (result ≡ 0) ⊎ (result ≡ 9) }

    // Each refusal has its cause, and each cause its refusal, unless the outside or memory fails.
    ensures usage { result ≡ 2 → command words.now.items ≡ None }
    ensures no_command { command words.now.items ≡ None → (result ≡ 2) ⊎ (result ≡ 8) }
    ensures refused { IsRefusal result → IsTrue (H.tells shelf.old) →
        (failure : Failure) × (status_of failure ≡ result) × Refuses (H.held shelf.old) (command words.now.items) failure }
    ensures refuses { (failure : Failure) → IsTrue (H.tells shelf.old) → Refuses (H.held shelf.old) (command words.now.items) failure →
        (result ≡ status_of failure) ⊎ (result ≡ 7) ⊎ (result ≡ 8) ⊎ (result ≡ 9) }
    ensures only_audits { result ≡ 10 → IsAudit (command words.now.items) }
    ensures failed_audit { result ≡ 10 → IsTrue (H.tells shelf.old) →
        (error : AuditError) × FailsAudit (H.held shelf.old) (command words.now.items) error }
    ensures fails_audit { (error : AuditError) → IsTrue (H.tells shelf.old) → FailsAudit (H.held shelf.old) (command words.now.items) error →
        (result ≡ 10) ⊎ (result ≡ 7) ⊎ (result ≡ 8) ⊎ (result ≡ 9) }
    ensures shelf_fault { result ≡ 7 → Rose (H.faults shelf.old) (H.faults shelf.new) ⊎
        (IsTrue (H.tells shelf.old) × Misses (H.held shelf.old) (command words.now.items)) }
    ensures sink_fault { result ≡ 8 → Rose (O.faults out.old) (O.faults out.new) }

    // What stands on the shelf.
    ensures others { IsTrue (H.tells shelf.old) → (name : List ℕ) → (Puts (command words.now.items) name → ⊥) →
        H.held shelf.new name ≡ H.held shelf.old name }
    ensures nothing_put { (result ≡ 2) ⊎ IsRefusal result ⊎ (result ≡ 9) ⊎ (result ≡ 10) → IsTrue (H.tells shelf.old) →
        SameNames (H.held shelf.old) (H.held shelf.new) }
    ensures unless_accepted { IsTrue (H.tells shelf.old) → (Accepts (H.held shelf.old) (command words.now.items) → ⊥) →
        SameNames (H.held shelf.old) (H.held shelf.new) }
    ensures put_where_accepted { result ≡ 8 → IsTrue (H.tells shelf.old) → Done (H.held shelf.old) (H.held shelf.new) (command words.now.items) ⊎
        ((Accepts (H.held shelf.old) (command words.now.items) → ⊥) × SameNames (H.held shelf.old) (H.held shelf.new)) }

    // What stands in the sink.
    ensures said { (result ≡ 0) ⊎ (result ≡ 2) ⊎ IsRefusal result ⊎ (result ≡ 10) → IsTrue (H.tells shelf.old) → IsTrue (O.tells out.old) →
        (text : List ℕ) × Says (H.held shelf.old) (H.held shelf.new) (command words.now.items) text × (O.written out.new ≡ O.written out.old ++ text) }
    ensures part_said { result ≡ 8 → IsTrue (H.tells shelf.old) → IsTrue (O.tells out.old) →
        (text : List ℕ) × Says (H.held shelf.old) (H.held shelf.new) (command words.now.items) text × AppendsPart (O.written out.old) (O.written out.new) text }
    ensures silent { (result ≡ 7) ⊎ ((result ≡ 9) × (IsEval (command words.now.items) → ⊥)) → IsTrue (O.tells out.old) → O.written out.new ≡ O.written out.old }
    ensures begun { result ≡ 9 → IsTrue (H.tells shelf.old) → IsTrue (O.tells out.old) → (O.written out.new ≡ O.written out.old) ⊎
        ((text : List ℕ) × Says (H.held shelf.old) (H.held shelf.new) (command words.now.items) text × AppendsPart (O.written out.old) (O.written out.new) text) }
{
    status(alloc, words, shelf, out)
}

// The same, its promises in one.
fn status<H: Shelf, O: Sink>(alloc: Global, words: &Vec<String>, shelf: &mut H, out: &mut O) -> u8
    ensures { Leaves (IsTrue (H.tells shelf.old)) (H.held shelf.old) (H.held shelf.new) (Rose (H.faults shelf.old) (H.faults shelf.new))
        (IsTrue (O.tells out.old)) (O.written out.old) (O.written out.new) (Rose (O.faults out.old) (O.faults out.new))
        (command words.now.items) result }
{
    match command_of(words) {
        None => say(out, b"usage\n", USAGE),
        Some(Command::Compile(words)) => compile_file(alloc, &words, shelf, out),
        Some(Command::Run(words)) => run_image(alloc, &words, shelf, out),
        Some(Command::Fault(words)) => run_changed(alloc, &words, shelf, out),
        Some(Command::Audit(words)) => audit_image(alloc, &words, shelf, out),
        Some(Command::Campaign(words)) => count_flips(alloc, &words, shelf, out),
        Some(Command::List(words)) => list_pairs(alloc, &words, shelf, out),
        Some(Command::Eval(words)) => eval_source(alloc, &words, shelf, out),
        Some(Command::SelfRun(words)) => self_run(alloc, &words, shelf, out),
        Some(Command::Make(words)) => make_program(alloc, &words, shelf, out),
    }
}
