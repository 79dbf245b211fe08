//! The run of a checked program, turn by turn.

ghost use Rattle.std.specs.Prelude.{IfOk};
ghost use Rattle.c_meaning.specs.Meaning.{run_of};
ghost use Rattle.check_rules.specs.Limits.{resolved_names};
ghost use Rattle.c_eval.specs.Running.{RestIs, Answers};

use crate::machine::Machine;
use crate::turn::Turn;
use c_calls::recursive_functions;
use check_rules::Checked;
use hard_words::OutOfMemory;
use std::alloc::Global;
use std::marker::Model;

/// The run of a checked program, which goes on turn by turn. Contracts see the output and the end that are still to
/// come, and how much work is left at most; they see nothing where memory was wanting.
#[derive(Drop)]
pub struct Evaluator<'a> {
    /// Where its memory comes from.
    alloc: Global,
    /// The run.
    machine: Machine<'a>,
    /// Whether memory was wanting.
    failed: bool,
}

impl<'a> Model for Evaluator<'a> {
    ghost use Rattle.std.specs.Prelude.{Option};
    ghost use Rattle.c_eval.specs.Running.{Running};

    ghost Value = { Option Running };

    ghost use Rattle.c_eval.specs.Rest.{seen_unless};

    ghost view = { λ e. seen_unless e.failed e.machine };
}

impl<'a> Evaluator<'a> {
    /// The run of a checked program at its start, with this input and so much fuel.
    pub fn start(
        alloc: Global,
        checked: &'a Checked,
        feed: Vec<u32>,
        turns: u64,
    ) -> Result<Evaluator<'a>, OutOfMemory>
        ensures { IfOk result (λ e. RestIs (run_of (resolved_names checked.entry.now) checked.entry.now.program feed.items turns) e) }
    {
        let recursive = recursive_functions(alloc, checked.program().items.as_slice())?;
        let machine = Machine::start(alloc, checked, recursive, feed, turns)?;
        Ok(Evaluator {
            alloc,
            machine,
            failed: false,
        })
    }

    /// A piece of work, a word that is put out, or the end, which then stays. Where memory was wanting, it is wanting in
    /// each later turn.
    pub fn turn(&mut self) -> Result<Turn, OutOfMemory>
        ensures { Answers result self.old self.new }
    {
        if self.failed {
            return Err(OutOfMemory);
        }
        match self.machine.turn(self.alloc) {
            Ok(turn) => Ok(turn),
            Err(_) => {
                self.failed = true;
                Err(OutOfMemory)
            }
        }
    }
}
