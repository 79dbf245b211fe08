//! The tool over an outside that never fails.

ghost use Rattle.std.specs.Prelude.{◌≡◌, ◌⊎◌, [], false};
ghost use Rattle.hard_shelf.specs.Held.{kept_by};
ghost use Rattle.tool_words.specs.Commands.{command};
ghost use Rattle.tool_outcomes.specs.Outcomes.{Accepts, Done, Misses};

use crate::tool::run_tool;
use hard_shelf::{NeverFails, Sink, SinkFault};
use std::alloc::Global;

/// A sink that keeps nothing and never fails: its count of failures is 0 for good.
#[derive(Clone, Copy, Debug, PartialEq, Eq)]
pub struct Discards;

impl Sink for Discards {
    ghost tells = { λ _. false };

    ghost written = { λ _. [] };

    ghost faults = { λ _. 0 };

    fn write(&mut self, _bytes: &[u8]) -> Result<(), SinkFault> {
        Ok(())
    }
}

/// Does as [`run_tool`](crate::run_tool), over files in memory and a sink that keeps nothing: nothing fails but for want of memory.
///
/// So each command whose files are accepted answers 0, or 9 where there was no memory; 8 never comes, and 7 only where a file
/// is not there.
pub fn run_unfailing(alloc: Global, words: &Vec<String>, shelf: &mut NeverFails) -> u8
    ensures complete { Accepts (kept_by shelf.old) (command words.now.items) → (result ≡ 0) ⊎ (result ≡ 9) }
    ensures done { result ≡ 0 → Done (kept_by shelf.old) (kept_by shelf.new) (command words.now.items) }
    ensures missing { result ≡ 7 → Misses (kept_by shelf.old) (command words.now.items) }
    ensures no_sink_fault { result ≡ 8 → ⊥ }
{
    let mut out = Discards;
    run_tool(alloc, words, shelf, &mut out)
}
