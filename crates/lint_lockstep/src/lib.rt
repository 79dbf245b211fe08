//! Two runs of the machine side by side: the clean one, and one in which a fault put another word in a register, HI, LO or
//! memory just before one of its steps. What holds of them where each word of the clean run reads, writes and compares what it
//! may by what is kept at its address. The lints over this crate each say what is kept, and owe the sorts of the words.
#![tactic(auto)]

ghost use Rattle.lint_lockstep.specs.Law.{TwoRunsKept};

/// A word that a fault put in a place that is not kept is unseen or told, where tests say what is kept. The call does nothing;
/// its contract is the law. The same over any notion of what is kept is `TwoRuns`, which a clause cannot name.
pub fn two_runs_kept()
    ensures { TwoRunsKept }
{}
