//! Blocks that are put behind the blocks of a program and only jump on, and what the program keeps. Each call does nothing; its
//! contract is the law.
#![tactic(auto)]

ghost use Rattle.block_relays.specs.Renumber.{RunsRenumbered};

/// A program whose blocks stand at other places runs the same, and lawfully.
pub fn runs_renumbered()
    ensures { RunsRenumbered }
{}
