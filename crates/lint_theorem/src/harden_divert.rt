//! Branches and jumps that are led elsewhere: what a well typed text promises of them. Each call does nothing; its contract is
//! the law.

ghost use Rattle.lint_theorem.specs.Divert.{StartsInside, OneHead, HeadsApart, SpansApart, KeepsNumbers, EntersAtStart, CatchesBehind, CatchesWithin};
ghost use Rattle.harden_lint.specs.Theorems.{Catches};

/// The starts of a well typed text stand in the text.
pub fn starts_inside()
    ensures { StartsInside }
{}

/// A start has one head.
pub fn one_head()
    ensures { OneHead }
{}

/// The heads of two starts have no word in common.
pub fn heads_apart()
    ensures { HeadsApart }
{}

/// A word is in the span of at most one start.
pub fn spans_apart()
    ensures { SpansApart }
{}

/// Behind the head of its block the signature registers hold the block's numbers.
pub fn keeps_numbers()
    ensures { KeepsNumbers }
{}

/// A run enters each block at its start.
pub fn enters_at_start()
    ensures { EntersAtStart }
{}

/// A branch or jump behind the head of its block is caught whatever the clean run does next.
pub fn catches_behind()
    ensures { CatchesBehind }
{}

/// A branch or jump that is led to a start that is neither a successor nor an alias is caught, where the clean run is placed and
/// does not report so far.
pub fn catches_within()
    ensures { CatchesWithin }
{}

/// The same where the clean run is placed and never reports.
pub fn catches()
    ensures { Catches }
{}
