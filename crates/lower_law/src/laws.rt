//! Laws of lowered programs of which what isn't reached is left out, each the contract of a call that does nothing.

ghost use Rattle.lower_law.specs.Laws.{RunsAsTree, StaysProper, StaysShallow, FewWords, OnlyMainStays};

/// A lowered program runs as its tree does, observed from outside.
pub fn runs_as_tree()
    ensures { RunsAsTree }
{}

/// What comes next in a run of a lowered program reads only what was written, and stays within its global.
pub fn stays_proper()
    ensures { StaysProper }
{}

/// The calls of a run of a lowered program have room where each chain of calls has.
pub fn stays_shallow()
    ensures { StaysShallow }
{}

/// A lowered program comes to at most 60 words for each node of its tree.
pub fn few_words()
    ensures { FewWords }
{}

/// Where `main` calls nothing, nothing but `main` is left of a lowered program.
pub fn only_main_stays()
    ensures { OnlyMainStays }
{}
