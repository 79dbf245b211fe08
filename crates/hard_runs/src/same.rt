//! Two runs that are the same observed from outside: laws, each the contract of a call that does nothing.

ghost use Rattle.hard_runs.specs.Observed.{SameReflexive, SameTransitive, SameRenamed, SameWhereMet};

/// Each run is the same as itself, observed from outside.
pub fn same_reflexive<E>()
    ensures { SameReflexive E }
{}

/// What is the same as a run that is the same as a third is the same as the third, observed from outside.
pub fn same_transitive<E>()
    ensures { SameTransitive E }
{}

/// Runs that are the same, observed from outside, stay so where their ends are named otherwise.
pub fn same_renamed<E, F>()
    ensures { SameRenamed E F }
{}

/// A machine that comes to all that another run shows, and not sooner, is the same observed from outside.
pub fn same_where_met<E>()
    ensures { SameWhereMet E }
{}
