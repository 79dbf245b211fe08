//! Laws on programs of items whose blocks get more items: they stay well formed. The call does nothing; its contract is the law.
#![tactic(auto)]

ghost use Rattle.hard_items.specs.Keeping.{WellFormedStays};

/// A program that has the items of a well-formed program, in forms, and some more that go nowhere, is well formed and has the
/// same ways. The call does nothing; its contract is the law.
pub fn well_formed_stays()
    ensures { WellFormedStays }
{}
