//! Which functions a lowered function calls, and that `main` is left alone where it calls none.

ghost use Rattle.lower_calls_law.specs.LoweringCallsLaws.{CallsAreCallees, OnlyMainWhereAlone};

/// Each call of a lowered function is one of its body.
pub fn calls_are_callees()
    ensures { CallsAreCallees }
{}

/// Where `main` calls no function that has a body, nothing but `main` is left of a lowered program.
pub fn only_main_where_alone()
    ensures { OnlyMainWhereAlone }
{}
