//! A law of the spans of a function's variables: the call does nothing, and its contract is the law.

ghost use Rattle.register_halves.specs.Assigned.{FewVariables};

/// Of a function with at most so many variables at most so many spans overlap; so with as many pairs, only variables that
/// are live across a Call are in slots.
pub fn few_variables()
    ensures { FewVariables }
{}
