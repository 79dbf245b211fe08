//! A lowered program of which only what is reached is left is valid: its variables are enough, what it names is there,
//! its jumps lead to blocks that nothing else enters, and each of its functions is called.
#![tactic(auto)]

ghost use Rattle.lower_valid_law.specs.Laws.{IsValid};

/// A lowered program is valid, where its tree fits and keeps the limits, and where all that is reached is left and
/// nothing else.
pub fn lowered_is_valid()
    ensures { IsValid }
{}
