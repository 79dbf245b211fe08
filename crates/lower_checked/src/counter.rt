//! Laws of the counter of nested calls, each the contract of a call that does nothing.

ghost use Rattle.lower_checked.specs.Counter.{NoneWhereFlat, CounterUnused, TrimmedIsValid, HasLoweredRoom};

/// Where `main` reaches no function that reaches itself, none is left that does.
pub fn none_recursive()
    ensures { NoneWhereFlat }
{}

/// Where no function that is left reaches itself, no step uses the counter of nested calls.
pub fn counter_unused()
    ensures { CounterUnused }
{}

/// And without the counter the program is valid.
pub fn trimmed_is_valid()
    ensures { TrimmedIsValid }
{}

/// What a checked program is lowered to has room.
pub fn lowered_room()
    ensures { HasLoweredRoom }
{}
