//! The calls of a lowered program have room, where what is allowed is at least what the chains of calls of `main` take.

ghost use Rattle.lower_calls_law.specs.LoweringChainsLaws.{ShallowInRoom};

/// The calls of a lowered program have room.
pub fn shallow_in_room()
    ensures { ShallowInRoom }
{}
