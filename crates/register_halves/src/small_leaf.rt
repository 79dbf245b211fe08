//! Programs of one small function that calls nothing: its variables need no slots. Nothing here runs.

ghost use Rattle.register_halves.specs.Leaf.{LeafHasNoSlots};

use crate::laws::few_variables;

/// A valid function of at most eight variables that calls nothing, assigned to the eight pairs of registers, has no variable in a slot.
/// The call does nothing; its contract is the law.
pub fn leaf_has_no_slots()
    ensures { LeafHasNoSlots }
{
    few_variables();
}
