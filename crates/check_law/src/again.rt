//! What holds of a program after its names have been resolved.

ghost use Rattle.check_law.specs.Again.{CheckedAgain, NodesStay};
ghost use Rattle.check_law.specs.Leaf.{StaysLight};

/// A program without fault, whose names have been replaced by positions, has no fault, and the walk changes nothing in it.
pub fn checked_again()
    ensures { CheckedAgain }
{}

/// A program whose names have been replaced by positions has as many nodes.
pub fn nodes_stay()
    ensures { NodesStay }
{}

/// A `main` of a weight of at most 9 that calls no function with a body is one where names have been replaced by positions.
pub fn stays_light()
    ensures { StaysLight }
{}
