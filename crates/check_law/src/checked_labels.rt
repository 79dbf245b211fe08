//! The law that replacing names by positions leaves the labels of each clause of a `switch`.

ghost use Rattle.check_law.specs.Laws.{StaysLabelled};

/// Where no clause in a program is without a label, none is in the program whose names have been replaced by positions.
pub fn stays_labelled()
    ensures { StaysLabelled }
{}
