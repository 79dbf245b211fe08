//! Laws of runs that stand in the middle.

ghost use Rattle.eval_parts.specs.Finish.{EndsSo, OutputStays};

/// What was put out before changes nothing of what is still to come, but stays in front of the output.
pub fn output_stays()
    ensures { OutputStays }
{}

/// A run ends as its last part.
pub fn ends_so()
    ensures { EndsSo }
{}
