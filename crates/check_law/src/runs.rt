//! Laws of checked programs.

ghost use Rattle.check_rules.specs.Resolution.{SameRun};

/// A program without fault and the program whose names are positions have the same run, for every input and every fuel.
pub fn same_run()
    ensures { SameRun }
{}
