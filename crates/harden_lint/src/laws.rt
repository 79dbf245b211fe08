//! What a well typed text promises of its runs under one fault, and where its windows are. Each call does nothing; its contract
//! is the law.
ghost use Rattle.harden_lint.specs.Theorems.{Shows, ShowsWithin, ShowsFlip, ShowsFlipWithin, WindowsInside};
ghost use Rattle.harden_lint.specs.Verdict.{TypedOrBad};

/// Of a well typed text whose run is placed and does not report in its first steps: a word put in any place that is no window is
/// unseen or told within these steps.
pub fn shows_within()
    ensures { ShowsWithin }
{}

/// The same after every number of steps, where the run is placed and never reports.
pub fn shows()
    ensures { Shows }
{}

/// The same within these steps for a bit inverted in a register.
pub fn shows_flip_within()
    ensures { ShowsFlipWithin }
{}

/// The same after every number of steps for a bit inverted in a register.
pub fn shows_flip()
    ensures { ShowsFlip }
{}

/// A window is at a word of the text, and of one of the 32 registers.
pub fn windows_inside()
    ensures { WindowsInside }
{}

/// Of each text of at most 66,060,288 words there are typing rows, or a lowest address at which a rule is broken, and never both.
pub fn typed_or_bad()
    ensures { TypedOrBad }
{}
