//! Laws on doubled programs that need no run: they are well formed, their streams are twins, and they come to few words.

ghost use Rattle.double_law.specs.Laws.{DoubledTwin, DoubledCounts};

/// A doubled program is well formed, and its streams are twins. The call does nothing; its contract is the law.
pub fn doubled_twin()
    ensures { DoubledTwin }
{}

/// A doubled program comes to few words, and has no nop outside a form. The call does nothing; its contract is the law.
pub fn doubled_counts()
    ensures { DoubledCounts }
{}
