//! What the far form of branches keeps. Each call does nothing; its contract is the law.

ghost use Rattle.layout_moves_law.specs.WidenLawLaw.{WidenedKeepsRuns, WidenedKeepsCounts, WidenedReaches, WidenedCanBeLaid};

/// The far form of a program whose streams are apart runs the same, and keeps that they are apart, its checks and its order of loads
/// and products.
pub fn widened_keeps_runs()
    ensures { WidenedKeepsRuns }
{}

/// What is counted of the far form: its blocks, branches, loads through the stack pointers and words; and the streams take turns
/// where they did.
pub fn widened_keeps_counts()
    ensures { WidenedKeepsCounts }
{}

/// In the far form each branch reaches its block.
pub fn widened_reaches()
    ensures { WidenedReaches }
{}

/// The far form can be laid out.
pub fn widened_can_be_laid()
    ensures { WidenedCanBeLaid }
{}
