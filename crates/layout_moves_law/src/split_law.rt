//! What the splitting of critical edges keeps. Each call does nothing; its contract is the law.

ghost use Rattle.layout_moves_law.specs.SplitLawLaw.{SmoothedIsSmooth, SmoothedKeepsRuns, SmoothedKeepsCounts, WidenedKeepsSmooth};

/// No edge of the split form is critical.
pub fn smoothed_is_smooth()
    ensures { SmoothedIsSmooth }
{}

/// The split form of a program whose streams are apart runs the same, and keeps that they are apart, its checks and its order of
/// loads and products.
pub fn smoothed_keeps_runs()
    ensures { SmoothedKeepsRuns }
{}

/// What is counted of the split form: its blocks, branches, loads through the stack pointers and room; and the streams take turns
/// where they did.
pub fn smoothed_keeps_counts()
    ensures { SmoothedKeepsCounts }
{}

/// The far form of branches keeps that no edge is critical.
pub fn widened_keeps_smooth()
    ensures { WidenedKeepsSmooth }
{}
