//! What a turn of an evaluator did.

use c_meaning::EvalEnd;

/// What a turn did.
#[derive(Clone, Copy, Debug, PartialEq, Eq)]
pub enum Turn {
    /// A piece of work.
    Working,
    /// It put out a word.
    Put(u32),
    /// The run has ended.
    Ended(EvalEnd),
}
