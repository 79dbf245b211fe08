//! The numbers in a lowered program are words.

ghost use Rattle.lower_size_law.specs.LoweringWordsLaws.{StaysWords};

/// The words that a lowered program sets variables to, and those of its globals, are words.
pub fn stays_words()
    ensures { StaysWords }
{}
