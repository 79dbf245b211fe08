//! The signatures and the aliases of the words of a signed program. Each call does nothing; its contract is the law.

ghost use Rattle.layout_facts.specs.Words.{AliasesOfWords, SignsOfWords};

/// The aliases by blocks are those of the words, with addresses in place of numbers.
pub fn aliases_of_words()
    ensures { AliasesOfWords }
{}

/// The signatures of different blocks differ, and none is 0.
pub fn signs_of_words()
    ensures { SignsOfWords }
{}
