//! The blocks and the heads of the words of a signed program. The call does nothing; its contract is the law.

ghost use Rattle.layout_facts.specs.Signed.{SignedIsLaid};

/// The starts, heads and successors that are read off the words are those of the program.
pub fn signed_is_laid()
    ensures { SignedIsLaid }
{}
