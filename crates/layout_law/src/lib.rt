//! What the words of a signed program of items keep. Each call does nothing; its contract is the law.
#![tactic(auto)]

ghost use Rattle.layout_law.specs.Level.{RunsInStep, CanBeLaid};
ghost use Rattle.layout_law.specs.Typed.{WordsAreTyped};
ghost use Rattle.layout_law.specs.Laws.{HeadsFollow, HeadsNeverReport, SignedInStep, SignedWordsSame, TextLength, StartsAreBlocks, WordsArePlaced, WordsNeverReport};

/// What the layout takes of a signed program gives what its law takes of the program with heads.
pub fn can_be_laid()
    ensures { CanBeLaid }
{}

/// After each number of steps the words and the items have put out the same and stand at the same place, with the same memory,
/// HI, LO and registers, addresses standing for the numbers of blocks; register 25 aside between the halves of a return address.
pub fn runs_in_step()
    ensures { RunsInStep }
{}

/// The run with heads is the run of the items, but for the registers of the signatures.
pub fn heads_follow()
    ensures { HeadsFollow }
{}

/// Where no run of the items reports, none of the runs with heads does.
pub fn heads_never_report()
    ensures { HeadsNeverReport }
{}

/// After each number of steps the words of a signed program stand beside its run with heads.
pub fn signed_in_step()
    ensures { SignedInStep }
{}

/// The words of a signed program are the same observed from outside as its items.
pub fn signed_words_same()
    ensures { SignedWordsSame }
{}

/// A text has one word for each item and seven for each head.
pub fn text_length()
    ensures { TextLength }
{}

/// The starts of a text are the addresses of its blocks.
pub fn starts_are_blocks()
    ensures { StartsAreBlocks }
{}

/// The words of a guarded program with heads keep the ten rules of the lint.
pub fn words_are_typed()
    ensures { WordsAreTyped }
{}

/// Each word that comes next is placed.
pub fn words_are_placed()
    ensures { WordsArePlaced }
{}

/// No word reports.
pub fn words_never_report()
    ensures { WordsNeverReport }
{}
