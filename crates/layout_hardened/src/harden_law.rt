//! The words of a guarded program in two streams are a hardened image: what its lists name apart, no single fault goes unseen.
//! Each call does nothing; its contract is the law.

ghost use Rattle.layout_hardened.specs.Laws.{CanBePrepared, WordsAreHardened, WordsRunAs, WordsHaveWays};

/// What the passes over items leave, with the marks of its graph, is prepared.
pub fn can_be_prepared()
    ensures { CanBePrepared }
{}

/// The words of a prepared and guarded program, with the lists of their text, are hardened.
pub fn words_are_hardened()
    ensures { WordsAreHardened }
{}

/// They run as the items do, are placed and never report.
pub fn words_run_as()
    ensures { WordsRunAs }
{}

/// Their blocks follow each other as those of the program, and their aliases are those of its signatures.
pub fn words_have_ways()
    ensures { WordsHaveWays }
{}
