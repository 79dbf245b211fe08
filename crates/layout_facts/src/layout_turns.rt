//! The order of the two streams in the words of a signed program. The calls do nothing; their contracts are the laws.

ghost use Rattle.layout_facts.specs.Turning.{TextTurned, TextTurnedThrough};

/// The streams take turns in the words where they do in the items: a head parts the words of two blocks.
pub fn text_turned()
    ensures { TextTurned }
{}

/// The same where neither checks nor words that touch no register but 0 part a run.
pub fn text_turned_through()
    ensures { TextTurnedThrough }
{}
