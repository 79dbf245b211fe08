//! Laws of checked programs, each the contract of a call that does nothing.

ghost use Rattle.lower_checked.specs.Laws.{HasMain, HasFewBlocks, HasLightFrames, HasOneEach, HasRoom};

/// A checked program has a `main` with a body and without parameters.
pub fn has_main()
    ensures { HasMain }
{}

/// A checked program costs few blocks.
pub fn few_blocks()
    ensures { HasFewBlocks }
{}

/// A call of a function of a checked program takes few pairs.
pub fn light_frames()
    ensures { HasLightFrames }
{}

/// Each function with a body of a checked program is the first of its name.
pub fn one_each()
    ensures { HasOneEach }
{}

/// The variables at file scope of a checked program and the chains of its calls have room.
pub fn has_room()
    ensures { HasRoom }
{}
