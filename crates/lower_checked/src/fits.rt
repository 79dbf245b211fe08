//! What a checked program gives to lowering.

ghost use Rattle.lower_checked.specs.Fits.{CheckedFits};

/// A checked program whose literals are words can be lowered: its names stand for what their uses need, void calls stand only where no value
/// is needed, jumps lead somewhere, and what its variables begin with are words.
pub fn checked_fits()
    ensures { CheckedFits }
{}
