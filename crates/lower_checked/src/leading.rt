//! The law of the ends of blocks of a lowered program, the contract of a call that does nothing.

ghost use Rattle.lower_checked.specs.Leading.{LowersInside};

/// Each end of a block of a lowered program leads to blocks that are there.
pub fn leads_inside()
    ensures { LowersInside }
{}
