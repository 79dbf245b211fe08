//! A lowered program of which only what is reached is left has at most as many blocks and branches as its tree costs.

ghost use Rattle.lower_size_law.specs.LoweringBlocksLaws.{FewBlocks};

/// The blocks and branches of a lowered program are at most what its tree costs.
pub fn few_blocks()
    ensures { FewBlocks }
{}
