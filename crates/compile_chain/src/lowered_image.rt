//! The laws that put the tree's side and the side of the blocks together. Nothing here runs.

ghost use Rattle.compile_chain.specs.Law.{LoweredRuns, LoweredIsHardened, LoweredIsSmall};

use check_law::same_run;

/// The blocks that a tree is lowered to do what the tree does. The call does nothing; its contract is the law.
pub fn lowered_runs()
    ensures { LoweredRuns }
{
    same_run();
}

/// A hardened image that does what the blocks do is the hardened image of the tree. The call does nothing; its contract is the law.
pub fn lowered_is_hardened()
    ensures { LoweredIsHardened }
{
    lowered_runs();
}

/// The blocks of a checked tree come to few words. The call does nothing; its contract is the law.
pub fn lowered_is_small()
    ensures { LoweredIsSmall }
{}
