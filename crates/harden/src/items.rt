//! The passes over items, and the signatures.

ghost use Rattle.std.specs.Prelude.{◌≡◌, ◌≤◌, IfOk};
ghost use Rattle.hard_items.specs.Rules.{Twin};
ghost use Rattle.hard_items.specs.Counts.{room};
ghost use Rattle.hard_items.specs.Counted.{HasNoFreeNop, AreBusy};
ghost use Rattle.harden.specs.Image.{most_blocks, most_split_blocks};
ghost use Rattle.harden.specs.HardenChainSteps.{IsInOrder, IsOrdered, IsOrderedSplit, IsSignedOf};

use block_schedule::interleave;
use compare_pass::guard;
use edge_split::split;
use far_branches::widen;
use hard_items::{HardProgram, Signed};
use hard_words::OutOfMemory;
use layout_hardened::can_be_prepared;
use layout_moves_law::{
    smoothed_is_smooth, smoothed_keeps_counts, smoothed_keeps_runs, widened_keeps_counts,
    widened_keeps_runs, widened_keeps_smooth, widened_reaches,
};
use signature_assign::sign;
use std::alloc::Global;

/// Sets the checks, and then the streams in turn.
pub(crate) fn order(alloc: Global, program: HardProgram) -> Result<HardProgram, OutOfMemory>
    requires twin { Twin program }
    requires no_free_nop { HasNoFreeNop program }
    requires busy { AreBusy program }
    ensures { IfOk result (IsOrdered program) }
{
    let guarded = guard(alloc, program)?;
    interleave(alloc, guarded)
}

/// Sets the checks and the streams in turn, and splits the critical edges.
pub(crate) fn order_split(alloc: Global, program: HardProgram) -> Result<HardProgram, OutOfMemory>
    requires twin { Twin program }
    requires no_free_nop { HasNoFreeNop program }
    requires busy { AreBusy program }
    requires few { most_split_blocks program ≤ 65535 }
    ensures { IfOk result (IsOrderedSplit program) }
{
    smoothed_keeps_runs();
    smoothed_keeps_counts();
    smoothed_is_smooth();
    let ordered = order(alloc, program)?;
    split(alloc, ordered)
}

/// The signed program: with far branches where they are needed, and the numbers of its heads.
pub(crate) fn signed(alloc: Global, program: HardProgram) -> Result<Signed, OutOfMemory>
    requires in_order { IsInOrder program }
    requires few { most_blocks program ≤ 65535 }
    requires room { room program ≤ 66060288 }
    ensures { IfOk result (IsSignedOf program) }
{
    widened_keeps_runs();
    widened_keeps_counts();
    widened_keeps_smooth();
    widened_reaches();
    can_be_prepared();
    let wide = widen(alloc, program)?;
    sign(alloc, wide)
}
