//! Places for the variables of all functions.

ghost use Rattle.std.specs.Prelude.{◌≡◌, IfOk};
ghost use Rattle.mid_blocks.specs.Valid.{Valid};
ghost use Rattle.harden.specs.CompileBlocksSteps.{AreAllAssigned};

use hard_words::OutOfMemory;
use mid_blocks::{Mid, Places};
use register_halves::assign;
use std::alloc::Global;

/// Places for the variables of each function, in the eight pairs of registers and in slots.
pub(crate) fn all_places(alloc: Global, mid: &Mid) -> Result<Vec<Places>, OutOfMemory>
    requires { Valid mid.now }
    ensures { IfOk result (λ places. AreAllAssigned mid.now places.items) }
{
    let mut out = Vec::new(alloc);
    for function in mid.functions.as_slice() {
        out.push(assign(alloc, function)?)?;
    }
    Ok(out)
}
