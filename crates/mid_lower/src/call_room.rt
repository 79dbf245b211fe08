//! The pairs that the chains of calls of `main` take, in a program whose names are positions.

ghost use Rattle.std.specs.Prelude.{◌≡◌, ◌<◌, ◌^◌, IfOk};
ghost use Rattle.lower_rules.specs.Room.{room};

use c_syntax::TopItem;
use check_limits::pairs_of_calls;
use hard_words::OutOfMemory;
use std::alloc::Global;

/// The pairs that the chains of calls of `main` take at most: the weight of its greatest chain, where `main` reaches no
/// function that reaches itself; else room for 257 calls of such functions, and one of each other function. The time is that of
/// [`pairs_of_calls`].
///
/// # Errors
///
/// [`OutOfMemory`] where there is no memory.
pub fn room(alloc: Global, items: &[TopItem], main: u32) -> Result<u32, OutOfMemory>
    requires fits { room items.now main < 2 ^ 32 }
    ensures { IfOk result (λ pairs. pairs ≡ room items.now main) }
{
    let pairs = pairs_of_calls(alloc, items, main)?;
    Ok(pairs as u32)
}
