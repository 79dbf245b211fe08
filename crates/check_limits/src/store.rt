//! The words of the store that a program needs.

ghost use Rattle.std.specs.Prelude.{◌≡◌, IfOk};
ghost use Rattle.c_meaning.specs.Meaning.{source_names};
ghost use Rattle.check_rules.specs.Limits.{store};
ghost use Rattle.check_limits.specs.Calls.{capped};
ghost use Rattle.check_limits.specs.Tables.{AreWeights};

use crate::call_pairs::call_pairs;
use crate::globals::pairs_of_items;
use c_syntax::TopItem;
use hard_words::OutOfMemory;
use std::alloc::Global;

/// The words that the variables at file scope and the deepest calls of `main` need, or 18446744073709551615, where they need
/// more. The time is that of [`call_pairs`].
pub(crate) fn words_of_store(
    alloc: Global,
    items: &[TopItem],
    weights: &[u64],
) -> Result<u64, OutOfMemory>
    requires { AreWeights items.now weights.now }
    ensures { IfOk result (λ r. r ≡ capped (store source_names (record { items = items.now }))) }
{
    let calls = call_pairs(alloc, items, weights, 0)?;
    Ok(
        pairs_of_items(items)
            .saturating_add(calls.counter)
            .saturating_add(calls.pairs),
    )
}
