//! A law.

ghost use Rattle.std.specs.Prelude.{◌≡◌};
ghost use Rattle.mid_lower.specs.Facts.{Composes};

use lower_calls_law::shallow_in_room;
use lower_law::{few_words, runs_as_tree, stays_proper};
use lower_size_law::{few_blocks, stays_words};
use lower_valid_law::lowered_is_valid;
use mid_prune::trimmed_stays;

/// What a checked program is lowered to is what the passes below ask for.
pub(crate) fn composes()
    ensures { Composes }
{
    runs_as_tree();
    stays_proper();
    few_words();
    lowered_is_valid();
    stays_words();
    few_blocks();
    shallow_in_room();
    trimmed_stays();
}
