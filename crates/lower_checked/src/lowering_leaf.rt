//! What a light `main` that calls nothing is lowered to. Nothing here runs.

ghost use Rattle.lower_checked.specs.Law.{LightLeafIsSmall};

use lower_calls_law::{calls_are_callees, only_main_where_alone};

/// Where `main` has a weight of at most 9 and calls no function with a body, its program is lowered to one function that has at most
/// eight variables and calls nothing. The call does nothing; its contract is the law.
pub fn light_leaf_is_small()
    ensures { LightLeafIsSmall }
{
    calls_are_callees();
    only_main_where_alone();
}
