//! The words that the variables at file scope hold.

ghost use Rattle.std.specs.Prelude.{◌≡◌, ◌-◌, ◌^◌, min, map, sum};
ghost use Rattle.check_rules.specs.Walk.{elements};
ghost use Rattle.check_rules.specs.Limits.{item_pairs, global_pairs};
ghost use Rattle.check_limits.specs.Calls.{capped};

use crate::constants::word;
use c_syntax::{GlobalVar, Shape, TopItem};

fn pairs_of_global(global: &GlobalVar) -> u64
    ensures { result ≡ capped (elements global.now.shape global.now.first) }
{
    match &global.shape {
        Shape::Scalar => 1,
        Shape::Array { length } => match length {
            None => global.first.len() as u64,
            Some(length) => u64::from(word(length)),
        },
    }
}

fn pairs_of_globals(globals: &[GlobalVar]) -> u64
    ensures { result ≡ capped (sum (map (λ g. elements g.shape g.first) globals.now)) }
{
    let mut pairs = 0u64;
    for global in globals {
        pairs = pairs.saturating_add(pairs_of_global(global));
    }
    pairs
}

fn pairs_of_item(item: &TopItem) -> u64
    ensures { result ≡ capped (item_pairs item.now) }
{
    match item {
        TopItem::Globals(globals) => pairs_of_globals(globals.as_slice()),
        TopItem::Function(_) => 0,
    }
}

/// The words that the variables at file scope hold, or 18446744073709551615, where there are more.
pub(crate) fn pairs_of_items(items: &[TopItem]) -> u64
    ensures { result ≡ capped (global_pairs items.now) }
{
    let mut pairs = 0u64;
    for item in items {
        pairs = pairs.saturating_add(pairs_of_item(item));
    }
    pairs
}
