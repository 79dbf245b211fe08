//! The item at a place of a list, if there is one.

ghost use Rattle.std.specs.Prelude.{◌≡◌, slice_get};

use hard_items::Item;

/// The item at a place, counted from 0.
pub(crate) fn item_at(items: &[Item], place: usize) -> Option<Item>
    ensures { result ≡ slice_get items.now place }
{
    items.get(place).copied()
}
