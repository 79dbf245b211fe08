//! The weights of functions, under their names.

ghost use Rattle.std.specs.Prelude.{◌≡◌, ◌<◌, ◌≤◌, ◌^◌, ◌-◌, ℕ, List, ◌∷◌, min, length, slice_index_or, IfOk, OnOk};
ghost use Rattle.c_syntax.specs.declared.tree.TopItem.{TopItem as Item};
ghost use Rattle.check_limits.specs.Tables.{AreWeights};

use c_costs::weight;
use c_syntax::TopItem;
use hard_words::OutOfMemory;
use sqlite_items::Items;
use std::alloc::Global;

/// The weight under a name.
pub(crate) fn weight_under(weights: &[u64], name: usize) -> u64
    ensures { result ≡ slice_index_or weights.now name 0 }
{
    match weights.get(name) {
        None => 0,
        Some(weight) => *weight,
    }
}

// Zeros, until there is something under the name.
fn grow(weights: &mut Items<u64>, name: usize) -> Result<(), OutOfMemory>
    ensures within { OnOk result (name < length weights.new) }
    ensures same { OnOk result ((k : ℕ) → slice_index_or weights.new k 0 ≡ slice_index_or weights.old k 0) }
{
    while weights.len() <= name {
        weights.push(0)?;
    }
    Ok(())
}

// What an item before the others changes: where two bodies have one name, the first one stands.
fn put_item(weights: &mut Items<u64>, item: &TopItem) -> Result<(), OutOfMemory>
    ensures { OnOk result ((rest : List Item) → AreWeights rest weights.old → AreWeights (item.now ∷ rest) weights.new) }
{
    match item {
        TopItem::Globals(_) => Ok(()),
        TopItem::Function(function) => match &function.body {
            None => Ok(()),
            Some(_) => {
                let name = function.name as usize;
                grow(weights, name)?;
                weights.set(name, weight(function));
                Ok(())
            }
        },
    }
}

/// The weights of a program's functions.
pub(crate) fn weights_of(alloc: Global, items: &[TopItem]) -> Result<Items<u64>, OutOfMemory>
    ensures { IfOk result (λ w. AreWeights items.now w) }
{
    let mut weights = Items::new(alloc);
    let mut left = items.len();
    while left > 0 {
        left -= 1;
        put_item(&mut weights, &items[left])?;
    }
    Ok(weights)
}
