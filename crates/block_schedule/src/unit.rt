//! The units of the streams.

ghost use Rattle.std.specs.Prelude.{◌≡◌, ◌++◌, OnOk, IfOk, None, false};
ghost use Rattle.hard_items.specs.Streams as streams;
ghost use Rattle.block_schedule.specs.Scheduling as scheduling;

use hard_items::{Class, Item};
use hard_words::OutOfMemory;
use mips_isa::is_product;
use std::alloc::Global;

/// What isn't parted: an item, or a product with the move from HI or LO behind it.
#[derive(Clone, Copy, Debug)]
pub(crate) enum Whole {
    /// An item.
    One(Item),
    /// A product and the item behind it.
    Two(Item, Item),
}

impl Whole {
    /// The class of the first item.
    pub(crate) fn class(self) -> Class
        ensures { result ≡ scheduling.class_of self }
    {
        match self {
            Whole::One(item) => item.class,
            Whole::Two(product, _) => product.class,
        }
    }

    /// Adds the items of the unit.
    pub(crate) fn put(self, out: &mut Vec<Item>) -> Result<(), OutOfMemory>
        ensures { OnOk result (out.new.items ≡ out.old.items ++ scheduling.unit_items self) }
    {
        match self {
            Whole::One(item) => {
                out.push(item)?;
            }
            Whole::Two(product, moved) => {
                out.push(product)?;
                out.push(moved)?;
            }
        }
        Ok(())
    }
}

/// The units of some items: a product with the item behind it, any other item alone.
pub(crate) fn units(alloc: Global, items: &[Item]) -> Result<Vec<Whole>, OutOfMemory>
    ensures { IfOk result (λ put. put.items ≡ scheduling.units items.now) }
{
    let mut out = Vec::new(alloc);
    let mut waiting: Option<Item> = None;
    for item in items {
        match waiting {
            Some(product) => {
                out.push(Whole::Two(product, *item))?;
                waiting = None;
            }
            None => {
                if is_product(&item.instr) {
                    waiting = Some(*item);
                } else {
                    out.push(Whole::One(*item))?;
                }
            }
        }
    }
    if let Some(product) = waiting {
        out.push(Whole::One(product))?;
    }
    Ok(out)
}
