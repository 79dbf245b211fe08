//! The streams of each stretch in turn.

ghost use Rattle.std.specs.Prelude.{◌≡◌, ◌++◌, [], OnOk, IfOk, flat_map, slice_get};
ghost use Rattle.block_schedule.specs.Scheduling as scheduling;

use crate::unit::{Whole, units};
use hard_items::{Class, Item};
use hard_words::OutOfMemory;
use std::alloc::Global;

/// Adds the unit at a place, if there is one.
fn put_at(out: &mut Vec<Item>, units: &[Whole], at: usize) -> Result<(), OutOfMemory>
    ensures { OnOk result (out.new.items ≡ out.old.items ++ scheduling.optional (slice_get units.now at)) }
{
    match units.get(at) {
        Some(unit) => (*unit).put(out),
        None => Ok(()),
    }
}

/// Adds the units of two streams in turn, as long as both have some left, and then the rest.
fn put_in_turn(out: &mut Vec<Item>, first: &[Whole], second: &[Whole]) -> Result<(), OutOfMemory>
    ensures { OnOk result (out.new.items ≡ out.old.items ++ flat_map scheduling.unit_items (scheduling.in_turn first.now second.now)) }
{
    let rounds = first.len().max(second.len());
    for round in 0..rounds {
        put_at(out, first, round)?;
        put_at(out, second, round)?;
    }
    Ok(())
}

/// The items with the streams of each stretch in turn.
pub(crate) fn turn(alloc: Global, items: &[Item]) -> Result<Vec<Item>, OutOfMemory>
    ensures { IfOk result (λ put. put.items ≡ scheduling.turned items.now) }
{
    let all = units(alloc, items)?;
    let mut out = Vec::new(alloc);
    let mut first = Vec::new(alloc);
    let mut second = Vec::new(alloc);
    for unit in &all {
        match (*unit).class() {
            Class::Master => first.push(*unit)?,
            Class::Shadow => second.push(*unit)?,
            _ => {
                put_in_turn(&mut out, &first, &second)?;
                (*unit).put(&mut out)?;
                first = Vec::new(alloc);
                second = Vec::new(alloc);
            }
        }
    }
    put_in_turn(&mut out, &first, &second)?;
    Ok(out)
}
