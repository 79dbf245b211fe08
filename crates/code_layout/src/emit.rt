//! The words of items.

ghost use Rattle.std.specs.Prelude.{◌≡◌, ℕ, ◌+◌, ◌*◌, ◌%◌, ◌^◌, ◌≤◌, ◌++◌, OnOk, length};
ghost use Rattle.code_layout.specs.Starts.{goal_at, GoalThere, put_words, AllPut};

use crate::offsets::fill;
use hard_items::{Fix, Item};
use mips_isa::encode;
use std::alloc::AllocError;

/// The address that a field leads to.
fn goal_of(fix: Fix, starts: &[u32], entries: &[u32]) -> u32
    requires { GoalThere starts.now entries.now fix }
    ensures { result ≡ goal_at starts.now entries.now fix }
{
    match fix {
        Fix::Block(block) => starts[block as usize],
        Fix::Function(function) => starts[entries[function as usize] as usize],
        _ => 0,
    }
}

/// Adds the words of items that stand from an address on, before the block at another.
pub(crate) fn put_items(
    out: &mut Vec<u32>,
    items: &[Item],
    first: u32,
    back: u32,
    starts: &[u32],
    entries: &[u32],
) -> Result<(), AllocError>
    requires aligned { first % 4 ≡ 0 }
    requires low { first + 4 * length items.now ≤ 2 ^ 28 }
    requires back_low { back ≤ 2 ^ 28 }
    requires fits { AllPut starts.now entries.now back first items.now }
    ensures { OnOk result (out.new.items ≡ out.old.items ++ put_words starts.now entries.now back first items.now) }
{
    let mut at = first;
    for item in items {
        let to = goal_of(item.fix, starts, entries);
        out.push(encode(fill(item, at, to, back)))?;
        at += 4;
    }
    Ok(())
}
