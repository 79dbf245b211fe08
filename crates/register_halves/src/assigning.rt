//! Places for the variables of a function: pairs of registers while there are any, else slots.

ghost use Rattle.std.specs.Prelude.{◌≡◌, ℕ, ◌+◌, ◌<◌, ◌≤◌, ◌^◌, Some, true, false, IfOk, length, slice_index, vec_len};
ghost use Rattle.std.specs.List.{All, AllPairs};
ghost use Rattle.std.specs.List.Sorted.{IsPermutation, IsNonDecreasingBy};
ghost use Rattle.mid_blocks.specs.Liveness.{own_slot};
ghost use Rattle.mid_blocks.specs.Valid.{ValidFunction};
ghost use Rattle.register_liveness.specs.Met.{AreLives};
ghost use Rattle.register_halves.specs.Spans.{AreSpans};
ghost use Rattle.register_halves.specs.Assigned.{AreAssigned, AreLocals, IsStart, IsFreePair, IsTaken};

use crate::gather::{Span, spans_of};
use hard_words::{OutOfMemory, Sequence};
use mid_blocks::{MidFunction, Place, Places};
use register_liveness::{Flow, Lives};
use std::alloc::Global;

/// The slot of a variable: a parameter's is where its caller stored it.
pub fn own_slot(function: &MidFunction, v: u32) -> u32
    requires valid { ValidFunction function.now }
    requires exists { v < function.now.variables }
    ensures { result ≡ own_slot function.now v }
{
    let _pairs = function.pairs;
    if v < function.params {
        function.pairs - 2 - v
    } else {
        v - function.params
    }
}

/// The spans of the variables that are live across no Call, by ascending start.
fn sorted_locals(
    alloc: Global,
    function: &MidFunction,
    lives: &Lives,
) -> Result<Vec<Span>, OutOfMemory>
    requires { AreLives function.now lives.now.extents.items lives.now.across.items }
    ensures { IfOk result (λ spans. AreLocals function.now spans.items) }
{
    let mut locals = Vec::new(alloc);
    for span in &spans_of(alloc, function, lives)? {
        if !lives.across[span.variable as usize] {
            locals.push(*span)?;
        }
    }
    locals.sort_by_key(|s| s.from)?;
    Ok(locals)
}

/// Slots for the variables that are live across a Call, and for the others pair 0 until they get a place.
fn first_places(
    alloc: Global,
    function: &MidFunction,
    lives: &Lives,
) -> Result<Vec<Place>, OutOfMemory>
    requires valid { ValidFunction function.now }
    requires lives { AreLives function.now lives.now.extents.items lives.now.across.items }
    ensures { IfOk result (λ places. IsStart function.now places.items) }
{
    let mut places = Vec::new(alloc);
    for v in 0..function.variables {
        if lives.across[v as usize] {
            places.push(Place::Slot(own_slot(function, v)))?;
        } else {
            places.push(Place::Pair(0))?;
        }
    }
    Ok(places)
}

/// The first pair that is free at a position.
fn free_pair(free: &[u32], at: u32) -> Option<u8>
    requires { length free.now < 2 ^ 8 }
    ensures { IsFreePair free.now at result }
{
    for pair in 0..free.len() {
        if free[pair] <= at {
            return Some(pair as u8);
        }
    }
    None
}

/// Gives each span, by ascending start, the first pair that is free there, else the slot of its variable.
fn take_places(
    function: &MidFunction,
    locals: &[Span],
    places: &mut Vec<Place>,
    free: &mut Vec<u32>,
)
    requires valid { ValidFunction function.now }
    requires locals { AreLocals function.now locals.now }
    requires start { IsStart function.now places.old.items }
    requires some_pair { (0 < length free.old.items) × (length free.old.items < 2 ^ 8) }
    requires all_free { (k : ℕ) → k < length free.old.items → slice_index free.old.items k ≡ 0 }
    ensures { IsTaken function.now (length free.old.items) locals.now places.new.items }
{
    for span in locals {
        let v = span.variable;
        match free_pair(free.as_slice(), span.from) {
            Some(pair) => {
                free[pair as usize] = span.to + 1;
                places[v as usize] = Place::Pair(pair);
            }
            None => places[v as usize] = Place::Slot(own_slot(function, v)),
        }
    }
}

/// Places for the variables of a function in the first so many pairs of registers, and in slots: those that are live across a
/// Call are in slots, and of the others some only where more spans overlap than there are pairs.
pub fn assign_within(
    alloc: Global,
    function: &MidFunction,
    pairs: u8,
) -> Result<Places, OutOfMemory>
    requires valid { ValidFunction function.now }
    requires some_pair { 1 ≤ pairs }
    requires eight { pairs ≤ 8 }
    ensures { IfOk result (λ places. AreAssigned function.now pairs places) }
{
    let flow = Flow::of(alloc, function)?;
    let lives = Lives::of(alloc, function, &flow)?;
    let locals = sorted_locals(alloc, function, &lives)?;
    let mut places = first_places(alloc, function, &lives)?;
    let mut free = vec![in alloc; 0u32; pairs as usize]?;
    take_places(function, locals.as_slice(), &mut places, &mut free);
    Ok(Places {
        list: Sequence::from_vec(places),
    })
}

/// Places for the variables of a function in the eight pairs of registers, and in slots.
pub fn assign(alloc: Global, function: &MidFunction) -> Result<Places, OutOfMemory>
    requires { ValidFunction function.now }
    ensures { IfOk result (λ places. AreAssigned function.now 8 places) }
{
    assign_within(alloc, function, 8)
}
