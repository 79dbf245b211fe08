//! Steps that read a variable or store into one.

ghost use Rattle.std.specs.Prelude.{◌≡◌, ◌+◌, ◌≤◌};
ghost use Rattle.c_meaning.specs.Operators.{bumped};
ghost use Rattle.eval_parts.specs.Parts.{Works, Takes, Does, storing};
ghost use Rattle.eval_parts.specs.Work.{Falls, FallsFrom, Lighter};

use c_meaning::{EvalEnd, Flow, Place, Value, operate};
use c_syntax::{BinaryOp, Expr};
use eval_parts::{Frame, Given, Next, Now, OnPlace, OnValue, goes, value_of};
use eval_state::Memory;

/// The value that a place holds.
pub fn fetched<'a>(memory: &Memory, place: Place) -> Next<'a>
    ensures does { Works (Now.Fetch place) memory.now result memory.now }
    ensures falls { Falls (Now.Fetch place) result }
{
    match memory.fetch(place) {
        Ok(v) => goes(Now::Given(Given::Value(v))),
        Err(end) => goes(Now::Over(end)),
    }
}

/// A word is stored.
pub fn stored<'a>(memory: &mut Memory, place: Place, word: u32) -> Next<'a>
    ensures does { Does (storing place word) memory.old result memory.new }
    ensures falls { Lighter (λ most call items. 2) result }
    ensures fuel { memory.new.fuel ≤ memory.old.fuel }
{
    match memory.store(place, word) {
        Ok(v) => goes(Now::Given(Given::Value(v))),
        Err(end) => goes(Now::Over(end)),
    }
}

/// A compound assignment, whose operands are known.
pub fn stored_by<'a>(
    memory: &mut Memory,
    op: BinaryOp,
    place: Place,
    old: Value,
    v: Value,
) -> Next<'a>
    ensures does { Takes (Frame.OnValue (OnValue.StoreBy op place old)) (Given.Value v) memory.old result memory.new }
    ensures falls { FallsFrom (Frame.OnValue (OnValue.StoreBy op place old)) result }
    ensures fuel { memory.new.fuel ≤ memory.old.fuel }
{
    match operate(op, old, v) {
        Ok(new) => stored(memory, place, new.word),
        Err(end) => goes(Now::Over(end)),
    }
}

fn bumped_by_one(up: bool, word: u32) -> u32
    ensures { result ≡ bumped up word }
{
    if up {
        word.wrapping_add(1)
    } else {
        word.wrapping_sub(1)
    }
}

/// A place is counted up or down.
pub fn bumped<'a>(memory: &mut Memory, up: bool, before: bool, place: Place) -> Next<'a>
    ensures does { Takes (Frame.OnPlace (OnPlace.Bump up before)) (Given.Place place) memory.old result memory.new }
    ensures falls { FallsFrom (Frame.OnPlace (OnPlace.Bump up before)) result }
    ensures fuel { memory.new.fuel ≤ memory.old.fuel }
{
    let old = match memory.fetch(place) {
        Ok(old) => old,
        Err(end) => return goes(Now::Over(end)),
    };
    match memory.store(place, bumped_by_one(up, old.word)) {
        Ok(new) => goes(Now::Given(Given::Value(if before { new } else { old }))),
        Err(end) => goes(Now::Over(end)),
    }
}

/// An assignment, whose place is known.
pub fn assigned<'a>(
    memory: &Memory,
    op: Option<BinaryOp>,
    right: &'a Expr,
    place: Place,
) -> Next<'a>
    ensures does { Takes (Frame.OnPlace (OnPlace.Assign op right.entry)) (Given.Place place) memory.now result memory.now }
    ensures falls { FallsFrom (Frame.OnPlace (OnPlace.Assign op right.entry)) result }
{
    match op {
        None => value_of(Now::Expr(right), OnValue::Store(place)),
        Some(op) => match memory.fetch(place) {
            Ok(old) => value_of(Now::Expr(right), OnValue::StoreBy(op, place, old)),
            Err(end) => goes(Now::Over(end)),
        },
    }
}

/// An element, whose index is known.
pub fn index_of<'a>(memory: &Memory, name: u32, index: Value) -> Next<'a>
    ensures does { Takes (Frame.OnValue (OnValue.IndexOf name)) (Given.Value index) memory.now result memory.now }
    ensures falls { FallsFrom (Frame.OnValue (OnValue.IndexOf name)) result }
{
    match memory.check_index(name, index.word) {
        Ok(()) => goes(Now::Given(Given::Place(Place::Element(name, index.word)))),
        Err(end) => goes(Now::Over(end)),
    }
}

/// A variable takes the value of its initialiser.
pub fn initialised<'a>(memory: &mut Memory, name: u32, v: Value) -> Next<'a>
    ensures does { Takes (Frame.OnValue (OnValue.Initialise name)) (Given.Value v) memory.old result memory.new }
    ensures falls { FallsFrom (Frame.OnValue (OnValue.Initialise name)) result }
    ensures fuel { memory.new.fuel ≤ memory.old.fuel }
{
    memory.write(name, v.word);
    goes(Now::Given(Given::Flow(Flow::Normal)))
}
