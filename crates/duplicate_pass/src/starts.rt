//! The items with which a block begins: a call's frame and parameters, or what a call before it returned.

ghost use Rattle.std.specs.Prelude.{◌≡◌, ◌≤◌, ◌<◌, ◌+◌, ◌-◌, ◌*◌, ◌^◌, ◌++◌, OnOk, length};
ghost use Rattle.double_law.specs.Emitted as emitted;
ghost use Rattle.double_law.specs.Program.{behind_end, start_items};
ghost use Rattle.duplicate_pass.specs.Emits.{IsSmall, AreSmall};

use crate::basic::{put_load, put_move, put_store, put_sum};
use crate::places::{place_of, slot_offset};
use double_law::Role;
use hard_items::Item;
use hard_words::{OutOfMemory, Sequence};
use mid_blocks::{MidEnd, MidFunction, Place, Places};

/// The parameter of a number comes to its pair, if it has one.
fn put_parameter(
    out: &mut Sequence<Item>,
    place: Place,
    pairs: u32,
    number: u32,
) -> Result<(), OutOfMemory>
    requires small { IsSmall place }
    requires exists { number < pairs }
    requires pairs { pairs ≤ 4002 }
    ensures { OnOk result (out.new ≡ out.old ++ emitted.parameter_load place pairs number) }
{
    match place {
        Place::Pair(pair) => {
            let offset = 8 * (pairs - (number + 1));
            put_load(out, Role::Value(pair + 2), Role::Stack, offset as u16)
        }
        Place::Slot(_) => Ok(()),
    }
}

/// The parameters that have a pair come to it.
fn put_parameters(
    out: &mut Sequence<Item>,
    places: &Places,
    pairs: u32,
    params: u32,
) -> Result<(), OutOfMemory>
    requires small { AreSmall places.now }
    requires exist { params ≤ pairs }
    requires pairs { pairs ≤ 4002 }
    ensures { OnOk result (out.new ≡ out.old ++ emitted.parameter_items places.now pairs 0 params) }
{
    for number in 0..params {
        put_parameter(out, place_of(places, number), pairs, number)?;
    }
    Ok(())
}

/// A call begins: its frame, the return address, the parameters.
fn put_enter(
    out: &mut Sequence<Item>,
    places: &Places,
    pairs: u32,
    params: u32,
) -> Result<(), OutOfMemory>
    requires small { AreSmall places.now }
    requires exist { params ≤ pairs }
    requires some { 1 ≤ pairs }
    requires pairs { pairs ≤ 4002 }
    ensures { OnOk result (out.new ≡ out.old ++ emitted.enter_items places.now pairs params) }
{
    let frame = 65536 - 8 * pairs;
    put_sum(out, Role::Stack, frame as u16)?;
    put_store(out, Role::Link, Role::Stack, 0)?;
    put_parameters(out, places, pairs, params)
}

/// What a call returned comes to a place.
fn put_result(out: &mut Sequence<Item>, place: Place) -> Result<(), OutOfMemory>
    requires { IsSmall place }
    ensures { OnOk result (out.new ≡ out.old ++ emitted.result_to place) }
{
    match place {
        Place::Pair(pair) => put_move(out, Role::Value(pair + 2), Role::Value(0)),
        Place::Slot(slot) => put_store(out, Role::Value(0), Role::Stack, slot_offset(slot)),
    }
}

/// The items behind an end.
fn put_behind(out: &mut Sequence<Item>, places: &Places, end: &MidEnd) -> Result<(), OutOfMemory>
    requires { AreSmall places.now }
    ensures { OnOk result (out.new ≡ out.old ++ behind_end places.now end.now) }
{
    match end {
        MidEnd::Call {
            result: Some(result),
            ..
        } => put_result(out, place_of(places, *result)),
        _ => Ok(()),
    }
}

/// The items with which a block of a function begins.
pub(crate) fn put_start(
    out: &mut Sequence<Item>,
    function: &MidFunction,
    places: &Places,
    block: usize,
) -> Result<(), OutOfMemory>
    requires small { AreSmall places.now }
    requires exist { function.now.params < function.now.pairs }
    requires pairs { function.now.pairs ≤ 4002 }
    ensures { OnOk result (out.new ≡ out.old ++ start_items function.now places.now block) }
{
    if block == 0 {
        return put_enter(out, places, function.pairs, function.params);
    }
    match function.blocks.get(block - 1) {
        Some(before) => put_behind(out, places, &before.end),
        None => Ok(()),
    }
}
