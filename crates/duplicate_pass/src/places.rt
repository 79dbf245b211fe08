//! Variables in their places: in a pair of registers, or in a slot of the frame.

ghost use Rattle.std.specs.Prelude.{◌≡◌, ◌≤◌, ◌++◌, OnOk};
ghost use Rattle.double_law.specs.Roles.{RoleFits};
ghost use Rattle.double_law.specs.Emitted as emitted;
ghost use Rattle.duplicate_pass.specs.Emits.{IsSmall, IsSmallIf, AreSmall};

use crate::basic::{put_load, put_move, put_store};
use double_law::Role;
use hard_items::Item;
use hard_words::{OutOfMemory, Sequence};
use mid_blocks::{Place, Places};

/// The place of a variable.
pub(crate) fn place_of(places: &Places, variable: u32) -> Place
    ensures { result ≡ emitted.place_of places.now variable }
{
    match places.list.get(variable as usize) {
        Some(place) => *place,
        None => Place::Slot(0),
    }
}

/// The place of a variable that may be left out.
pub(crate) fn optional_place(places: &Places, variable: Option<u32>) -> Option<Place>
    requires { AreSmall places.now }
    ensures place { result ≡ emitted.optional_place places.now variable }
    ensures small { IsSmallIf result }
{
    match variable {
        Some(variable) => Some(place_of(places, variable)),
        None => None,
    }
}

/// The offset of a slot from the stack pointer.
pub(crate) fn slot_offset(slot: u32) -> u16
    requires { slot ≤ 4000 }
    ensures { result ≡ emitted.slot_offset slot }
{
    8 * (slot as u16 + 1)
}

/// The register in which a variable is read: its own, or a scratch register.
pub(crate) fn source(place: Place, scratch: u8) -> Role
    requires small { IsSmall place }
    requires scratch { scratch ≤ 9 }
    ensures role { result ≡ emitted.source place scratch }
    ensures fits { RoleFits result }
{
    match place {
        Place::Pair(pair) => Role::Value(pair + 2),
        Place::Slot(_) => Role::Value(scratch),
    }
}

/// The register in which a variable is made.
pub(crate) fn target(place: Place) -> Role
    requires { IsSmall place }
    ensures role { result ≡ emitted.target place }
    ensures fits { RoleFits result }
{
    match place {
        Place::Pair(pair) => Role::Value(pair + 2),
        Place::Slot(_) => Role::Value(0),
    }
}

/// A variable in a slot comes to a scratch register.
pub(crate) fn put_fetched(
    out: &mut Sequence<Item>,
    place: Place,
    scratch: u8,
) -> Result<(), OutOfMemory>
    requires small { IsSmall place }
    requires scratch { scratch ≤ 9 }
    ensures { OnOk result (out.new ≡ out.old ++ emitted.fetched place scratch) }
{
    match place {
        Place::Pair(_) => Ok(()),
        Place::Slot(slot) => put_load(out, Role::Value(scratch), Role::Stack, slot_offset(slot)),
    }
}

/// A variable comes to a given register.
pub(crate) fn put_brought(
    out: &mut Sequence<Item>,
    place: Place,
    to: Role,
) -> Result<(), OutOfMemory>
    requires small { IsSmall place }
    requires to { RoleFits to }
    ensures { OnOk result (out.new ≡ out.old ++ emitted.brought place to) }
{
    match place {
        Place::Pair(pair) => put_move(out, to, Role::Value(pair + 2)),
        Place::Slot(slot) => put_load(out, to, Role::Stack, slot_offset(slot)),
    }
}

/// What was made for a variable in a slot goes there.
pub(crate) fn put_kept(out: &mut Sequence<Item>, place: Place) -> Result<(), OutOfMemory>
    requires { IsSmall place }
    ensures { OnOk result (out.new ≡ out.old ++ emitted.kept place) }
{
    match place {
        Place::Pair(_) => Ok(()),
        Place::Slot(slot) => put_store(out, Role::Value(0), Role::Stack, slot_offset(slot)),
    }
}
