//! What each step of a block becomes.

ghost use Rattle.std.specs.Prelude.{◌≡◌, ◌≤◌, ◌<◌, ◌^◌, ◌++◌, OnOk, slice_index, length};
ghost use Rattle.mid_blocks.specs.declared.code.MidStep.{MidStep};
ghost use Rattle.frame_plan.specs.Frames.{cell_address, global_cell, global_length};
ghost use Rattle.double_law.specs.Roles.{RoleFits, reg_in, both, test};
ghost use Rattle.double_law.specs.Emitted as emitted;
ghost use Rattle.duplicate_pass.specs.Emits.{IsSmall, IsSmallIf, AreSmall, GlobalsKnown, IsNamed};

use crate::basic::{
    pair, put_both, put_constant, put_input, put_load, put_service, put_store, put_test, put_upper,
};
use crate::operations::{put_operation, put_operation_tests};
use crate::places::{
    optional_place, place_of, put_brought, put_fetched, put_kept, slot_offset, source, target,
};
use double_law::Role;
use hard_items::Item;
use hard_words::{OutOfMemory, Sequence};
use mid_blocks::{Mid, MidOp, MidStep, Place, Places};
use mips_isa::Instr;

/// The upper half of an address for lui, where its lower half is an offset with sign.
fn upper(address: u32) -> u16
    requires { address < 2 ^ 31 }
    ensures { result ≡ emitted.upper address }
{
    ((address + 32768) / 65536) as u16
}

/// The lower half of an address, as an offset with sign.
fn lower(address: u32) -> u16
    ensures { result ≡ emitted.lower address }
{
    (address % 65536) as u16
}

/// Eight times an index, in both streams.
fn put_scaled(out: &mut Sequence<Item>, to: Role, from: Role) -> Result<(), OutOfMemory>
    requires to { RoleFits to }
    requires from { RoleFits from }
    ensures { OnOk result (out.new ≡ out.old ++ both (λ t. Instr.Sll (reg_in t to) (reg_in t from) 3)) }
{
    let (first, second) = pair(to);
    let (master, shadow) = pair(from);
    put_both(
        out,
        Instr::Sll {
            rd: first,
            rt: master,
            sh: 3,
        },
        Instr::Sll {
            rd: second,
            rt: shadow,
            sh: 3,
        },
    )
}

/// The address of an element of a global, but for the lower half of the global's, in a scratch register.
fn put_element(
    out: &mut Sequence<Item>,
    to: u8,
    by: u8,
    index: Place,
    address: u32,
) -> Result<(), OutOfMemory>
    requires to { to ≤ 1 }
    requires by { by ≤ 1 }
    requires index { IsSmall index }
    requires address { address < 2 ^ 31 }
    ensures { OnOk result (out.new ≡ out.old ++ emitted.element to by index address) }
{
    put_fetched(out, index, to)?;
    put_scaled(out, Role::Value(to), source(index, to))?;
    put_upper(out, Role::Value(by), upper(address))?;
    put_operation(
        out,
        MidOp::Add,
        Role::Value(to),
        Role::Value(to),
        Role::Value(by),
    )
}

/// A word of a global comes to a variable.
fn put_loaded(
    out: &mut Sequence<Item>,
    to: Place,
    index: Option<Place>,
    address: u32,
) -> Result<(), OutOfMemory>
    requires to { IsSmall to }
    requires index { IsSmallIf index }
    requires address { address < 2 ^ 31 }
    ensures { OnOk result (out.new ≡ out.old ++ emitted.load_items to index address) }
{
    match index {
        None => {
            put_upper(out, target(to), upper(address))?;
            put_load(out, target(to), target(to), lower(address))?;
        }
        Some(index) => {
            put_element(out, 0, 1, index, address)?;
            put_load(out, target(to), Role::Value(0), lower(address))?;
        }
    }
    put_kept(out, to)
}

/// What a variable holds goes to a word of a global.
fn put_stored(
    out: &mut Sequence<Item>,
    index: Option<Place>,
    from: Place,
    address: u32,
) -> Result<(), OutOfMemory>
    requires index { IsSmallIf index }
    requires from { IsSmall from }
    requires address { address < 2 ^ 31 }
    ensures { OnOk result (out.new ≡ out.old ++ emitted.store_items index from address) }
{
    match index {
        None => put_upper(out, Role::Value(1), upper(address))?,
        Some(index) => put_element(out, 1, 0, index, address)?,
    }
    put_fetched(out, from, 0)?;
    put_store(out, source(from, 0), Role::Value(1), lower(address))
}

/// A variable comes to another.
fn put_copy(out: &mut Sequence<Item>, to: Place, from: Place) -> Result<(), OutOfMemory>
    requires to { IsSmall to }
    requires from { IsSmall from }
    ensures { OnOk result (out.new ≡ out.old ++ emitted.copy_items to from) }
{
    match to {
        Place::Pair(pair) => put_brought(out, from, Role::Value(pair + 2)),
        Place::Slot(slot) => {
            put_fetched(out, from, 0)?;
            put_store(out, source(from, 0), Role::Stack, slot_offset(slot))
        }
    }
}

/// Whether a register is below a number, in a scratch register of both streams.
fn put_below(out: &mut Sequence<Item>, from: Role, bound: u16) -> Result<(), OutOfMemory>
    requires { RoleFits from }
    ensures { OnOk result (out.new ≡ out.old ++ both (λ t. Instr.Sltiu (reg_in t (Role.Value 0)) (reg_in t from) bound)) }
{
    let (first, second) = pair(Role::Value(0));
    let (master, shadow) = pair(from);
    put_both(
        out,
        Instr::Sltiu {
            rt: first,
            rs: master,
            imm: bound,
        },
        Instr::Sltiu {
            rt: second,
            rs: shadow,
            imm: bound,
        },
    )
}

/// A trap where an index isn't below a length.
fn put_guard(out: &mut Sequence<Item>, index: Place, length: u16) -> Result<(), OutOfMemory>
    requires { IsSmall index }
    ensures { OnOk result (out.new ≡ out.old ++ (emitted.fetched index 0 ++ (both (λ t. Instr.Sltiu (reg_in t (Role.Value 0)) (reg_in t (emitted.source index 0)) length) ++ test (Role.Value 0) 8))) }
{
    put_fetched(out, index, 0)?;
    put_below(out, source(index, 0), length)?;
    put_test(out, Role::Value(0), 8)
}

/// An operation on two variables, whose result comes to a third.
fn put_operate(
    out: &mut Sequence<Item>,
    op: MidOp,
    to: Place,
    left: Place,
    right: Place,
) -> Result<(), OutOfMemory>
    requires to { IsSmall to }
    requires left { IsSmall left }
    requires right { IsSmall right }
    ensures { OnOk result (out.new ≡ out.old ++ (emitted.operation_tests op left right ++ (emitted.fetched left 0 ++ (emitted.fetched right 1 ++
        (emitted.operation op (emitted.target to) (emitted.source left 0) (emitted.source right 1) ++ emitted.kept to))))) }
{
    put_operation_tests(out, op, left, right)?;
    put_fetched(out, left, 0)?;
    put_fetched(out, right, 1)?;
    put_operation(out, op, target(to), source(left, 0), source(right, 1))?;
    put_kept(out, to)
}

/// The first address of a global.
fn address_of(addresses: &[u32], global: u32) -> u32
    requires { global < length addresses.now }
    ensures { result ≡ slice_index addresses.now global }
{
    addresses[global as usize]
}

/// How many elements a global has.
fn length_of(mid: &Mid, global: u32) -> u16
    requires { global_length mid.now global < 2 ^ 16 }
    ensures { result ≡ global_length mid.now global }
{
    match mid.globals.get(global as usize) {
        Some(words) => words.len() as u16,
        None => 0,
    }
}

/// What a step becomes.
pub(crate) fn put_step(
    out: &mut Sequence<Item>,
    mid: &Mid,
    addresses: &[u32],
    places: &Places,
    step: MidStep,
) -> Result<(), OutOfMemory>
    requires globals { GlobalsKnown mid.now addresses.now }
    requires small { AreSmall places.now }
    requires named { IsNamed addresses.now step }
    ensures { OnOk result (out.new ≡ out.old ++ emitted.step_items (λ g. cell_address (global_cell mid.now g)) (global_length mid.now) places.now step) }
{
    match step {
        MidStep::Constant { to, word } => {
            let to = place_of(places, to);
            put_constant(out, target(to), word)?;
            put_kept(out, to)
        }
        MidStep::Copy { to, from } => put_copy(out, place_of(places, to), place_of(places, from)),
        MidStep::Operate {
            op,
            to,
            left,
            right,
        } => put_operate(
            out,
            op,
            place_of(places, to),
            place_of(places, left),
            place_of(places, right),
        ),
        MidStep::Guard { global, index } => put_guard(
            out,
            place_of(places, index),
            length_of(mid, global),
        ),
        MidStep::Load { to, global, index } => put_loaded(
            out,
            place_of(places, to),
            optional_place(places, index),
            address_of(addresses, global),
        ),
        MidStep::Store {
            global,
            index,
            from,
        } => put_stored(
            out,
            optional_place(places, index),
            place_of(places, from),
            address_of(addresses, global),
        ),
        MidStep::Input { to } => {
            let to = place_of(places, to);
            put_input(out, target(to))?;
            put_kept(out, to)
        }
        MidStep::Output { from } => {
            put_brought(out, place_of(places, from), Role::Value(0))?;
            put_service(out, 1)
        }
        MidStep::Deep { test } => {
            let test = place_of(places, test);
            put_fetched(out, test, 0)?;
            put_test(out, source(test, 0), 9)
        }
    }
}
