//! What each end of a block becomes.

ghost use Rattle.std.specs.Prelude.{◌≡◌, ◌≤◌, ◌<◌, ◌+◌, ◌-◌, ◌*◌, ◌^◌, ◌++◌, ◌∷◌, [], OnOk, length};
ghost use Rattle.hard_items.specs.Streams.{nop, plain};
ghost use Rattle.hard_items.specs.Forms.{going};
ghost use Rattle.double_law.specs.Roles.{reg_in, store};
ghost use Rattle.double_law.specs.Emitted as emitted;
ghost use Rattle.duplicate_pass.specs.Emits.{IsSmall, AreSmall, EndFits, branch_on};

use crate::basic::{pair, put, put_load, put_nop, put_store, put_sum, put_zero};
use crate::places::{place_of, put_brought, put_fetched, source};
use double_law::{Role, Stream};
use hard_items::{Class, Fix, Item};
use hard_words::{OutOfMemory, Sequence};
use mid_blocks::{MidEnd, Place, Places};
use mips_isa::Instr;

/// Adds an item with a field for the layout.
fn put_fixed(
    out: &mut Sequence<Item>,
    instr: Instr,
    class: Class,
    fix: Fix,
) -> Result<(), OutOfMemory>
    ensures { OnOk result (out.new ≡ out.old ++ record { instr = instr; class = class; fix = fix } ∷ []) }
{
    out.push(Item { instr, class, fix })?;
    Ok(())
}

/// A call of a function: the number of the next block comes to the shadow's return address, and the call brings it to the
/// master's.
pub(crate) fn put_call(out: &mut Sequence<Item>, function: u32) -> Result<(), OutOfMemory>
    ensures { OnOk result (out.new ≡ out.old ++ emitted.call_items function) }
{
    put_fixed(
        out,
        Instr::Lui { rt: 25, imm: 0 },
        Class::Shadow,
        Fix::ReturnHigh,
    )?;
    put_fixed(
        out,
        Instr::Ori {
            rt: 25,
            rs: 25,
            imm: 0,
        },
        Class::Shadow,
        Fix::ReturnLow,
    )?;
    put_fixed(
        out,
        Instr::Jal { target: 0 },
        Class::Act,
        Fix::Function(function),
    )?;
    put_nop(out)
}

/// The argument of a number goes where the callee's frame has the parameter.
fn put_argument(out: &mut Sequence<Item>, place: Place, number: u32) -> Result<(), OutOfMemory>
    requires small { IsSmall place }
    requires few { number ≤ 4001 }
    ensures { OnOk result (out.new ≡ out.old ++ (emitted.fetched place 0 ++ store (emitted.source place 0) Role.Stack (2 ^ 16 - 8 * (number + 1)))) }
{
    put_fetched(out, place, 0)?;
    let offset = 65536 - 8 * (number + 1);
    put_store(out, source(place, 0), Role::Stack, offset as u16)
}

/// The arguments go where the callee's frame has its parameters.
fn put_arguments(out: &mut Sequence<Item>, places: &Places, args: &[u32]) -> Result<(), OutOfMemory>
    requires small { AreSmall places.now }
    requires few { length args.now ≤ 4001 }
    ensures { OnOk result (out.new ≡ out.old ++ emitted.argument_items places.now 0 args.now) }
{
    let mut number: u32 = 0;
    for arg in args {
        put_argument(out, place_of(places, *arg), number)?;
        number += 1;
    }
    Ok(())
}

/// A branch on a variable to a block.
fn put_branch(out: &mut Sequence<Item>, test: Place, when: bool, to: u32) -> Result<(), OutOfMemory>
    requires { IsSmall test }
    ensures { OnOk result (out.new ≡ out.old ++ (emitted.fetched test 0 ++
        going (branch_on when (reg_in Stream.First (emitted.source test 0))) (Fix.Block to) ∷ plain nop Class.Act ∷ [])) }
{
    put_fetched(out, test, 0)?;
    let (rs, _) = pair(source(test, 0));
    let instr = if when {
        Instr::Bne { rs, rt: 0, imm: 0 }
    } else {
        Instr::Beq { rs, rt: 0, imm: 0 }
    };
    put_fixed(out, instr, Class::Act, Fix::Block(to))?;
    put_nop(out)
}

/// What a function returns comes to the register for it.
fn put_returned(
    out: &mut Sequence<Item>,
    places: &Places,
    from: Option<u32>,
) -> Result<(), OutOfMemory>
    requires { AreSmall places.now }
    ensures { OnOk result (out.new ≡ out.old ++ emitted.returned_items places.now from) }
{
    match from {
        Some(from) => put_brought(out, place_of(places, from), Role::Value(0)),
        None => put_zero(out, Role::Value(0)),
    }
}

/// A return: the word, the return address, the frame of the caller.
fn put_return(
    out: &mut Sequence<Item>,
    places: &Places,
    pairs: u32,
    from: Option<u32>,
) -> Result<(), OutOfMemory>
    requires small { AreSmall places.now }
    requires pairs { pairs ≤ 4002 }
    ensures { OnOk result (out.new ≡ out.old ++ emitted.end_items 0 pairs places.now (MidEnd.Return from)) }
{
    put_returned(out, places, from)?;
    put_load(out, Role::Link, Role::Stack, 0)?;
    put_sum(out, Role::Stack, 8 * (pairs as u16))?;
    put(out, Instr::Jr { rs: 31 }, Class::Act)?;
    put_nop(out)
}

/// What an end becomes, in a function whose first block has this number, with frames of so many pairs.
pub(crate) fn put_end(
    out: &mut Sequence<Item>,
    first: u32,
    pairs: u32,
    places: &Places,
    end: &MidEnd,
) -> Result<(), OutOfMemory>
    requires small { AreSmall places.now }
    requires pairs { pairs ≤ 4002 }
    requires fits { EndFits first end.now }
    ensures { OnOk result (out.new ≡ out.old ++ emitted.end_items first pairs places.now end.now) }
{
    match end {
        MidEnd::Jump { to } => {
            put_fixed(
                out,
                Instr::J { target: 0 },
                Class::Act,
                Fix::Block(first + *to),
            )?;
            put_nop(out)
        }
        MidEnd::Branch { test, when, to } => put_branch(
            out,
            place_of(places, *test),
            *when,
            first + *to,
        ),
        MidEnd::Call { function, args, .. } => {
            put_arguments(out, places, args.as_slice())?;
            put_call(out, *function)
        }
        MidEnd::Return { from } => put_return(out, places, pairs, *from),
    }
}
