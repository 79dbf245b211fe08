//! What each end of a block becomes.

ghost use Rattle.std.specs.Prelude.{◌≡◌, ◌≤◌, ◌<◌, ◌+◌, ◌-◌, ◌*◌, ◌/◌, ◌%◌, ◌^◌, ◌++◌, ◌∷◌, [], OnOk, length};
ghost use Rattle.third_law.specs.Roles.{RoleFits, reg_in, nop, vote, store};
ghost use Rattle.third_law.specs.Program.{looked_up};
ghost use Rattle.third_law.specs.Emitted as emitted;
ghost use Rattle.third_pass.specs.Emits.{IsSmall, AreSmall, EndFits};

use crate::basic::{put, put_load, put_nop, put_store, put_sum, put_vote, put_zero};
use crate::places::{place_of, put_brought, put_fetched, source};
use hard_words::{OutOfMemory, Sequence};
use mid_blocks::{MidEnd, Place, Places};
use mips_isa::Instr;
use third_law::{Role, Stream, register};

/// A number of a list, or 0.
pub(crate) fn looked_up(list: &[u32], at: u32) -> u32
    ensures { result ≡ looked_up list.now at }
{
    if (at as usize) < list.len() {
        list[at as usize]
    } else {
        0
    }
}

/// The two halves of a word in a register.
fn put_word(out: &mut Sequence<Instr>, register: u8, word: u32) -> Result<(), OutOfMemory>
    ensures { OnOk result (out.new ≡ out.old ++ Instr.Lui register (word / 2 ^ 16) ∷ Instr.Ori register register (word % 2 ^ 16) ∷ []) }
{
    put(
        out,
        Instr::Lui {
            rt: register,
            imm: (word / 65536) as u16,
        },
    )?;
    put(
        out,
        Instr::Ori {
            rt: register,
            rs: register,
            imm: (word % 65536) as u16,
        },
    )
}

/// A call of the function at an address: the address behind it comes to the return addresses of two streams, and the call brings it
/// to the first's.
pub(crate) fn put_call(out: &mut Sequence<Instr>, to: u32, back: u32) -> Result<(), OutOfMemory>
    ensures { OnOk result (out.new ≡ out.old ++ emitted.call_code to back) }
{
    put_word(out, 25, back)?;
    put_word(out, 24, back)?;
    put(out, Instr::Jal { target: to / 4 })?;
    put_nop(out)
}

/// The argument of a number goes where the callee's frame has the parameter.
fn put_argument(out: &mut Sequence<Instr>, place: Place, number: u32) -> Result<(), OutOfMemory>
    requires small { IsSmall place }
    requires few { number ≤ 2001 }
    ensures { OnOk result (out.new ≡ out.old ++ (emitted.fetched place 0 ++ store (emitted.source place 0) Role.Stack (2 ^ 16 - 16 * (number + 1)))) }
{
    put_fetched(out, place, 0)?;
    let offset = 65536 - 16 * (number + 1);
    put_store(out, source(place, 0), Role::Stack, offset as u16)
}

/// The arguments go where the callee's frame has its parameters.
fn put_arguments(
    out: &mut Sequence<Instr>,
    places: &Places,
    args: &[u32],
) -> Result<(), OutOfMemory>
    requires small { AreSmall places.now }
    requires few { length args.now ≤ 2001 }
    ensures { OnOk result (out.new ≡ out.old ++ emitted.argument_code places.now 0 args.now) }
{
    let mut number: u32 = 0;
    for arg in args {
        put_argument(out, place_of(places, *arg), number)?;
        number += 1;
    }
    Ok(())
}

/// A jump to an address.
fn put_jump(out: &mut Sequence<Instr>, to: u32) -> Result<(), OutOfMemory>
    ensures { OnOk result (out.new ≡ out.old ++ emitted.jump_code to) }
{
    put(out, Instr::J { target: to / 4 })?;
    put_nop(out)
}

/// A branch over a jump to an address, behind a vote on what it tests.
fn put_branch(out: &mut Sequence<Instr>, test: Role, when: bool, to: u32) -> Result<(), OutOfMemory>
    requires { RoleFits test }
    ensures { OnOk result (out.new ≡ out.old ++ emitted.branch_code when test to) }
{
    put_vote(out, test)?;
    let rs = register(Stream::First, test);
    if when {
        put(out, Instr::Beq { rs, rt: 0, imm: 3 })?;
    } else {
        put(out, Instr::Bne { rs, rt: 0, imm: 3 })?;
    }
    put_nop(out)?;
    put_jump(out, to)
}

/// What a function returns comes to the register for it.
fn put_returned(
    out: &mut Sequence<Instr>,
    places: &Places,
    from: Option<u32>,
) -> Result<(), OutOfMemory>
    requires { AreSmall places.now }
    ensures { OnOk result (out.new ≡ out.old ++ emitted.returned_code places.now from) }
{
    match from {
        Some(from) => put_brought(out, place_of(places, from), Role::Value(0)),
        None => put_zero(out, Role::Value(0)),
    }
}

/// A return: the word, the return address, the frame of the caller.
fn put_return(
    out: &mut Sequence<Instr>,
    places: &Places,
    pairs: u32,
    from: Option<u32>,
) -> Result<(), OutOfMemory>
    requires small { AreSmall places.now }
    requires pairs { pairs ≤ 2002 }
    ensures { OnOk result (out.new ≡ out.old ++ emitted.return_code pairs places.now from) }
{
    put_returned(out, places, from)?;
    put_load(out, Role::Link, Role::Stack, 0)?;
    put_sum(out, Role::Stack, 16 * (pairs as u16))?;
    put_vote(out, Role::Link)?;
    put(out, Instr::Jr { rs: 31 })?;
    put_nop(out)
}

/// What an end becomes, in a block of this number among all, in a function whose first block has that one, with frames of so many
/// pairs.
pub(crate) fn put_end(
    out: &mut Sequence<Instr>,
    starts: &[u32],
    firsts: &[u32],
    own: u32,
    first: u32,
    pairs: u32,
    places: &Places,
    end: &MidEnd,
) -> Result<(), OutOfMemory>
    requires small { AreSmall places.now }
    requires pairs { pairs ≤ 2002 }
    requires own { own < 2 ^ 32 - 1 }
    requires fits { EndFits first end.now }
    ensures { OnOk result (out.new ≡ out.old ++ emitted.end_code (looked_up starts.now) (looked_up firsts.now) own first pairs places.now end.now) }
{
    match end {
        MidEnd::Jump { to } => put_jump(out, looked_up(starts, first + *to)),
        MidEnd::Branch { test, when, to } => {
            let test = place_of(places, *test);
            put_fetched(out, test, 0)?;
            put_branch(out, source(test, 0), *when, looked_up(starts, first + *to))
        }
        MidEnd::Call { function, args, .. } => {
            put_arguments(out, places, args.as_slice())?;
            let to = looked_up(starts, looked_up(firsts, *function));
            put_call(out, to, looked_up(starts, own + 1))
        }
        MidEnd::Return { from } => put_return(out, places, pairs, *from),
    }
}
