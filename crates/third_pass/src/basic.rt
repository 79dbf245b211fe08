//! Instructions put behind others: one thing done in all streams, and votes.

ghost use Rattle.std.specs.Prelude.{◌≡◌, ◌≤◌, ◌++◌, ◌∷◌, [], OnOk};
ghost use Rattle.third_law.specs.Roles.{RoleFits, reg_in, nop, each, vote, move, off_in, load, store, test};
ghost use Rattle.third_law.specs.Emitted.{constant, service_code, input_code};

use hard_words::{OutOfMemory, Sequence};
use mips_isa::Instr;
use third_law::{Role, Stream, register};

/// Adds an instruction.
pub(crate) fn put(out: &mut Sequence<Instr>, instr: Instr) -> Result<(), OutOfMemory>
    ensures { OnOk result (out.new ≡ out.old ++ instr ∷ []) }
{
    out.push(instr)?;
    Ok(())
}

/// Adds an instruction of each stream.
pub(crate) fn put_each(
    out: &mut Sequence<Instr>,
    first: Instr,
    second: Instr,
    third: Instr,
) -> Result<(), OutOfMemory>
    ensures { OnOk result (out.new ≡ out.old ++ first ∷ second ∷ third ∷ []) }
{
    put(out, first)?;
    put(out, second)?;
    put(out, third)
}

/// The registers of a role in all streams.
pub(crate) fn triple(role: Role) -> (u8, u8, u8)
    requires { RoleFits role }
    ensures { result ≡ (reg_in Stream.First role, reg_in Stream.Second role, reg_in Stream.Third role) }
{
    (
        register(Stream::First, role),
        register(Stream::Second, role),
        register(Stream::Third, role),
    )
}

/// The instruction that does nothing.
pub(crate) fn put_nop(out: &mut Sequence<Instr>) -> Result<(), OutOfMemory>
    ensures { OnOk result (out.new ≡ out.old ++ nop ∷ []) }
{
    put(
        out,
        Instr::Sll {
            rd: 0,
            rt: 0,
            sh: 0,
        },
    )
}

/// The first half of a vote: what the majority is made of, in two registers.
fn put_bits(out: &mut Sequence<Instr>, a: u8, b: u8, c: u8) -> Result<(), OutOfMemory>
    ensures { OnOk result (out.new ≡ out.old ++ Instr.And 1 a b ∷ Instr.Or 3 a b ∷ Instr.And 3 3 c ∷ []) }
{
    put_each(
        out,
        Instr::And {
            rd: 1,
            rs: a,
            rt: b,
        },
        Instr::Or {
            rd: 3,
            rs: a,
            rt: b,
        },
        Instr::And {
            rd: 3,
            rs: 3,
            rt: c,
        },
    )
}

/// The second half: the majority comes to the three registers.
fn put_majority(out: &mut Sequence<Instr>, a: u8, b: u8, c: u8) -> Result<(), OutOfMemory>
    ensures { OnOk result (out.new ≡ out.old ++ Instr.Or a 1 3 ∷ Instr.Addu b a 0 ∷ Instr.Addu c a 0 ∷ []) }
{
    put_each(
        out,
        Instr::Or {
            rd: a,
            rs: 1,
            rt: 3,
        },
        Instr::Addu {
            rd: b,
            rs: a,
            rt: 0,
        },
        Instr::Addu {
            rd: c,
            rs: a,
            rt: 0,
        },
    )
}

/// A vote on a role.
pub(crate) fn put_vote(out: &mut Sequence<Instr>, role: Role) -> Result<(), OutOfMemory>
    requires { RoleFits role }
    ensures { OnOk result (out.new ≡ out.old ++ vote role) }
{
    let (a, b, c) = triple(role);
    put_bits(out, a, b, c)?;
    put_majority(out, a, b, c)
}

/// A register comes to another in all streams.
pub(crate) fn put_move(out: &mut Sequence<Instr>, to: Role, from: Role) -> Result<(), OutOfMemory>
    requires to { RoleFits to }
    requires from { RoleFits from }
    ensures { OnOk result (out.new ≡ out.old ++ move to from) }
{
    let (to_a, to_b, to_c) = triple(to);
    let (from_a, from_b, from_c) = triple(from);
    put_each(
        out,
        Instr::Addu {
            rd: to_a,
            rs: from_a,
            rt: 0,
        },
        Instr::Addu {
            rd: to_b,
            rs: from_b,
            rt: 0,
        },
        Instr::Addu {
            rd: to_c,
            rs: from_c,
            rt: 0,
        },
    )
}

/// The loads of all streams.
fn put_loads(
    out: &mut Sequence<Instr>,
    to: Role,
    base: Role,
    offset: u16,
) -> Result<(), OutOfMemory>
    requires to { RoleFits to }
    requires base { RoleFits base }
    ensures { OnOk result (out.new ≡ out.old ++ each (λ t. Instr.Lw (reg_in t to) (reg_in t base) (off_in t offset))) }
{
    let (to_a, to_b, to_c) = triple(to);
    let (base_a, base_b, base_c) = triple(base);
    put_each(
        out,
        Instr::Lw {
            rt: to_a,
            rs: base_a,
            imm: offset,
        },
        Instr::Lw {
            rt: to_b,
            rs: base_b,
            imm: offset.wrapping_add(4),
        },
        Instr::Lw {
            rt: to_c,
            rs: base_c,
            imm: offset.wrapping_add(8),
        },
    )
}

/// A load in all streams, behind a vote on its base; each stream's word stands four bytes above that of the one before it.
pub(crate) fn put_load(
    out: &mut Sequence<Instr>,
    to: Role,
    base: Role,
    offset: u16,
) -> Result<(), OutOfMemory>
    requires to { RoleFits to }
    requires base { RoleFits base }
    ensures { OnOk result (out.new ≡ out.old ++ load to base offset) }
{
    put_vote(out, base)?;
    put_loads(out, to, base, offset)?;
    put_nop(out)
}

/// The stores of all streams.
fn put_stores(
    out: &mut Sequence<Instr>,
    from: Role,
    base: Role,
    offset: u16,
) -> Result<(), OutOfMemory>
    requires from { RoleFits from }
    requires base { RoleFits base }
    ensures { OnOk result (out.new ≡ out.old ++ each (λ t. Instr.Sw (reg_in t from) (reg_in t base) (off_in t offset))) }
{
    let (from_a, from_b, from_c) = triple(from);
    let (base_a, base_b, base_c) = triple(base);
    put_each(
        out,
        Instr::Sw {
            rt: from_a,
            rs: base_a,
            imm: offset,
        },
        Instr::Sw {
            rt: from_b,
            rs: base_b,
            imm: offset.wrapping_add(4),
        },
        Instr::Sw {
            rt: from_c,
            rs: base_c,
            imm: offset.wrapping_add(8),
        },
    )
}

/// A store in all streams, behind votes on its value and on its base.
pub(crate) fn put_store(
    out: &mut Sequence<Instr>,
    from: Role,
    base: Role,
    offset: u16,
) -> Result<(), OutOfMemory>
    requires from { RoleFits from }
    requires base { RoleFits base }
    ensures { OnOk result (out.new ≡ out.old ++ store from base offset) }
{
    put_vote(out, from)?;
    put_vote(out, base)?;
    put_stores(out, from, base, offset)
}

/// A trap with a code where a register holds 0, behind a vote on it.
pub(crate) fn put_test(out: &mut Sequence<Instr>, role: Role, code: u32) -> Result<(), OutOfMemory>
    requires { RoleFits role }
    ensures { OnOk result (out.new ≡ out.old ++ test role code) }
{
    put_vote(out, role)?;
    put(
        out,
        Instr::Bne {
            rs: register(Stream::First, role),
            rt: 0,
            imm: 2,
        },
    )?;
    put_nop(out)?;
    put(out, Instr::Break { code })
}

/// The upper half of a word in all streams, zeros below.
pub(crate) fn put_upper(out: &mut Sequence<Instr>, to: Role, half: u16) -> Result<(), OutOfMemory>
    requires to { RoleFits to }
    ensures { OnOk result (out.new ≡ out.old ++ each (λ t. Instr.Lui (reg_in t to) half)) }
{
    let (to_a, to_b, to_c) = triple(to);
    put_each(
        out,
        Instr::Lui {
            rt: to_a,
            imm: half,
        },
        Instr::Lui {
            rt: to_b,
            imm: half,
        },
        Instr::Lui {
            rt: to_c,
            imm: half,
        },
    )
}

/// The lower half of a word, beside what a register holds, in all streams.
pub(crate) fn put_lower(out: &mut Sequence<Instr>, to: Role, half: u16) -> Result<(), OutOfMemory>
    requires to { RoleFits to }
    ensures { OnOk result (out.new ≡ out.old ++ each (λ t. Instr.Ori (reg_in t to) (reg_in t to) half)) }
{
    let (to_a, to_b, to_c) = triple(to);
    put_each(
        out,
        Instr::Ori {
            rt: to_a,
            rs: to_a,
            imm: half,
        },
        Instr::Ori {
            rt: to_b,
            rs: to_b,
            imm: half,
        },
        Instr::Ori {
            rt: to_c,
            rs: to_c,
            imm: half,
        },
    )
}

/// A half of a word without sign in all streams.
fn put_small(out: &mut Sequence<Instr>, to: Role, half: u16) -> Result<(), OutOfMemory>
    requires to { RoleFits to }
    ensures { OnOk result (out.new ≡ out.old ++ each (λ t. Instr.Ori (reg_in t to) 0 half)) }
{
    let (to_a, to_b, to_c) = triple(to);
    put_each(
        out,
        Instr::Ori {
            rt: to_a,
            rs: 0,
            imm: half,
        },
        Instr::Ori {
            rt: to_b,
            rs: 0,
            imm: half,
        },
        Instr::Ori {
            rt: to_c,
            rs: 0,
            imm: half,
        },
    )
}

/// A sum of a register and a half with sign in all streams.
pub(crate) fn put_sum(out: &mut Sequence<Instr>, to: Role, half: u16) -> Result<(), OutOfMemory>
    requires to { RoleFits to }
    ensures { OnOk result (out.new ≡ out.old ++ each (λ t. Instr.Addiu (reg_in t to) (reg_in t to) half)) }
{
    let (to_a, to_b, to_c) = triple(to);
    put_each(
        out,
        Instr::Addiu {
            rt: to_a,
            rs: to_a,
            imm: half,
        },
        Instr::Addiu {
            rt: to_b,
            rs: to_b,
            imm: half,
        },
        Instr::Addiu {
            rt: to_c,
            rs: to_c,
            imm: half,
        },
    )
}

/// A half with sign in all streams.
fn put_signed(out: &mut Sequence<Instr>, to: Role, half: u16) -> Result<(), OutOfMemory>
    requires to { RoleFits to }
    ensures { OnOk result (out.new ≡ out.old ++ each (λ t. Instr.Addiu (reg_in t to) 0 half)) }
{
    let (to_a, to_b, to_c) = triple(to);
    put_each(
        out,
        Instr::Addiu {
            rt: to_a,
            rs: 0,
            imm: half,
        },
        Instr::Addiu {
            rt: to_b,
            rs: 0,
            imm: half,
        },
        Instr::Addiu {
            rt: to_c,
            rs: 0,
            imm: half,
        },
    )
}

/// Zero in all streams.
pub(crate) fn put_zero(out: &mut Sequence<Instr>, to: Role) -> Result<(), OutOfMemory>
    requires to { RoleFits to }
    ensures { OnOk result (out.new ≡ out.old ++ each (λ t. Instr.Addu (reg_in t to) 0 0)) }
{
    let (to_a, to_b, to_c) = triple(to);
    put_each(
        out,
        Instr::Addu {
            rd: to_a,
            rs: 0,
            rt: 0,
        },
        Instr::Addu {
            rd: to_b,
            rs: 0,
            rt: 0,
        },
        Instr::Addu {
            rd: to_c,
            rs: 0,
            rt: 0,
        },
    )
}

/// A word in all streams, in one instruction each where one can make it, else in two.
pub(crate) fn put_constant(
    out: &mut Sequence<Instr>,
    to: Role,
    word: u32,
) -> Result<(), OutOfMemory>
    requires { RoleFits to }
    ensures { OnOk result (out.new ≡ out.old ++ constant to word) }
{
    let upper = (word / 65536) as u16;
    let lower = (word % 65536) as u16;
    if upper == 0 {
        put_small(out, to, lower)
    } else if lower == 0 {
        put_upper(out, to, upper)
    } else if upper == 65535 && lower >= 32768 {
        put_signed(out, to, lower)
    } else {
        put_upper(out, to, upper)?;
        put_lower(out, to, lower)
    }
}

/// A service is called by its number, behind a vote on the register that it takes.
pub(crate) fn put_service(out: &mut Sequence<Instr>, number: u16) -> Result<(), OutOfMemory>
    ensures { OnOk result (out.new ≡ out.old ++ service_code number) }
{
    put_vote(out, Role::Value(0))?;
    put(
        out,
        Instr::Ori {
            rt: 2,
            rs: 0,
            imm: number,
        },
    )?;
    put(out, Instr::Syscall)
}

/// What a service left comes to a register of all streams.
fn put_taken(out: &mut Sequence<Instr>, to: Role) -> Result<(), OutOfMemory>
    requires to { RoleFits to }
    ensures { OnOk result (out.new ≡ out.old ++ each (λ t. Instr.Addu (reg_in t to) 2 0)) }
{
    let (to_a, to_b, to_c) = triple(to);
    put_each(
        out,
        Instr::Addu {
            rd: to_a,
            rs: 2,
            rt: 0,
        },
        Instr::Addu {
            rd: to_b,
            rs: 2,
            rt: 0,
        },
        Instr::Addu {
            rd: to_c,
            rs: 2,
            rt: 0,
        },
    )
}

/// The next word of the input comes to a register of all streams.
pub(crate) fn put_input(out: &mut Sequence<Instr>, to: Role) -> Result<(), OutOfMemory>
    requires { RoleFits to }
    ensures { OnOk result (out.new ≡ out.old ++ input_code to) }
{
    put(
        out,
        Instr::Ori {
            rt: 2,
            rs: 0,
            imm: 5,
        },
    )?;
    put(out, Instr::Syscall)?;
    put_taken(out, to)
}
