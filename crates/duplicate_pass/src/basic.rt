//! Items put behind others: one thing done in both streams.

ghost use Rattle.std.specs.Prelude.{◌≡◌, ◌≤◌, ◌++◌, ◌∷◌, [], OnOk};
ghost use Rattle.hard_items.specs.Streams.{nop, plain};
ghost use Rattle.double_law.specs.Roles.{RoleFits, reg_in, both, move, load, store, test};
ghost use Rattle.double_law.specs.Emitted.{constant, service_items, input_items};

use double_law::{Role, Stream, register};
use hard_items::{Class, Fix, Item};
use hard_words::{OutOfMemory, Sequence};
use mips_isa::Instr;

/// Adds an item without a field.
pub(crate) fn put(out: &mut Sequence<Item>, instr: Instr, class: Class) -> Result<(), OutOfMemory>
    ensures { OnOk result (out.new ≡ out.old ++ plain instr class ∷ []) }
{
    out.push(Item {
        instr,
        class,
        fix: Fix::Plain,
    })?;
    Ok(())
}

/// Adds an instruction of each stream.
pub(crate) fn put_both(
    out: &mut Sequence<Item>,
    first: Instr,
    second: Instr,
) -> Result<(), OutOfMemory>
    ensures { OnOk result (out.new ≡ out.old ++ plain first Class.Master ∷ plain second Class.Shadow ∷ []) }
{
    put(out, first, Class::Master)?;
    put(out, second, Class::Shadow)
}

/// The registers of a role in both streams.
pub(crate) fn pair(role: Role) -> (u8, u8)
    requires { RoleFits role }
    ensures { result ≡ (reg_in Stream.First role, reg_in Stream.Second role) }
{
    (
        register(Stream::First, role),
        register(Stream::Second, role),
    )
}

/// A register comes to another in both streams.
pub(crate) fn put_move(out: &mut Sequence<Item>, to: Role, from: Role) -> Result<(), OutOfMemory>
    requires to { RoleFits to }
    requires from { RoleFits from }
    ensures { OnOk result (out.new ≡ out.old ++ move to from) }
{
    let (first, second) = pair(to);
    let (master, shadow) = pair(from);
    put_both(
        out,
        Instr::Addu {
            rd: first,
            rs: master,
            rt: 0,
        },
        Instr::Addu {
            rd: second,
            rs: shadow,
            rt: 0,
        },
    )
}

/// A load in both streams; the shadow's word stands four bytes above the master's.
pub(crate) fn put_load(
    out: &mut Sequence<Item>,
    to: Role,
    base: Role,
    offset: u16,
) -> Result<(), OutOfMemory>
    requires to { RoleFits to }
    requires base { RoleFits base }
    ensures { OnOk result (out.new ≡ out.old ++ load to base offset) }
{
    let (first, second) = pair(to);
    let (master, shadow) = pair(base);
    put_both(
        out,
        Instr::Lw {
            rt: first,
            rs: master,
            imm: offset,
        },
        Instr::Lw {
            rt: second,
            rs: shadow,
            imm: offset.wrapping_add(4),
        },
    )
}

/// A store in both streams.
pub(crate) fn put_store(
    out: &mut Sequence<Item>,
    from: Role,
    base: Role,
    offset: u16,
) -> Result<(), OutOfMemory>
    requires from { RoleFits from }
    requires base { RoleFits base }
    ensures { OnOk result (out.new ≡ out.old ++ store from base offset) }
{
    let above = offset.wrapping_add(4);
    let (first, second) = pair(from);
    let (master, shadow) = pair(base);
    put(
        out,
        Instr::Sw {
            rt: first,
            rs: master,
            imm: offset,
        },
        Class::Act,
    )?;
    put(
        out,
        Instr::Sw {
            rt: second,
            rs: shadow,
            imm: above,
        },
        Class::Act,
    )
}

/// A trap with a code where a register holds 0.
pub(crate) fn put_test(out: &mut Sequence<Item>, role: Role, code: u32) -> Result<(), OutOfMemory>
    requires { RoleFits role }
    ensures { OnOk result (out.new ≡ out.old ++ test role code) }
{
    let (first, _) = pair(role);
    put(
        out,
        Instr::Bne {
            rs: first,
            rt: 0,
            imm: 2,
        },
        Class::Act,
    )?;
    put_nop(out)?;
    put(out, Instr::Break { code }, Class::Act)
}

/// A nop in a delay slot.
pub(crate) fn put_nop(out: &mut Sequence<Item>) -> Result<(), OutOfMemory>
    ensures { OnOk result (out.new ≡ out.old ++ plain nop Class.Act ∷ []) }
{
    put(
        out,
        Instr::Sll {
            rd: 0,
            rt: 0,
            sh: 0,
        },
        Class::Act,
    )
}

/// The upper half of a word in both streams, zeros below.
pub(crate) fn put_upper(out: &mut Sequence<Item>, to: Role, half: u16) -> Result<(), OutOfMemory>
    requires { RoleFits to }
    ensures { OnOk result (out.new ≡ out.old ++ both (λ t. Instr.Lui (reg_in t to) half)) }
{
    let (first, second) = pair(to);
    put_both(
        out,
        Instr::Lui {
            rt: first,
            imm: half,
        },
        Instr::Lui {
            rt: second,
            imm: half,
        },
    )
}

/// The lower half of a word, beside what a register holds in both streams.
pub(crate) fn put_lower(out: &mut Sequence<Item>, to: Role, half: u16) -> Result<(), OutOfMemory>
    requires { RoleFits to }
    ensures { OnOk result (out.new ≡ out.old ++ both (λ t. Instr.Ori (reg_in t to) (reg_in t to) half)) }
{
    let (first, second) = pair(to);
    put_both(
        out,
        Instr::Ori {
            rt: first,
            rs: first,
            imm: half,
        },
        Instr::Ori {
            rt: second,
            rs: second,
            imm: half,
        },
    )
}

/// A half of a word without sign in both streams.
fn put_small(out: &mut Sequence<Item>, to: Role, half: u16) -> Result<(), OutOfMemory>
    requires { RoleFits to }
    ensures { OnOk result (out.new ≡ out.old ++ both (λ t. Instr.Ori (reg_in t to) 0 half)) }
{
    let (first, second) = pair(to);
    put_both(
        out,
        Instr::Ori {
            rt: first,
            rs: 0,
            imm: half,
        },
        Instr::Ori {
            rt: second,
            rs: 0,
            imm: half,
        },
    )
}

/// A sum of a register and a half with sign in both streams.
pub(crate) fn put_sum(out: &mut Sequence<Item>, to: Role, half: u16) -> Result<(), OutOfMemory>
    requires { RoleFits to }
    ensures { OnOk result (out.new ≡ out.old ++ both (λ t. Instr.Addiu (reg_in t to) (reg_in t to) half)) }
{
    let (first, second) = pair(to);
    put_both(
        out,
        Instr::Addiu {
            rt: first,
            rs: first,
            imm: half,
        },
        Instr::Addiu {
            rt: second,
            rs: second,
            imm: half,
        },
    )
}

/// A half with sign in both streams.
fn put_signed(out: &mut Sequence<Item>, to: Role, half: u16) -> Result<(), OutOfMemory>
    requires { RoleFits to }
    ensures { OnOk result (out.new ≡ out.old ++ both (λ t. Instr.Addiu (reg_in t to) 0 half)) }
{
    let (first, second) = pair(to);
    put_both(
        out,
        Instr::Addiu {
            rt: first,
            rs: 0,
            imm: half,
        },
        Instr::Addiu {
            rt: second,
            rs: 0,
            imm: half,
        },
    )
}

/// Zero in both streams.
pub(crate) fn put_zero(out: &mut Sequence<Item>, to: Role) -> Result<(), OutOfMemory>
    requires { RoleFits to }
    ensures { OnOk result (out.new ≡ out.old ++ both (λ t. Instr.Addu (reg_in t to) 0 0)) }
{
    let (first, second) = pair(to);
    put_both(
        out,
        Instr::Addu {
            rd: first,
            rs: 0,
            rt: 0,
        },
        Instr::Addu {
            rd: second,
            rs: 0,
            rt: 0,
        },
    )
}

/// A word in both streams, in one instruction each where one can make it, else in two.
pub(crate) fn put_constant(out: &mut Sequence<Item>, to: Role, word: u32) -> Result<(), OutOfMemory>
    requires { RoleFits to }
    ensures { OnOk result (out.new ≡ out.old ++ constant to word) }
{
    let upper = (word / 65536) as u16;
    let lower = (word % 65536) as u16;
    if upper == 0 {
        put_small(out, to, lower)
    } else if lower == 0 {
        put_upper(out, to, upper)
    } else if upper == 65535 && lower >= 32768 {
        put_signed(out, to, lower)
    } else {
        put_upper(out, to, upper)?;
        put_lower(out, to, lower)
    }
}

/// A service is called by its number.
pub(crate) fn put_service(out: &mut Sequence<Item>, number: u16) -> Result<(), OutOfMemory>
    ensures { OnOk result (out.new ≡ out.old ++ service_items number) }
{
    put(
        out,
        Instr::Ori {
            rt: 2,
            rs: 0,
            imm: number,
        },
        Class::Act,
    )?;
    put(out, Instr::Syscall, Class::Act)
}

/// The next word of the input comes to a register of both streams.
pub(crate) fn put_input(out: &mut Sequence<Item>, to: Role) -> Result<(), OutOfMemory>
    requires { RoleFits to }
    ensures { OnOk result (out.new ≡ out.old ++ input_items to) }
{
    let (first, second) = pair(to);
    put(
        out,
        Instr::Ori {
            rt: 2,
            rs: 0,
            imm: 5,
        },
        Class::Input,
    )?;
    put(out, Instr::Syscall, Class::Input)?;
    put(
        out,
        Instr::Addu {
            rd: first,
            rs: 2,
            rt: 0,
        },
        Class::Input,
    )?;
    put(
        out,
        Instr::Addu {
            rd: second,
            rs: 2,
            rt: 0,
        },
        Class::Input,
    )
}
