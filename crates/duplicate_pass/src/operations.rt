//! Operations on two registers in both streams, and the tests that they don't trap.

ghost use Rattle.std.specs.Prelude.{◌≡◌, ◌++◌, OnOk};
ghost use Rattle.double_law.specs.Roles.{RoleFits, reg_in, both, product};
ghost use Rattle.double_law.specs.Emitted as emitted;
ghost use Rattle.duplicate_pass.specs.Emits.{IsSmall, three_of, product_of, move_of};

use crate::basic::{pair, put, put_both, put_test, put_upper};
use crate::places::{put_fetched, source};
use double_law::Role;
use hard_items::{Class, Item};
use hard_words::{OutOfMemory, Sequence};
use mid_blocks::{MidOp, Place};
use mips_isa::Instr;

/// The instruction of an operation that is no product, or that it begins with.
fn three_of(op: MidOp, rd: u8, a: u8, b: u8) -> Instr
    ensures { result ≡ three_of op rd a b }
{
    match op {
        MidOp::Sub => Instr::Subu { rd, rs: a, rt: b },
        MidOp::Shl => Instr::Sllv { rd, rt: a, rs: b },
        MidOp::Shr => Instr::Srlv { rd, rt: a, rs: b },
        MidOp::Sar => Instr::Srav { rd, rt: a, rs: b },
        MidOp::And => Instr::And { rd, rs: a, rt: b },
        MidOp::Or => Instr::Or { rd, rs: a, rt: b },
        MidOp::Xor | MidOp::Eq | MidOp::Ne => Instr::Xor { rd, rs: a, rt: b },
        MidOp::Lt => Instr::Slt { rd, rs: a, rt: b },
        MidOp::LtU => Instr::Sltu { rd, rs: a, rt: b },
        MidOp::Add | MidOp::Mul | MidOp::Div | MidOp::DivU | MidOp::Rem | MidOp::RemU => {
            Instr::Addu { rd, rs: a, rt: b }
        }
    }
}

/// The product of an operation.
fn product_of(op: MidOp, a: u8, b: u8) -> Instr
    ensures { result ≡ product_of op a b }
{
    match op {
        MidOp::Div | MidOp::Rem => Instr::Div { rs: a, rt: b },
        MidOp::DivU | MidOp::RemU => Instr::Divu { rs: a, rt: b },
        _ => Instr::Mult { rs: a, rt: b },
    }
}

/// The move from HI or LO behind the product.
fn move_of(op: MidOp, rd: u8) -> Instr
    ensures { result ≡ move_of op rd }
{
    match op {
        MidOp::Rem | MidOp::RemU => Instr::Mfhi { rd },
        _ => Instr::Mflo { rd },
    }
}

/// An instruction on three registers in both streams.
fn put_three(
    out: &mut Sequence<Item>,
    op: MidOp,
    to: Role,
    a: Role,
    b: Role,
) -> Result<(), OutOfMemory>
    requires to { RoleFits to }
    requires left { RoleFits a }
    requires right { RoleFits b }
    ensures { OnOk result (out.new ≡ out.old ++ emitted.three (three_of op) to a b) }
{
    let (first, second) = pair(to);
    let (left, left_shadow) = pair(a);
    let (right, right_shadow) = pair(b);
    put_both(
        out,
        three_of(op, first, left, right),
        three_of(op, second, left_shadow, right_shadow),
    )
}

/// A product and its move in one stream, and then in the other.
fn put_product(
    out: &mut Sequence<Item>,
    op: MidOp,
    to: Role,
    a: Role,
    b: Role,
) -> Result<(), OutOfMemory>
    requires to { RoleFits to }
    requires left { RoleFits a }
    requires right { RoleFits b }
    ensures { OnOk result (out.new ≡ out.old ++ product (λ t. product_of op (reg_in t a) (reg_in t b)) (λ t. move_of op (reg_in t to))) }
{
    let (first, second) = pair(to);
    let (left, left_shadow) = pair(a);
    let (right, right_shadow) = pair(b);
    put(out, product_of(op, left, right), Class::Master)?;
    put(out, move_of(op, first), Class::Master)?;
    put(
        out,
        product_of(op, left_shadow, right_shadow),
        Class::Shadow,
    )?;
    put(out, move_of(op, second), Class::Shadow)
}

/// Whether a register is 0, in both streams.
fn put_is_zero(out: &mut Sequence<Item>, to: Role) -> Result<(), OutOfMemory>
    requires { RoleFits to }
    ensures { OnOk result (out.new ≡ out.old ++ both (λ t. Instr.Sltiu (reg_in t to) (reg_in t to) 1)) }
{
    let (first, second) = pair(to);
    put_both(
        out,
        Instr::Sltiu {
            rt: first,
            rs: first,
            imm: 1,
        },
        Instr::Sltiu {
            rt: second,
            rs: second,
            imm: 1,
        },
    )
}

/// Whether a register isn't 0, in both streams.
fn put_is_not_zero(out: &mut Sequence<Item>, to: Role) -> Result<(), OutOfMemory>
    requires { RoleFits to }
    ensures { OnOk result (out.new ≡ out.old ++ both (λ t. Instr.Sltu (reg_in t to) 0 (reg_in t to))) }
{
    let (first, second) = pair(to);
    put_both(
        out,
        Instr::Sltu {
            rd: first,
            rs: 0,
            rt: first,
        },
        Instr::Sltu {
            rd: second,
            rs: 0,
            rt: second,
        },
    )
}

/// An operation on two registers, where it does not trap.
pub(crate) fn put_operation(
    out: &mut Sequence<Item>,
    op: MidOp,
    to: Role,
    a: Role,
    b: Role,
) -> Result<(), OutOfMemory>
    requires to { RoleFits to }
    requires left { RoleFits a }
    requires right { RoleFits b }
    ensures { OnOk result (out.new ≡ out.old ++ emitted.operation op to a b) }
{
    match op {
        MidOp::Mul | MidOp::Div | MidOp::DivU | MidOp::Rem | MidOp::RemU => put_product(
            out, op, to, a, b,
        ),
        MidOp::Eq => {
            put_three(out, op, to, a, b)?;
            put_is_zero(out, to)
        }
        MidOp::Ne => {
            put_three(out, op, to, a, b)?;
            put_is_not_zero(out, to)
        }
        _ => put_three(out, op, to, a, b),
    }
}

/// The test that a divisor isn't 0.
fn put_divisor_test(out: &mut Sequence<Item>, right: Place) -> Result<(), OutOfMemory>
    requires { IsSmall right }
    ensures { OnOk result (out.new ≡ out.old ++ emitted.divisor_test right) }
{
    put_fetched(out, right, 1)?;
    put_test(out, source(right, 1), 7)
}

/// The bits of a register inverted, in a scratch register of both streams.
fn put_inverted(out: &mut Sequence<Item>, from: Role) -> Result<(), OutOfMemory>
    requires { RoleFits from }
    ensures { OnOk result (out.new ≡ out.old ++ both (λ t. Instr.Nor (reg_in t (Role.Value 1)) (reg_in t from) 0)) }
{
    let (first, second) = pair(Role::Value(1));
    let (master, shadow) = pair(from);
    put_both(
        out,
        Instr::Nor {
            rd: first,
            rs: master,
            rt: 0,
        },
        Instr::Nor {
            rd: second,
            rs: shadow,
            rt: 0,
        },
    )
}

/// The test that a quotient with sign isn't that of the least number by -1.
fn put_quotient_test(out: &mut Sequence<Item>, left: Place, right: Place) -> Result<(), OutOfMemory>
    requires left { IsSmall left }
    requires right { IsSmall right }
    ensures { OnOk result (out.new ≡ out.old ++ emitted.quotient_test left right) }
{
    put_upper(out, Role::Value(0), 32768)?;
    put_fetched(out, left, 1)?;
    put_three(
        out,
        MidOp::Xor,
        Role::Value(0),
        Role::Value(0),
        source(left, 1),
    )?;
    put_fetched(out, right, 1)?;
    put_inverted(out, source(right, 1))?;
    put_three(
        out,
        MidOp::Or,
        Role::Value(0),
        Role::Value(0),
        Role::Value(1),
    )?;
    put_test(out, Role::Value(0), 6)
}

/// The tests that an operation does not trap.
pub(crate) fn put_operation_tests(
    out: &mut Sequence<Item>,
    op: MidOp,
    left: Place,
    right: Place,
) -> Result<(), OutOfMemory>
    requires left { IsSmall left }
    requires right { IsSmall right }
    ensures { OnOk result (out.new ≡ out.old ++ emitted.operation_tests op left right) }
{
    match op {
        MidOp::Div | MidOp::Rem => {
            put_divisor_test(out, right)?;
            put_quotient_test(out, left, right)
        }
        MidOp::DivU | MidOp::RemU => put_divisor_test(out, right),
        _ => Ok(()),
    }
}
