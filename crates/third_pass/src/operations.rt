//! Operations on two registers in all streams, and the tests that they don't trap.

ghost use Rattle.std.specs.Prelude.{◌≡◌, ◌++◌, ◌∷◌, [], OnOk};
ghost use Rattle.third_law.specs.Roles.{RoleFits, reg_in, nop, each, product};
ghost use Rattle.third_law.specs.Emitted as emitted;
ghost use Rattle.third_pass.specs.Emits.{IsSmall, three_of, product_of, move_of};

use crate::basic::{put, put_each, put_nop, put_test, put_upper, triple};
use crate::places::{put_fetched, source};
use hard_words::{OutOfMemory, Sequence};
use mid_blocks::{MidOp, Place};
use mips_isa::Instr;
use third_law::Role;

/// The instruction of an operation that is no product, or that it begins with.
fn three_of(op: MidOp, rd: u8, a: u8, b: u8) -> Instr
    ensures { result ≡ three_of op rd a b }
{
    match op {
        MidOp::Sub => Instr::Subu { rd, rs: a, rt: b },
        MidOp::Shl => Instr::Sllv { rd, rt: a, rs: b },
        MidOp::Shr => Instr::Srlv { rd, rt: a, rs: b },
        MidOp::Sar => Instr::Srav { rd, rt: a, rs: b },
        MidOp::And => Instr::And { rd, rs: a, rt: b },
        MidOp::Or => Instr::Or { rd, rs: a, rt: b },
        MidOp::Xor | MidOp::Eq | MidOp::Ne => Instr::Xor { rd, rs: a, rt: b },
        MidOp::Lt => Instr::Slt { rd, rs: a, rt: b },
        MidOp::LtU => Instr::Sltu { rd, rs: a, rt: b },
        MidOp::Add | MidOp::Mul | MidOp::Div | MidOp::DivU | MidOp::Rem | MidOp::RemU => {
            Instr::Addu { rd, rs: a, rt: b }
        }
    }
}

/// The product of an operation.
fn product_of(op: MidOp, a: u8, b: u8) -> Instr
    ensures { result ≡ product_of op a b }
{
    match op {
        MidOp::Div | MidOp::Rem => Instr::Div { rs: a, rt: b },
        MidOp::DivU | MidOp::RemU => Instr::Divu { rs: a, rt: b },
        _ => Instr::Mult { rs: a, rt: b },
    }
}

/// The move from HI or LO behind the product.
fn move_of(op: MidOp, rd: u8) -> Instr
    ensures { result ≡ move_of op rd }
{
    match op {
        MidOp::Rem | MidOp::RemU => Instr::Mfhi { rd },
        _ => Instr::Mflo { rd },
    }
}

/// An instruction on three registers in all streams.
fn put_three(
    out: &mut Sequence<Instr>,
    op: MidOp,
    to: Role,
    a: Role,
    b: Role,
) -> Result<(), OutOfMemory>
    requires to { RoleFits to }
    requires left { RoleFits a }
    requires right { RoleFits b }
    ensures { OnOk result (out.new ≡ out.old ++ emitted.three (three_of op) to a b) }
{
    let (to_a, to_b, to_c) = triple(to);
    let (left_a, left_b, left_c) = triple(a);
    let (right_a, right_b, right_c) = triple(b);
    put_each(
        out,
        three_of(op, to_a, left_a, right_a),
        three_of(op, to_b, left_b, right_b),
        three_of(op, to_c, left_c, right_c),
    )
}

/// A product, its move and two words that must pass, in one stream.
fn put_one_product(
    out: &mut Sequence<Instr>,
    op: MidOp,
    to: u8,
    left: u8,
    right: u8,
) -> Result<(), OutOfMemory>
    ensures { OnOk result (out.new ≡ out.old ++ product_of op left right ∷ move_of op to ∷ nop ∷ nop ∷ []) }
{
    put(out, product_of(op, left, right))?;
    put(out, move_of(op, to))?;
    put_nop(out)?;
    put_nop(out)
}

/// A product and its move in one stream after the other.
fn put_product(
    out: &mut Sequence<Instr>,
    op: MidOp,
    to: Role,
    a: Role,
    b: Role,
) -> Result<(), OutOfMemory>
    requires to { RoleFits to }
    requires left { RoleFits a }
    requires right { RoleFits b }
    ensures { OnOk result (out.new ≡ out.old ++ product (λ t. product_of op (reg_in t a) (reg_in t b)) (λ t. move_of op (reg_in t to))) }
{
    let (to_a, to_b, to_c) = triple(to);
    let (left_a, left_b, left_c) = triple(a);
    let (right_a, right_b, right_c) = triple(b);
    put_one_product(out, op, to_a, left_a, right_a)?;
    put_one_product(out, op, to_b, left_b, right_b)?;
    put_one_product(out, op, to_c, left_c, right_c)
}

/// Whether a register is 0, in all streams.
fn put_is_zero(out: &mut Sequence<Instr>, to: Role) -> Result<(), OutOfMemory>
    requires to { RoleFits to }
    ensures { OnOk result (out.new ≡ out.old ++ each (λ t. Instr.Sltiu (reg_in t to) (reg_in t to) 1)) }
{
    let (to_a, to_b, to_c) = triple(to);
    put_each(
        out,
        Instr::Sltiu {
            rt: to_a,
            rs: to_a,
            imm: 1,
        },
        Instr::Sltiu {
            rt: to_b,
            rs: to_b,
            imm: 1,
        },
        Instr::Sltiu {
            rt: to_c,
            rs: to_c,
            imm: 1,
        },
    )
}

/// Whether a register isn't 0, in all streams.
fn put_is_not_zero(out: &mut Sequence<Instr>, to: Role) -> Result<(), OutOfMemory>
    requires to { RoleFits to }
    ensures { OnOk result (out.new ≡ out.old ++ each (λ t. Instr.Sltu (reg_in t to) 0 (reg_in t to))) }
{
    let (to_a, to_b, to_c) = triple(to);
    put_each(
        out,
        Instr::Sltu {
            rd: to_a,
            rs: 0,
            rt: to_a,
        },
        Instr::Sltu {
            rd: to_b,
            rs: 0,
            rt: to_b,
        },
        Instr::Sltu {
            rd: to_c,
            rs: 0,
            rt: to_c,
        },
    )
}

/// An operation on two registers, where it does not trap.
pub(crate) fn put_operation(
    out: &mut Sequence<Instr>,
    op: MidOp,
    to: Role,
    a: Role,
    b: Role,
) -> Result<(), OutOfMemory>
    requires to { RoleFits to }
    requires left { RoleFits a }
    requires right { RoleFits b }
    ensures { OnOk result (out.new ≡ out.old ++ emitted.operation op to a b) }
{
    match op {
        MidOp::Mul | MidOp::Div | MidOp::DivU | MidOp::Rem | MidOp::RemU => put_product(
            out, op, to, a, b,
        ),
        MidOp::Eq => {
            put_three(out, op, to, a, b)?;
            put_is_zero(out, to)
        }
        MidOp::Ne => {
            put_three(out, op, to, a, b)?;
            put_is_not_zero(out, to)
        }
        _ => put_three(out, op, to, a, b),
    }
}

/// The test that a divisor isn't 0.
fn put_divisor_test(out: &mut Sequence<Instr>, right: Place) -> Result<(), OutOfMemory>
    requires { IsSmall right }
    ensures { OnOk result (out.new ≡ out.old ++ emitted.divisor_test right) }
{
    put_fetched(out, right, 1)?;
    put_test(out, source(right, 1), 7)
}

/// The bits of a register inverted, in a scratch register of all streams.
fn put_inverted(out: &mut Sequence<Instr>, from: Role) -> Result<(), OutOfMemory>
    requires from { RoleFits from }
    ensures { OnOk result (out.new ≡ out.old ++ each (λ t. Instr.Nor (reg_in t (Role.Value 1)) (reg_in t from) 0)) }
{
    let (to_a, to_b, to_c) = triple(Role::Value(1));
    let (from_a, from_b, from_c) = triple(from);
    put_each(
        out,
        Instr::Nor {
            rd: to_a,
            rs: from_a,
            rt: 0,
        },
        Instr::Nor {
            rd: to_b,
            rs: from_b,
            rt: 0,
        },
        Instr::Nor {
            rd: to_c,
            rs: from_c,
            rt: 0,
        },
    )
}

/// The test that a quotient with sign isn't that of the least number by -1.
fn put_quotient_test(
    out: &mut Sequence<Instr>,
    left: Place,
    right: Place,
) -> Result<(), OutOfMemory>
    requires left { IsSmall left }
    requires right { IsSmall right }
    ensures { OnOk result (out.new ≡ out.old ++ emitted.quotient_test left right) }
{
    put_upper(out, Role::Value(0), 32768)?;
    put_fetched(out, left, 1)?;
    put_three(
        out,
        MidOp::Xor,
        Role::Value(0),
        Role::Value(0),
        source(left, 1),
    )?;
    put_fetched(out, right, 1)?;
    put_inverted(out, source(right, 1))?;
    put_three(
        out,
        MidOp::Or,
        Role::Value(0),
        Role::Value(0),
        Role::Value(1),
    )?;
    put_test(out, Role::Value(0), 6)
}

/// The tests that an operation does not trap.
pub(crate) fn put_operation_tests(
    out: &mut Sequence<Instr>,
    op: MidOp,
    left: Place,
    right: Place,
) -> Result<(), OutOfMemory>
    requires left { IsSmall left }
    requires right { IsSmall right }
    ensures { OnOk result (out.new ≡ out.old ++ emitted.operation_tests op left right) }
{
    match op {
        MidOp::Div | MidOp::Rem => {
            put_divisor_test(out, right)?;
            put_quotient_test(out, left, right)
        }
        MidOp::DivU | MidOp::RemU => put_divisor_test(out, right),
        _ => Ok(()),
    }
}
