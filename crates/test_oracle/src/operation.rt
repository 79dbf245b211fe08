//! Operations on two words.

ghost use Rattle.std.specs.Prelude.{◌≡◌};
ghost use Rattle.mid_blocks.specs.Run.{operate};

use hard_words::{
    add, divide, divide_signed, less, less_signed, mul, shift_left, shift_right,
    shift_right_signed, sub,
};
use mid_blocks::MidOp;

/// The result of an operation on two words, or the number of the trap.
pub(crate) fn operate(op: MidOp, left: u32, right: u32) -> Result<u32, u32>
    ensures { result ≡ operate op left right }
{
    match op {
        MidOp::Add => Ok(add(left, right)),
        MidOp::Sub => Ok(sub(left, right)),
        MidOp::Mul => Ok(mul(left, right)),
        MidOp::Div => quotient_signed(left, right),
        MidOp::DivU => quotient(left, right),
        MidOp::Rem => remainder_signed(left, right),
        MidOp::RemU => remainder(left, right),
        MidOp::Shl => Ok(shift_left(left, right)),
        MidOp::Shr => Ok(shift_right(left, right)),
        MidOp::Sar => Ok(shift_right_signed(left, right)),
        MidOp::And => Ok(left & right),
        MidOp::Or => Ok(left | right),
        MidOp::Xor => Ok(left ^ right),
        MidOp::Lt => Ok(less_signed(left, right) as u32),
        MidOp::LtU => Ok(less(left, right) as u32),
        MidOp::Eq => Ok((left == right) as u32),
        MidOp::Ne => Ok((left != right) as u32),
    }
}

// The quotient without sign.
fn quotient(left: u32, right: u32) -> Result<u32, u32>
    ensures { result ≡ operate MidOp.DivU left right }
{
    if right == 0 {
        Err(7)
    } else {
        Ok(divide(left, right).1)
    }
}

// The remainder without sign.
fn remainder(left: u32, right: u32) -> Result<u32, u32>
    ensures { result ≡ operate MidOp.RemU left right }
{
    if right == 0 {
        Err(7)
    } else {
        Ok(divide(left, right).0)
    }
}

// The quotient with sign.
fn quotient_signed(left: u32, right: u32) -> Result<u32, u32>
    ensures { result ≡ operate MidOp.Div left right }
{
    if right == 0 {
        Err(7)
    } else if left == 1 << 31 && right == u32::MAX {
        Err(6)
    } else {
        Ok(divide_signed(left, right).1)
    }
}

// The remainder with sign.
fn remainder_signed(left: u32, right: u32) -> Result<u32, u32>
    ensures { result ≡ operate MidOp.Rem left right }
{
    if right == 0 {
        Err(7)
    } else if left == 1 << 31 && right == u32::MAX {
        Err(6)
    } else {
        Ok(divide_signed(left, right).0)
    }
}
