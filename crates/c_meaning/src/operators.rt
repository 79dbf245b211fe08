//! The operators on values (ISO/IEC 9899:1999, 6.5).

ghost use Rattle.std.specs.Prelude.{◌≡◌, ◌<◌, ◌^◌, OnOk, IfOk, Result};
ghost use Rattle.c_meaning.specs.Operators.{less, quotient, remainder, shifted_right, binary_word, binary_type, operand_type, operate, unary_word, unary_type, operate_unary};

use crate::run::{EvalEnd, Value};
use c_syntax::{BinaryOp, UnaryOp};

fn quotient(is_unsigned: bool, x: u32, y: u32) -> Result<u32, EvalEnd>
    ensures { result ≡ quotient is_unsigned x y }
{
    if y == 0 {
        return Err(EvalEnd::Trapped(7));
    }
    if is_unsigned {
        return Ok(x / y);
    }
    if x == 1 << 31 && y == u32::MAX {
        return Err(EvalEnd::Trapped(6));
    }
    Ok((x.cast_signed() / y.cast_signed()).cast_unsigned())
}

fn remainder(is_unsigned: bool, x: u32, y: u32) -> Result<u32, EvalEnd>
    ensures { result ≡ remainder is_unsigned x y }
{
    if y == 0 {
        return Err(EvalEnd::Trapped(7));
    }
    if is_unsigned {
        return Ok(x % y);
    }
    if x == 1 << 31 && y == u32::MAX {
        return Err(EvalEnd::Trapped(6));
    }
    Ok((x.cast_signed() % y.cast_signed()).cast_unsigned())
}

fn is_less(is_unsigned: bool, x: u32, y: u32) -> bool
    ensures { result ≡ less is_unsigned x y }
{
    if is_unsigned {
        x < y
    } else {
        x.cast_signed() < y.cast_signed()
    }
}

fn shifted_right(is_unsigned: bool, x: u32, count: u32) -> u32
    ensures { result ≡ shifted_right is_unsigned x count }
{
    if is_unsigned {
        hard_words::shift_right(x, count)
    } else {
        hard_words::shift_right_signed(x, count)
    }
}

fn binary_word(op: BinaryOp, is_unsigned: bool, x: u32, y: u32) -> Result<u32, EvalEnd>
    ensures { result ≡ binary_word op is_unsigned x y }
{
    match op {
        BinaryOp::Mul => Ok(hard_words::mul(x, y)),
        BinaryOp::Div => quotient(is_unsigned, x, y),
        BinaryOp::Rem => remainder(is_unsigned, x, y),
        BinaryOp::Add => Ok(hard_words::add(x, y)),
        BinaryOp::Sub => Ok(hard_words::sub(x, y)),
        BinaryOp::Shl => Ok(hard_words::shift_left(x, y)),
        BinaryOp::Shr => Ok(shifted_right(is_unsigned, x, y)),
        BinaryOp::Lt => Ok(u32::from(is_less(is_unsigned, x, y))),
        BinaryOp::Gt => Ok(u32::from(is_less(is_unsigned, y, x))),
        BinaryOp::Le => Ok(u32::from(!is_less(is_unsigned, y, x))),
        BinaryOp::Ge => Ok(u32::from(!is_less(is_unsigned, x, y))),
        BinaryOp::Eq => Ok(u32::from(x == y)),
        BinaryOp::Ne => Ok(u32::from(x != y)),
        BinaryOp::And => Ok(x & y),
        BinaryOp::Xor => Ok(x ^ y),
        BinaryOp::Or => Ok(x | y),
    }
}

/// The type of the result.
pub fn binary_type(op: BinaryOp, a: bool, b: bool) -> bool
    ensures { result ≡ binary_type op a b }
{
    match op {
        BinaryOp::Shl | BinaryOp::Shr => a,
        BinaryOp::Lt | BinaryOp::Gt | BinaryOp::Le | BinaryOp::Ge | BinaryOp::Eq | BinaryOp::Ne =>
            false,
        BinaryOp::Mul
        | BinaryOp::Div
        | BinaryOp::Rem
        | BinaryOp::Add
        | BinaryOp::Sub
        | BinaryOp::And
        | BinaryOp::Xor
        | BinaryOp::Or => a || b,
    }
}

fn operand_type(op: BinaryOp, a: bool, b: bool) -> bool
    ensures { result ≡ operand_type op a b }
{
    match op {
        BinaryOp::Shl | BinaryOp::Shr => a,
        BinaryOp::Lt
        | BinaryOp::Gt
        | BinaryOp::Le
        | BinaryOp::Ge
        | BinaryOp::Eq
        | BinaryOp::Ne
        | BinaryOp::Mul
        | BinaryOp::Div
        | BinaryOp::Rem
        | BinaryOp::Add
        | BinaryOp::Sub
        | BinaryOp::And
        | BinaryOp::Xor
        | BinaryOp::Or => a || b,
    }
}

/// The operator on two values, or a trap.
pub fn operate(op: BinaryOp, x: Value, y: Value) -> Result<Value, EvalEnd>
    ensures { result ≡ operate op x y }
{
    let is_unsigned = operand_type(op, x.is_unsigned, y.is_unsigned);
    let word = binary_word(op, is_unsigned, x.word, y.word)?;
    Ok(Value {
        word,
        is_unsigned: binary_type(op, x.is_unsigned, y.is_unsigned),
    })
}

/// The type of the result.
pub fn unary_type(op: UnaryOp, a: bool) -> bool
    ensures { result ≡ unary_type op a }
{
    match op {
        UnaryOp::Not => false,
        UnaryOp::Minus | UnaryOp::Plus | UnaryOp::Flip => a,
    }
}

/// The operator on a value.
pub fn operate_unary(op: UnaryOp, x: Value) -> Value
    ensures { result ≡ operate_unary op x }
{
    let word = match op {
        UnaryOp::Minus => x.word.wrapping_neg(),
        UnaryOp::Plus => x.word,
        UnaryOp::Flip => !x.word,
        UnaryOp::Not => u32::from(x.word == 0),
    };
    Value {
        word,
        is_unsigned: unary_type(op, x.is_unsigned),
    }
}
