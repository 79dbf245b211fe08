//! The operators by their signs, ISO/IEC 9899 clauses 6.5.2.4, 6.5.3 and 6.5.5 to 6.5.16.

ghost use Rattle.std.specs.Prelude.{◌≡◌, MatchResult};
ghost use Rattle.c_grammar.specs.Operators.{infix_at, assignment_at, prefix_at, postfix_at, joined, prefixed};
ghost use Rattle.c_grammar.specs.declared.fault.Fault.TheVariants.{OutOfMemory};

use crate::fault::Fault;
use c_lexer::{Punct, TokenKind};
use c_syntax::{BinaryOp, Expr, UnaryOp};
use sqlite_items::Boxed;
use std::alloc::Global;

/// A sign between two operands.
#[derive(Clone, Copy)]
pub enum Infix {
    /// It makes a `Binary`.
    Plain(BinaryOp),
    /// It makes a `Logic`: true for `&&`, false for `||`.
    Logic(bool),
}

/// A sign before an operand.
#[derive(Clone, Copy)]
pub enum Prefix {
    /// It makes a `Unary`.
    Plain(UnaryOp),
    /// It makes a `Bump`: true for `++`, false for `--`.
    Bump(bool),
}

/// The sign between two operands, with its level from 1, the tightest, to 10.
pub fn infix_sign(kind: TokenKind) -> Option<(u32, Infix)>
    ensures { result ≡ infix_at kind }
{
    let TokenKind::Sign(sign) = kind else {
        return None;
    };
    match sign {
        Punct::Star => Some((1, Infix::Plain(BinaryOp::Mul))),
        Punct::Slash => Some((1, Infix::Plain(BinaryOp::Div))),
        Punct::Percent => Some((1, Infix::Plain(BinaryOp::Rem))),
        Punct::Plus => Some((2, Infix::Plain(BinaryOp::Add))),
        Punct::Minus => Some((2, Infix::Plain(BinaryOp::Sub))),
        Punct::ShiftLeft => Some((3, Infix::Plain(BinaryOp::Shl))),
        Punct::ShiftRight => Some((3, Infix::Plain(BinaryOp::Shr))),
        Punct::Less => Some((4, Infix::Plain(BinaryOp::Lt))),
        Punct::Greater => Some((4, Infix::Plain(BinaryOp::Gt))),
        Punct::LessEqual => Some((4, Infix::Plain(BinaryOp::Le))),
        Punct::GreaterEqual => Some((4, Infix::Plain(BinaryOp::Ge))),
        Punct::EqualEqual => Some((5, Infix::Plain(BinaryOp::Eq))),
        Punct::NotEqual => Some((5, Infix::Plain(BinaryOp::Ne))),
        Punct::And => Some((6, Infix::Plain(BinaryOp::And))),
        Punct::Caret => Some((7, Infix::Plain(BinaryOp::Xor))),
        Punct::Or => Some((8, Infix::Plain(BinaryOp::Or))),
        Punct::AndAnd => Some((9, Infix::Logic(true))),
        Punct::OrOr => Some((10, Infix::Logic(false))),
        _ => None,
    }
}

/// The sign of an assignment, with the operator of a compound one.
pub fn assignment_sign(kind: TokenKind) -> Option<Option<BinaryOp>>
    ensures { result ≡ assignment_at kind }
{
    let TokenKind::Sign(sign) = kind else {
        return None;
    };
    match sign {
        Punct::Equal => Some(None),
        Punct::PlusEqual => Some(Some(BinaryOp::Add)),
        Punct::MinusEqual => Some(Some(BinaryOp::Sub)),
        Punct::StarEqual => Some(Some(BinaryOp::Mul)),
        Punct::SlashEqual => Some(Some(BinaryOp::Div)),
        Punct::PercentEqual => Some(Some(BinaryOp::Rem)),
        Punct::ShiftLeftEqual => Some(Some(BinaryOp::Shl)),
        Punct::ShiftRightEqual => Some(Some(BinaryOp::Shr)),
        Punct::AndEqual => Some(Some(BinaryOp::And)),
        Punct::OrEqual => Some(Some(BinaryOp::Or)),
        Punct::CaretEqual => Some(Some(BinaryOp::Xor)),
        _ => None,
    }
}

/// The sign before an operand.
pub fn prefix_sign(kind: TokenKind) -> Option<Prefix>
    ensures { result ≡ prefix_at kind }
{
    let TokenKind::Sign(sign) = kind else {
        return None;
    };
    match sign {
        Punct::PlusPlus => Some(Prefix::Bump(true)),
        Punct::MinusMinus => Some(Prefix::Bump(false)),
        Punct::Minus => Some(Prefix::Plain(UnaryOp::Minus)),
        Punct::Plus => Some(Prefix::Plain(UnaryOp::Plus)),
        Punct::Tilde => Some(Prefix::Plain(UnaryOp::Flip)),
        Punct::Bang => Some(Prefix::Plain(UnaryOp::Not)),
        _ => None,
    }
}

/// The sign behind an operand: true for `++`, false for `--`.
pub fn postfix_sign(kind: TokenKind) -> Option<bool>
    ensures { result ≡ postfix_at kind }
{
    match kind {
        TokenKind::Sign(Punct::PlusPlus) => Some(true),
        TokenKind::Sign(Punct::MinusMinus) => Some(false),
        _ => None,
    }
}

/// Two operands with a sign between them, which stands at the byte `at`.
pub fn join(
    alloc: Global,
    op: Infix,
    left: Boxed<Expr>,
    right: Boxed<Expr>,
    at: u32,
) -> Result<Boxed<Expr>, Fault>
    ensures { MatchResult result (λ e. e ≡ joined op left right at) (λ e. e ≡ OutOfMemory) }
{
    let e = match op {
        Infix::Plain(op) => Expr::Binary {
            op,
            left,
            right,
            at,
        },
        Infix::Logic(is_and) => Expr::Logic {
            is_and,
            left,
            right,
            at,
        },
    };
    Ok(Boxed::new(alloc, e)?)
}

/// An operand with a sign before it, which stands at the byte `at`.
pub fn put_before(alloc: Global, op: Prefix, of: Boxed<Expr>, at: u32) -> Result<Boxed<Expr>, Fault>
    ensures { MatchResult result (λ e. e ≡ prefixed op of at) (λ e. e ≡ OutOfMemory) }
{
    let before = true;
    let place = of;
    let e = match op {
        Prefix::Plain(op) => Expr::Unary { op, of: place, at },
        Prefix::Bump(up) => Expr::Bump {
            up,
            before,
            place,
            at,
        },
    };
    Ok(Boxed::new(alloc, e)?)
}
