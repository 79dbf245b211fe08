//! How many blocks an expression's lines end, before they are put.

ghost use Rattle.std.specs.Prelude.{◌≡◌, ◌+◌, ◌<◌, ◌^◌, map};
ghost use Rattle.lower_rules.specs.Expressions.{low, args_blocks};
ghost use Rattle.lower_expressions.specs.Names.{names_of, AreKnown};

use crate::steps::{call_blocks, callee_unsigned};
use crate::table::{Table, called_as, name_unsigned};
use c_meaning::{binary_type, unary_type};
use c_syntax::{Expr, UnaryOp};

/// The blocks that the values of arguments end.
#[cycle(counts)]
fn argument_blocks(table: &Table, args: &[Expr]) -> u32
    requires { args_blocks (map (low (names_of table.now)) args.now) < 2 ^ 32 }
    ensures { result ≡ args_blocks (map (low (names_of table.now)) args.now) }
{
    let mut count: u32 = 0;
    for e in args {
        count += value_blocks(table, e);
    }
    count
}

/// The blocks that the value of an expression ends.
#[cycle(counts)]
pub fn value_blocks(table: &Table, e: &Expr) -> u32
    requires { (low (names_of table.now) e.now).blocks < 2 ^ 32 }
    ensures { result ≡ (low (names_of table.now) e.now).blocks }
{
    match e {
        Expr::Literal { .. } | Expr::Name { .. } => 0,
        Expr::Index { index: of, .. } | Expr::Unary { of, .. } | Expr::Paren { of, .. } =>
            value_blocks(table, of.get()),
        Expr::Call { name, args, .. } => argument_blocks(table, args.as_slice())
            + call_blocks(called_as(table, *name)),
        Expr::Binary { left, right, .. } | Expr::Comma { left, right, .. } => {
            value_blocks(table, left.get()) + value_blocks(table, right.get())
        }
        Expr::Logic { left, right, .. } => test_blocks(table, left.get())
            + test_blocks(table, right.get())
            + 2,
        Expr::Choose { test, yes, no, .. } => {
            test_blocks(table, test.get())
                + value_blocks(table, yes.get())
                + 1
                + value_blocks(table, no.get())
                + 1
        }
        Expr::Assign { place, value, .. } => place_blocks(table, place.get())
            + value_blocks(table, value.get()),
        Expr::Bump { place, .. } => place_blocks(table, place.get()),
    }
}

/// The blocks that an expression ends as a condition.
#[cycle(counts)]
pub fn test_blocks(table: &Table, e: &Expr) -> u32
    requires { (low (names_of table.now) e.now).condition_blocks < 2 ^ 32 }
    ensures { result ≡ (low (names_of table.now) e.now).condition_blocks }
{
    match e {
        Expr::Paren { of, .. } => test_blocks(table, of.get()),
        Expr::Unary {
            op: UnaryOp::Not,
            of,
            ..
        } => test_blocks(table, of.get()),
        Expr::Logic { left, right, .. } => test_blocks(table, left.get())
            + test_blocks(table, right.get()),
        Expr::Unary { .. }
        | Expr::Literal { .. }
        | Expr::Name { .. }
        | Expr::Index { .. }
        | Expr::Call { .. }
        | Expr::Binary { .. }
        | Expr::Choose { .. }
        | Expr::Assign { .. }
        | Expr::Bump { .. }
        | Expr::Comma { .. } => value_blocks(table, e) + 1,
    }
}

/// The blocks that the index of a place ends.
#[cycle(counts)]
fn place_blocks(table: &Table, e: &Expr) -> u32
    requires { (low (names_of table.now) e.now).place_blocks < 2 ^ 32 }
    ensures { result ≡ (low (names_of table.now) e.now).place_blocks }
{
    match e {
        Expr::Index { index, .. } => value_blocks(table, index.get()),
        Expr::Paren { of, .. } => place_blocks(table, of.get()),
        Expr::Literal { .. }
        | Expr::Name { .. }
        | Expr::Call { .. }
        | Expr::Unary { .. }
        | Expr::Binary { .. }
        | Expr::Logic { .. }
        | Expr::Choose { .. }
        | Expr::Assign { .. }
        | Expr::Bump { .. }
        | Expr::Comma { .. } => 0,
    }
}

/// Whether the type of an expression is unsigned.
pub(crate) fn type_of(table: &Table, e: &Expr) -> bool
    requires { AreKnown table.now }
    ensures { result ≡ (low (names_of table.now) e.now).is_unsigned }
{
    match e {
        Expr::Literal { is_unsigned, .. } => *is_unsigned,
        Expr::Name { name, .. } | Expr::Index { name, .. } => name_unsigned(table, *name),
        Expr::Call { name, .. } => callee_unsigned(called_as(table, *name)),
        Expr::Unary { op, of, .. } => unary_type(*op, type_of(table, of.get())),
        Expr::Binary {
            op,
            left,
            right,
            ..
        } => { binary_type(*op, type_of(table, left.get()), type_of(table, right.get())) }
        Expr::Logic { .. } => false,
        Expr::Choose { yes, no, .. } => {
            let yes = type_of(table, yes.get());
            let no = type_of(table, no.get());
            yes || no
        }
        Expr::Assign { place, .. } | Expr::Bump { place, .. } => type_of(table, place.get()),
        Expr::Comma { right, .. } => type_of(table, right.get()),
        Expr::Paren { of, .. } => type_of(table, of.get()),
    }
}
