//! Constant expressions (ISO/IEC 9899:1999, 6.6).

ghost use Rattle.std.specs.Prelude.{◌≡◌, IsTrue, Option, ◌&&◌, true, false};
ghost use Rattle.c_meaning.specs.Meaning.{expression, no_calls, binary, logic, choose};
ghost use Rattle.c_meaning.specs.Run.{and_then};
ghost use Rattle.check_rules.specs.Walk.{is_free, place_of, constant_part, constant_with_word};
ghost use Rattle.check_expressions.specs.Constant.{nowhere, given, constant_outcome, constant_type};
ghost use Rattle.check_scopes.specs.Gave.{Gave};
ghost use Rattle.c_meaning.specs.Operators.{truth, common};

use crate::expressions::{require, value as with_value};
use c_meaning::{EvalEnd, Value, binary_type, operate, operate_unary, unary_type};
use c_syntax::{BinaryOp, Expr};
use check_rules::{CheckError, CheckKind};
use check_scopes::Scopes;
use std::alloc::Global;

/// Whether an expression has neither a name, nor a call, nor an assignment in it.
pub fn is_free(e: &Expr) -> bool
    ensures { result ≡ is_free e.now }
{
    match e {
        Expr::Literal { .. } => true,
        Expr::Name { .. }
        | Expr::Index { .. }
        | Expr::Call { .. }
        | Expr::Assign { .. }
        | Expr::Bump { .. } => false,
        Expr::Unary { of, .. } | Expr::Paren { of, .. } => is_free(of.get()),
        Expr::Binary { left, right, .. }
        | Expr::Logic { left, right, .. }
        | Expr::Comma { left, right, .. } => is_free(left.get()) && is_free(right.get()),
        Expr::Choose { test, yes, no, .. } => {
            is_free(test.get()) && (is_free(yes.get()) && is_free(no.get()))
        }
    }
}

/// The byte at which an expression is shown.
pub fn place_of(e: &Expr) -> u32
    ensures { result ≡ place_of e.now }
{
    match e {
        Expr::Literal { at, .. }
        | Expr::Name { at, .. }
        | Expr::Index { at, .. }
        | Expr::Call { at, .. }
        | Expr::Unary { at, .. }
        | Expr::Binary { at, .. }
        | Expr::Logic { at, .. }
        | Expr::Choose { at, .. }
        | Expr::Assign { at, .. }
        | Expr::Bump { at, .. }
        | Expr::Comma { at, .. }
        | Expr::Paren { at, .. } => *at,
    }
}

fn constant_type(e: &Expr) -> bool
    requires { IsTrue (is_free e.now) }
    ensures { result ≡ constant_type e.now }
{
    match e {
        Expr::Literal { is_unsigned, .. } => *is_unsigned,
        Expr::Unary { op, of, .. } => unary_type(*op, constant_type(of.get())),
        Expr::Binary {
            op,
            left,
            right,
            ..
        } => binary_type(*op, constant_type(left.get()), constant_type(right.get())),
        Expr::Choose { yes, no, .. } => {
            let yes = constant_type(yes.get());
            let no = constant_type(no.get());
            yes || no
        }
        Expr::Comma { right, .. } => constant_type(right.get()),
        Expr::Paren { of, .. } => constant_type(of.get()),
        Expr::Logic { .. }
        | Expr::Name { .. }
        | Expr::Index { .. }
        | Expr::Call { .. }
        | Expr::Assign { .. }
        | Expr::Bump { .. } => false,
    }
}

fn truth(holds: bool) -> Value
    ensures { result ≡ truth holds }
{
    Value {
        word: u32::from(holds),
        is_unsigned: false,
    }
}

/// The value of an expression without names, or its trap.
#[cycle(constant)]
pub fn constant(e: &Expr) -> Result<Value, EvalEnd>
    requires { IsTrue (is_free e.now) }
    ensures { constant_outcome e.now ≡ given result }
{
    match e {
        Expr::Literal {
            value,
            is_unsigned,
            ..
        } => Ok(Value {
            word: *value,
            is_unsigned: *is_unsigned,
        }),
        Expr::Unary { op, of, .. } => {
            let x = constant(of.get())?;
            Ok(operate_unary(*op, x))
        }
        Expr::Binary {
            op,
            left,
            right,
            ..
        } => binary(*op, left.get(), right.get()),
        Expr::Logic {
            is_and,
            left,
            right,
            ..
        } => {
            if *is_and {
                and(left.get(), right.get())
            } else {
                or(left.get(), right.get())
            }
        }
        Expr::Choose { test, yes, no, .. } => choose(test.get(), yes.get(), no.get()),
        Expr::Comma { left, right, .. } => comma(left.get(), right.get()),
        Expr::Paren { of, .. } => constant(of.get()),
        Expr::Name { .. }
        | Expr::Index { .. }
        | Expr::Call { .. }
        | Expr::Assign { .. }
        | Expr::Bump { .. } => Err(EvalEnd::Starved),
    }
}

#[cycle(constant)]
fn binary(op: BinaryOp, left: &Expr, right: &Expr) -> Result<Value, EvalEnd>
    requires { IsTrue (is_free left.now && is_free right.now) }
    ensures { binary op ((expression left.now).value no_calls) ((expression right.now).value no_calls) nowhere ≡ given result }
{
    let x = constant(left)?;
    let y = constant(right)?;
    operate(op, x, y)
}

#[cycle(constant)]
fn and(left: &Expr, right: &Expr) -> Result<Value, EvalEnd>
    requires { IsTrue (is_free left.now && is_free right.now) }
    ensures { logic true ((expression left.now).value no_calls) ((expression right.now).value no_calls) nowhere ≡ given result }
{
    let x = constant(left)?;
    if x.word == 0 {
        return Ok(truth(false));
    }
    let y = constant(right)?;
    Ok(truth(y.word != 0))
}

#[cycle(constant)]
fn or(left: &Expr, right: &Expr) -> Result<Value, EvalEnd>
    requires { IsTrue (is_free left.now && is_free right.now) }
    ensures { logic false ((expression left.now).value no_calls) ((expression right.now).value no_calls) nowhere ≡ given result }
{
    let x = constant(left)?;
    if x.word != 0 {
        return Ok(truth(true));
    }
    let y = constant(right)?;
    Ok(truth(y.word != 0))
}

#[cycle(constant)]
fn comma(left: &Expr, right: &Expr) -> Result<Value, EvalEnd>
    requires { IsTrue (is_free left.now && is_free right.now) }
    ensures { and_then (constant_outcome left.now) (λ _. (expression right.now).value no_calls) ≡ given result }
{
    constant(left)?;
    constant(right)
}

#[cycle(constant)]
fn choose(test: &Expr, yes: &Expr, no: &Expr) -> Result<Value, EvalEnd>
    requires { IsTrue (is_free test.now && (is_free yes.now && is_free no.now)) }
    ensures { choose (λ types. common ((expression yes.now).is_unsigned types no_calls.is_unsigned) ((expression no.now).is_unsigned types no_calls.is_unsigned)) ((expression test.now).value no_calls) ((expression yes.now).value no_calls) ((expression no.now).value no_calls) nowhere ≡ given result }
{
    let is_unsigned = constant_type(yes) || constant_type(no);
    let t = constant(test)?;
    if t.word == 0 {
        let v = constant(no)?;
        return Ok(Value {
            word: v.word,
            is_unsigned,
        });
    }
    let v = constant(yes)?;
    Ok(Value {
        word: v.word,
        is_unsigned,
    })
}

/// A length, an initialiser of a variable at file scope, or the value of a `case`.
pub fn constant_part(alloc: Global, scopes: &Scopes, e: Expr) -> Result<Expr, CheckError>
    ensures { Gave result (constant_part e scopes.now) }
{
    let at = place_of(&e);
    let is_constant = is_free(&e) && constant(&e).is_ok();
    let e = with_value(alloc, scopes, e)?;
    require(is_constant, CheckKind::NotConstant, at)?;
    Ok(e)
}

/// A constant expression with its word.
pub fn constant_with_word(
    alloc: Global,
    scopes: &Scopes,
    e: Expr,
) -> Result<(Expr, u32), CheckError>
    ensures { Gave result (constant_with_word e scopes.now) }
{
    let at = place_of(&e);
    let found = if is_free(&e) { constant(&e).ok() } else { None };
    let e = with_value(alloc, scopes, e)?;
    match found {
        None => Err(CheckError::Fault {
            kind: CheckKind::NotConstant,
            at,
        }),
        Some(v) => Ok((e, v.word)),
    }
}
