//! The words of constant expressions (ISO/IEC 9899:1999, 6.6).

ghost use Rattle.std.specs.Prelude.{◌≡◌, false, true, IfOk, OnErr};
ghost use Rattle.c_meaning.specs.Meaning.{constant, expression, no_calls, binary, logic, choose};
ghost use Rattle.c_meaning.specs.Operators.{truth, common};
ghost use Rattle.c_meaning.specs.Run.{Gives, and_then};
ghost use Rattle.check_rules.specs.Walk.{has_result};
ghost use Rattle.check_expressions.specs.Constant.{nowhere, constant_outcome, constant_type};

use c_meaning::{EvalEnd, Value, binary_type, operate, operate_unary, unary_type};
use c_syntax::{BinaryOp, Expr};

// Whether the type of an expression is unsigned, where no name means anything.
fn type_of(e: &Expr) -> bool
    ensures { result ≡ constant_type e.now }
{
    match e {
        Expr::Literal { is_unsigned, .. } => *is_unsigned,
        Expr::Unary { op, of, .. } => unary_type(*op, type_of(of.get())),
        Expr::Binary {
            op,
            left,
            right,
            ..
        } => binary_type(*op, type_of(left.get()), type_of(right.get())),
        Expr::Choose { yes, no, .. } => {
            let yes = type_of(yes.get());
            let no = type_of(no.get());
            yes || no
        }
        Expr::Assign { place: of, .. }
        | Expr::Bump { place: of, .. }
        | Expr::Comma { right: of, .. }
        | Expr::Paren { of, .. } => type_of(of.get()),
        Expr::Logic { .. } | Expr::Name { .. } | Expr::Index { .. } | Expr::Call { .. } => false,
    }
}

fn truth(holds: bool) -> Value
    ensures { result ≡ truth holds }
{
    Value {
        word: u32::from(holds),
        is_unsigned: false,
    }
}

// The value of an expression where no name means anything, or some end, where it has none.
#[cycle(value_of)]
fn value_of(e: &Expr) -> Result<Value, EvalEnd>
    ensures ok { IfOk result (λ v. constant_outcome e.now ≡ Gives v nowhere) }
    ensures err { OnErr result (has_result (constant_outcome e.now) ≡ false) }
{
    match e {
        Expr::Literal {
            value,
            is_unsigned,
            ..
        } => Ok(Value {
            word: *value,
            is_unsigned: *is_unsigned,
        }),
        Expr::Unary { op, of, .. } => {
            let x = value_of(of.get())?;
            Ok(operate_unary(*op, x))
        }
        Expr::Binary {
            op,
            left,
            right,
            ..
        } => binary(*op, left.get(), right.get()),
        Expr::Logic {
            is_and,
            left,
            right,
            ..
        } => {
            if *is_and {
                and(left.get(), right.get())
            } else {
                or(left.get(), right.get())
            }
        }
        Expr::Choose { test, yes, no, .. } => choose(test.get(), yes.get(), no.get()),
        Expr::Comma { left, right, .. } => comma(left.get(), right.get()),
        Expr::Paren { of, .. } => value_of(of.get()),
        Expr::Name { .. }
        | Expr::Index { .. }
        | Expr::Call { .. }
        | Expr::Assign { .. }
        | Expr::Bump { .. } => Err(EvalEnd::Starved),
    }
}

#[cycle(value_of)]
fn binary(op: BinaryOp, left: &Expr, right: &Expr) -> Result<Value, EvalEnd>
    ensures ok { IfOk result (λ v. binary op ((expression left.now).value no_calls) ((expression right.now).value no_calls) nowhere ≡ Gives v nowhere) }
    ensures err { OnErr result (has_result (binary op ((expression left.now).value no_calls) ((expression right.now).value no_calls) nowhere) ≡ false) }
{
    let x = value_of(left)?;
    let y = value_of(right)?;
    operate(op, x, y)
}

#[cycle(value_of)]
fn and(left: &Expr, right: &Expr) -> Result<Value, EvalEnd>
    ensures ok { IfOk result (λ v. logic true ((expression left.now).value no_calls) ((expression right.now).value no_calls) nowhere ≡ Gives v nowhere) }
    ensures err { OnErr result (has_result (logic true ((expression left.now).value no_calls) ((expression right.now).value no_calls) nowhere) ≡ false) }
{
    let x = value_of(left)?;
    if x.word == 0 {
        return Ok(truth(false));
    }
    let y = value_of(right)?;
    Ok(truth(y.word != 0))
}

#[cycle(value_of)]
fn or(left: &Expr, right: &Expr) -> Result<Value, EvalEnd>
    ensures ok { IfOk result (λ v. logic false ((expression left.now).value no_calls) ((expression right.now).value no_calls) nowhere ≡ Gives v nowhere) }
    ensures err { OnErr result (has_result (logic false ((expression left.now).value no_calls) ((expression right.now).value no_calls) nowhere) ≡ false) }
{
    let x = value_of(left)?;
    if x.word != 0 {
        return Ok(truth(true));
    }
    let y = value_of(right)?;
    Ok(truth(y.word != 0))
}

#[cycle(value_of)]
fn comma(left: &Expr, right: &Expr) -> Result<Value, EvalEnd>
    ensures ok { IfOk result (λ v. and_then (constant_outcome left.now) (λ _. (expression right.now).value no_calls) ≡ Gives v nowhere) }
    ensures err { OnErr result (has_result (and_then (constant_outcome left.now) (λ _. (expression right.now).value no_calls)) ≡ false) }
{
    value_of(left)?;
    value_of(right)
}

#[cycle(value_of)]
fn choose(test: &Expr, yes: &Expr, no: &Expr) -> Result<Value, EvalEnd>
    ensures ok { IfOk result (λ v. choose (λ types. common ((expression yes.now).is_unsigned types no_calls.is_unsigned) ((expression no.now).is_unsigned types no_calls.is_unsigned)) ((expression test.now).value no_calls) ((expression yes.now).value no_calls) ((expression no.now).value no_calls) nowhere ≡ Gives v nowhere) }
    ensures err { OnErr result (has_result (choose (λ types. common ((expression yes.now).is_unsigned types no_calls.is_unsigned) ((expression no.now).is_unsigned types no_calls.is_unsigned)) ((expression test.now).value no_calls) ((expression yes.now).value no_calls) ((expression no.now).value no_calls) nowhere) ≡ false) }
{
    let is_unsigned = type_of(yes) || type_of(no);
    let t = value_of(test)?;
    if t.word == 0 {
        let v = value_of(no)?;
        return Ok(Value {
            word: v.word,
            is_unsigned,
        });
    }
    let v = value_of(yes)?;
    Ok(Value {
        word: v.word,
        is_unsigned,
    })
}

/// The word of a constant expression, 0 where it has none.
pub(crate) fn word(e: &Expr) -> u32
    ensures { result ≡ constant e.now }
{
    match value_of(e) {
        Ok(value) => value.word,
        Err(_) => 0,
    }
}
