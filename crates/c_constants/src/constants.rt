//! Constant expressions (ISO/IEC 9899:1999, 6.6): what an expression gives where no name means anything.

ghost use Rattle.std.specs.Prelude.{◌≡◌, true, false, map};
ghost use Rattle.c_meaning.specs.Meaning.{expression, no_calls, binary, logic, choose, called, assign_with, bump, constant};
ghost use Rattle.c_meaning.specs.Run.{and_then};
ghost use Rattle.c_meaning.specs.Operators.{truth, common};
ghost use Rattle.c_constants.specs.Constant.{nowhere, given, constant_outcome, constant_place, constant_type};

use c_meaning::{EvalEnd, Place, Value, binary_type, operate, operate_unary, unary_type};
use c_syntax::{BinaryOp, Expr};

/// The word of a constant expression, 0 where the expression has no value.
pub fn constant_word(e: &Expr) -> u32
    ensures { result ≡ constant e.now }
{
    match value_of(e) {
        Ok(v) => v.word,
        Err(_) => 0,
    }
}

fn type_of(e: &Expr) -> bool
    ensures { result ≡ constant_type e.now }
{
    match e {
        Expr::Literal { is_unsigned, .. } => *is_unsigned,
        Expr::Unary { op, of, .. } => unary_type(*op, type_of(of.get())),
        Expr::Binary {
            op,
            left,
            right,
            ..
        } => binary_type(*op, type_of(left.get()), type_of(right.get())),
        Expr::Choose { yes, no, .. } => {
            let yes = type_of(yes.get());
            let no = type_of(no.get());
            yes || no
        }
        Expr::Comma { right, .. } => type_of(right.get()),
        Expr::Paren { of, .. } => type_of(of.get()),
        Expr::Assign { place, .. } | Expr::Bump { place, .. } => type_of(place.get()),
        Expr::Logic { .. } | Expr::Name { .. } | Expr::Index { .. } | Expr::Call { .. } => false,
    }
}

fn truth(holds: bool) -> Value
    ensures { result ≡ truth holds }
{
    Value {
        word: u32::from(holds),
        is_unsigned: false,
    }
}

/// The value of an expression, or how its evaluation ends.
#[cycle(constant)]
fn value_of(e: &Expr) -> Result<Value, EvalEnd>
    ensures { constant_outcome e.now ≡ given result }
{
    match e {
        Expr::Literal {
            value,
            is_unsigned,
            ..
        } => Ok(Value {
            word: *value,
            is_unsigned: *is_unsigned,
        }),
        Expr::Unary { op, of, .. } => {
            let x = value_of(of.get())?;
            Ok(operate_unary(*op, x))
        }
        Expr::Binary {
            op,
            left,
            right,
            ..
        } => binary(*op, left.get(), right.get()),
        Expr::Logic {
            is_and,
            left,
            right,
            ..
        } => {
            if *is_and {
                and(left.get(), right.get())
            } else {
                or(left.get(), right.get())
            }
        }
        Expr::Choose { test, yes, no, .. } => choose(test.get(), yes.get(), no.get()),
        Expr::Comma { left, right, .. } => comma(left.get(), right.get()),
        Expr::Paren { of, .. } => value_of(of.get()),
        Expr::Name { .. } => Err(EvalEnd::Starved),
        Expr::Index { index, .. } => {
            value_of(index.get())?;
            Err(EvalEnd::Starved)
        }
        Expr::Call { name, args, .. } => call(*name, args.as_slice()),
        Expr::Assign {
            op,
            place,
            value,
            ..
        } => assign(*op, place.get(), value.get()),
        Expr::Bump {
            up,
            before,
            place,
            ..
        } => step(*up, *before, place.get()),
    }
}

/// The place of an expression, or how its evaluation ends.
#[cycle(constant)]
fn place_of(e: &Expr) -> Result<Place, EvalEnd>
    ensures { constant_place e.now ≡ given result }
{
    match e {
        Expr::Name { name, .. } => Ok(Place::Variable(*name)),
        Expr::Index { index, .. } => {
            value_of(index.get())?;
            Err(EvalEnd::Starved)
        }
        Expr::Paren { of, .. } => place_of(of.get()),
        Expr::Literal { .. }
        | Expr::Call { .. }
        | Expr::Unary { .. }
        | Expr::Binary { .. }
        | Expr::Logic { .. }
        | Expr::Choose { .. }
        | Expr::Assign { .. }
        | Expr::Bump { .. }
        | Expr::Comma { .. } => Err(EvalEnd::Starved),
    }
}

#[cycle(constant)]
fn binary(op: BinaryOp, left: &Expr, right: &Expr) -> Result<Value, EvalEnd>
    ensures { binary op ((expression left.now).value no_calls) ((expression right.now).value no_calls) nowhere ≡ given result }
{
    let x = value_of(left)?;
    let y = value_of(right)?;
    operate(op, x, y)
}

#[cycle(constant)]
fn and(left: &Expr, right: &Expr) -> Result<Value, EvalEnd>
    ensures { logic true ((expression left.now).value no_calls) ((expression right.now).value no_calls) nowhere ≡ given result }
{
    let x = value_of(left)?;
    if x.word == 0 {
        return Ok(truth(false));
    }
    let y = value_of(right)?;
    Ok(truth(y.word != 0))
}

#[cycle(constant)]
fn or(left: &Expr, right: &Expr) -> Result<Value, EvalEnd>
    ensures { logic false ((expression left.now).value no_calls) ((expression right.now).value no_calls) nowhere ≡ given result }
{
    let x = value_of(left)?;
    if x.word != 0 {
        return Ok(truth(true));
    }
    let y = value_of(right)?;
    Ok(truth(y.word != 0))
}

#[cycle(constant)]
fn comma(left: &Expr, right: &Expr) -> Result<Value, EvalEnd>
    ensures { and_then (constant_outcome left.now) (λ _. (expression right.now).value no_calls) ≡ given result }
{
    value_of(left)?;
    value_of(right)
}

#[cycle(constant)]
fn choose(test: &Expr, yes: &Expr, no: &Expr) -> Result<Value, EvalEnd>
    ensures { choose (λ types. common ((expression yes.now).is_unsigned types no_calls.is_unsigned) ((expression no.now).is_unsigned types no_calls.is_unsigned)) ((expression test.now).value no_calls) ((expression yes.now).value no_calls) ((expression no.now).value no_calls) nowhere ≡ given result }
{
    let is_unsigned = type_of(yes) || type_of(no);
    let t = value_of(test)?;
    if t.word == 0 {
        let v = value_of(no)?;
        return Ok(Value {
            word: v.word,
            is_unsigned,
        });
    }
    let v = value_of(yes)?;
    Ok(Value {
        word: v.word,
        is_unsigned,
    })
}

/// A call, which ends once its arguments are evaluated.
#[cycle(constant)]
fn call(name: u32, args: &[Expr]) -> Result<Value, EvalEnd>
    ensures { called no_calls name (map (λ e. e.value no_calls) (map expression args.now)) nowhere ≡ given result }
{
    for arg in args {
        value_of(arg)?;
    }
    Err(EvalEnd::Starved)
}

#[cycle(constant)]
fn assign(op: Option<BinaryOp>, place: &Expr, right: &Expr) -> Result<Value, EvalEnd>
    ensures { assign_with op ((expression place.now).place no_calls) ((expression right.now).value no_calls) nowhere ≡ given result }
{
    place_of(place)?;
    if op.is_none() {
        value_of(right)?;
    }
    Err(EvalEnd::Starved)
}

#[cycle(constant)]
fn step(up: bool, before: bool, place: &Expr) -> Result<Value, EvalEnd>
    ensures { bump up before ((expression place.now).place no_calls) nowhere ≡ given result }
{
    place_of(place)?;
    Err(EvalEnd::Starved)
}
