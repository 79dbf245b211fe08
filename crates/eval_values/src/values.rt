//! Steps within an expression that change nothing.

ghost use Rattle.std.specs.Prelude.{◌≡◌, ◌+◌, IfOk};
ghost use Rattle.c_meaning.specs.Operators.{truth, converted};
ghost use Rattle.eval_parts.specs.Parts.{Begins, Resumes};
ghost use Rattle.eval_parts.specs.Work.{Falls, FallsFrom};

use c_meaning::{Value, operate, operate_unary};
use c_syntax::{BinaryOp, Expr, UnaryOp};
use eval_parts::{Frame, Given, Next, Now, OnValue, goes, value_of};
use sqlite_items::Items;
use std::alloc::AllocError;

/// What holds is 1 and what doesn't is 0.
pub fn truth(holds: bool) -> Given
    ensures { result ≡ Given.Value (truth holds) }
{
    Given::Value(Value {
        word: u32::from(holds),
        is_unsigned: false,
    })
}

/// A value at a type.
pub fn converted(is_unsigned: bool, v: Value) -> Value
    ensures { result ≡ converted is_unsigned v }
{
    Value {
        word: v.word,
        is_unsigned,
    }
}

/// A unary operator, whose operand is known.
pub fn unary<'a>(op: UnaryOp, x: Value) -> Next<'a>
    ensures does { Resumes (Frame.OnValue (OnValue.Unary op)) (Given.Value x) result }
    ensures falls { FallsFrom (Frame.OnValue (OnValue.Unary op)) result }
{
    goes(Now::Given(Given::Value(operate_unary(op, x))))
}

/// A binary operator, whose operands are known.
pub fn operated<'a>(op: BinaryOp, x: Value, y: Value) -> Next<'a>
    ensures does { Resumes (Frame.OnValue (OnValue.Operate op x)) (Given.Value y) result }
    ensures falls { FallsFrom (Frame.OnValue (OnValue.Operate op x)) result }
{
    match operate(op, x, y) {
        Ok(v) => goes(Now::Given(Given::Value(v))),
        Err(end) => goes(Now::Over(end)),
    }
}

/// `&&` or `||`, whose left operand is known.
pub fn logic<'a>(is_and: bool, right: &'a Expr, x: Value) -> Next<'a>
    ensures does { Resumes (Frame.OnValue (OnValue.Logic is_and right.entry)) (Given.Value x) result }
    ensures falls { FallsFrom (Frame.OnValue (OnValue.Logic is_and right.entry)) result }
{
    if is_and {
        if x.word == 0 {
            goes(Now::Given(truth(false)))
        } else {
            value_of(Now::Expr(right), OnValue::Tested)
        }
    } else if x.word == 0 {
        value_of(Now::Expr(right), OnValue::Tested)
    } else {
        goes(Now::Given(truth(true)))
    }
}

/// The arguments that are left, or the call.
pub fn arguments<'a>(name: u32, args: &'a [Expr], values: Items<Value>) -> Next<'a>
    ensures does { Begins (Now.Args name args.entry values) result }
    ensures falls { Falls (Now.Args name args.entry values) result }
{
    match args.split_first() {
        None => goes(Now::Call { name, args: values }),
        Some((first, others)) => value_of(
            Now::Expr(first),
            OnValue::Args {
                name,
                others,
                values,
            },
        ),
    }
}

/// An argument is known.
pub fn next_argument<'a>(
    name: u32,
    others: &'a [Expr],
    values: Items<Value>,
    v: Value,
) -> Result<Next<'a>, AllocError>
    ensures does { IfOk result (λ n. Resumes (Frame.OnValue (OnValue.Args name others.entry values)) (Given.Value v) n) }
    ensures falls { IfOk result (λ n. FallsFrom (Frame.OnValue (OnValue.Args name others.entry values)) n) }
{
    let mut values = values;
    values.push(v)?;
    Ok(goes(Now::Args {
        name,
        args: others,
        values,
    }))
}
