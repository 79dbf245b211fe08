//! The types of expressions.

ghost use Rattle.std.specs.Prelude.{◌≡◌};
ghost use Rattle.eval_state.specs.State.{state};
ghost use Rattle.eval_parts.specs.Parts.{TakesIn, type_now};
ghost use Rattle.eval_parts.specs.Work.{FallsFrom};

use c_meaning::{Value, binary_type, unary_type};
use c_syntax::Expr;
use eval_parts::{Code, Frame, Given, Next, Now, OnValue, value_of};
use eval_state::Memory;

/// Whether an expression is unsigned.
fn type_of(code: &Code, memory: &Memory, e: &Expr) -> bool
    ensures { result ≡ type_now code.now (state memory.now) e.now }
{
    match e {
        Expr::Literal { is_unsigned, .. } => *is_unsigned,
        Expr::Name { name, .. } | Expr::Index { name, .. } => memory.is_unsigned(*name),
        Expr::Call { name, .. } => code.returns_unsigned(*name),
        Expr::Unary { op, of, .. } => unary_type(*op, type_of(code, memory, of.get())),
        Expr::Binary {
            op,
            left,
            right,
            ..
        } => {
            let a = type_of(code, memory, left.get());
            let b = type_of(code, memory, right.get());
            binary_type(*op, a, b)
        }
        Expr::Logic { .. } => false,
        Expr::Choose { yes, no, .. } => {
            let a = type_of(code, memory, yes.get());
            let b = type_of(code, memory, no.get());
            a || b
        }
        Expr::Assign { place, .. } | Expr::Bump { place, .. } => {
            type_of(code, memory, place.get())
        }
        Expr::Comma { right, .. } => type_of(code, memory, right.get()),
        Expr::Paren { of, .. } => type_of(code, memory, of.get()),
    }
}

/// One of two expressions, where the test is known; its value is converted to their common type.
pub fn choice<'a>(
    code: &Code,
    memory: &Memory,
    yes: &'a Expr,
    no: &'a Expr,
    test: Value,
) -> Next<'a>
    ensures does { TakesIn code.now (Frame.OnValue (OnValue.Choose yes.entry no.entry)) (Given.Value test) memory.now result memory.now }
    ensures falls { FallsFrom (Frame.OnValue (OnValue.Choose yes.entry no.entry)) result }
{
    let a = type_of(code, memory, yes);
    let b = type_of(code, memory, no);
    if test.word == 0 {
        value_of(Now::Expr(no), OnValue::Convert(a || b))
    } else {
        value_of(Now::Expr(yes), OnValue::Convert(a || b))
    }
}
