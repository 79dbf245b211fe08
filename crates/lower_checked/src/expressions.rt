//! The literals of an expression.

ghost use Rattle.std.specs.Prelude.{◌≡◌, ◌^◌, true, nat_lt};
ghost use Rattle.std.specs.List.{list_all};
ghost use Rattle.c_syntax.specs.Literals.{if_there, literals_are_words};

use c_syntax::Expr;

/// A number of 32 bits is a word.
pub fn number_is_word(number: u32)
    ensures { nat_lt number (2 ^ 32) ≡ true }
{}

/// Goes through an expression.
pub fn expression_holds_words(e: &Expr)
    ensures { literals_are_words e.now ≡ true }
{
    match e {
        Expr::Literal { value, .. } => number_is_word(*value),
        Expr::Name { .. } => {}
        Expr::Call { args, .. } => {
            for arg in args.as_slice() {
                expression_holds_words(arg);
            }
        }
        Expr::Index { index: of, .. }
        | Expr::Unary { of, .. }
        | Expr::Bump { place: of, .. }
        | Expr::Paren { of, .. } => expression_holds_words(of.get()),
        Expr::Binary { left, right, .. }
        | Expr::Logic { left, right, .. }
        | Expr::Comma { left, right, .. }
        | Expr::Assign {
            place: left,
            value: right,
            ..
        } => {
            expression_holds_words(left.get());
            expression_holds_words(right.get());
        }
        Expr::Choose { test, yes, no, .. } => {
            expression_holds_words(test.get());
            expression_holds_words(yes.get());
            expression_holds_words(no.get());
        }
    }
}

/// Goes through an expression that may be left out.
pub fn part_holds_words(e: &Option<Expr>)
    ensures { if_there literals_are_words e.now ≡ true }
{
    if let Some(e) = e {
        expression_holds_words(e);
    }
}

/// Goes through expressions.
pub fn expressions_hold_words(all: &[Expr])
    ensures { list_all literals_are_words all.now ≡ true }
{
    for e in all {
        expression_holds_words(e);
    }
}
