//! What was read.

ghost use Rattle.c_grammar.specs.Gives.{Gives};
ghost use Rattle.c_grammar.specs.Marks.{is_mark};
ghost use Rattle.c_grammar.specs.ReadExpressions.{closed};

use crate::fault::Fault;
use crate::marks::{Mark, after};
use c_lexer::Token;

/// What was read, and the tokens behind it.
#[derive(Drop)]
pub struct Reading<'a, T> {
    pub value: T,
    pub rest: &'a [Token],
}

/// What was read, its depth, and the tokens behind it.
#[derive(Drop)]
pub struct Measured<'a, T> {
    pub value: T,
    pub depth: u32,
    pub rest: &'a [Token],
}

/// What was read, with the mark that stands behind it.
pub fn close<'a, T: Drop>(
    value: T,
    mark: Mark,
    tokens: &'a [Token],
) -> Result<Reading<'a, T>, Fault>
    ensures { Gives (λ x. (x.value, x.rest.now)) result (closed (is_mark mark) value tokens.now) }
{
    let rest = after(tokens, mark)?;
    Ok(Reading { value, rest })
}
