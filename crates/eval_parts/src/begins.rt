//! What an expression and a statement begin with.

ghost use Rattle.std.specs.Prelude.{◌≡◌, ◌+◌, suc};
ghost use Rattle.c_syntax.specs.Sizes.{or_zero};
ghost use Rattle.c_meaning.specs.Meaning.{is_label, label_word};
ghost use Rattle.eval_parts.specs.Parts.{Begins, BeginsAs, returning, one_of_turns, body_is};
ghost use Rattle.eval_parts.specs.Work.{Falls, Lighter, expression_work, round_of, turns_work};

use crate::part::{
    Given, Loop, Next, Now, OnFlow, OnPlace, OnValue, flow_of, goes, place_of, value_of,
};
use c_constants::constant_word;
use c_meaning::{EvalEnd, Flow, Place, Value};
use c_syntax::{Clause, Expr, Label, Local, Stmt};
use sqlite_items::{Boxed, Items};
use std::alloc::Global;

/// What the value of an expression begins with.
pub fn expression<'a>(alloc: Global, e: &'a Expr) -> Next<'a>
    ensures begins { Begins (Now.Expr e.entry) result }
    ensures falls { Falls (Now.Expr e.entry) result }
{
    match e {
        Expr::Literal {
            value,
            is_unsigned,
            ..
        } => goes(Now::Given(Given::Value(Value {
            word: *value,
            is_unsigned: *is_unsigned,
        }))),
        Expr::Name { name, .. } => goes(Now::Fetch(Place::Variable(*name))),
        Expr::Index { .. } => place_of(Now::Place(e), OnPlace::Fetch),
        Expr::Call { name, args, .. } => goes(Now::Args {
            name: *name,
            args: args.as_slice(),
            values: Items::new(alloc),
        }),
        Expr::Unary { op, of, .. } => { value_of(Now::Expr(of.get()), OnValue::Unary(*op)) }
        Expr::Binary {
            op,
            left,
            right,
            ..
        } => value_of(Now::Expr(left.get()), OnValue::Right(*op, right.get())),
        Expr::Logic {
            is_and,
            left,
            right,
            ..
        } => value_of(Now::Expr(left.get()), OnValue::Logic(*is_and, right.get())),
        Expr::Choose { test, yes, no, .. } => value_of(
            Now::Expr(test.get()),
            OnValue::Choose(yes.get(), no.get()),
        ),
        Expr::Assign {
            op,
            place,
            value,
            ..
        } => place_of(Now::Place(place.get()), OnPlace::Assign(*op, value.get())),
        Expr::Bump {
            up,
            before,
            place,
            ..
        } => place_of(
            Now::Place(place.get()),
            OnPlace::Bump {
                up: *up,
                before: *before,
            },
        ),
        Expr::Comma { left, right, .. } => value_of(
            Now::Expr(left.get()),
            OnValue::Second(right.get()),
        ),
        Expr::Paren { of, .. } => goes(Now::Expr(of.get())),
    }
}

/// What the place of an expression begins with.
pub fn place<'a>(e: &'a Expr) -> Next<'a>
    ensures begins { Begins (Now.Place e.entry) result }
    ensures falls { Falls (Now.Place e.entry) result }
{
    match e {
        Expr::Name { name, .. } => { goes(Now::Given(Given::Place(Place::Variable(*name)))) }
        Expr::Index { name, index, .. } => value_of(
            Now::Expr(index.get()),
            OnValue::IndexOf(*name),
        ),
        Expr::Paren { of, .. } => goes(Now::Place(of.get())),
        Expr::Literal { .. }
        | Expr::Call { .. }
        | Expr::Unary { .. }
        | Expr::Binary { .. }
        | Expr::Logic { .. }
        | Expr::Choose { .. }
        | Expr::Assign { .. }
        | Expr::Bump { .. }
        | Expr::Comma { .. } => goes(Now::Over(EvalEnd::Starved)),
    }
}

/// What a statement begins with.
pub fn statement<'a>(c: &'a Stmt) -> Next<'a>
    ensures begins { Begins (Now.Stmt c.entry) result }
    ensures falls { Falls (Now.Stmt c.entry) result }
{
    match c {
        Stmt::Empty => goes(Now::Given(Given::Flow(Flow::Normal))),
        Stmt::Value(e) => value_of(Now::Expr(e), OnValue::Discard),
        Stmt::Declare(locals) => goes(Now::Locals(locals.as_slice())),
        Stmt::Block(body) => goes(Now::Block(body)),
        Stmt::If { test, yes, no } => value_of(Now::Expr(test), OnValue::If(yes, no)),
        Stmt::While { test, body } => goes(Now::Loop(Loop::While { test, body })),
        Stmt::Do { body, test } => goes(Now::Do { test, body }),
        Stmt::For {
            first,
            test,
            next,
            body,
        } => goes(Now::For {
            first,
            turn: Loop::For { test, next, body },
        }),
        Stmt::Switch { test, clauses } => {
            value_of(Now::Expr(test), OnValue::Switch(clauses.as_slice()))
        }
        Stmt::Break { .. } => goes(Now::Given(Given::Flow(Flow::Breaks))),
        Stmt::Continue { .. } => goes(Now::Given(Given::Flow(Flow::Continues))),
        Stmt::Return { value, .. } => returned(value),
    }
}

fn returned<'a>(value: &'a Option<Expr>) -> Next<'a>
    ensures begins { BeginsAs (returning value.entry.now) result }
    ensures falls { Lighter (λ most call items. or_zero (expression_work call) value.entry.now + 4) result }
{
    match value {
        None => goes(Now::Given(Given::Flow(Flow::Returns(Value {
            word: 0,
            is_unsigned: false,
        })))),
        Some(e) => value_of(Now::Expr(e), OnValue::Return),
    }
}

/// What statements in order begin with.
pub fn statements<'a>(list: &'a [Stmt]) -> Next<'a>
    ensures begins { Begins (Now.Stmts list.entry) result }
    ensures falls { Falls (Now.Stmts list.entry) result }
{
    match list.split_first() {
        None => goes(Now::Given(Given::Flow(Flow::Normal))),
        Some((first, others)) => flow_of(Now::Stmt(first), OnFlow::Stmts(others)),
    }
}

/// What declarators in order begin with.
pub fn locals<'a>(list: &'a [Local]) -> Next<'a>
    ensures begins { Begins (Now.Locals list.entry) result }
    ensures falls { Falls (Now.Locals list.entry) result }
{
    match list.split_first() {
        None => goes(Now::Given(Given::Flow(Flow::Normal))),
        Some((first, others)) => flow_of(Now::Local(first), OnFlow::Locals(others)),
    }
}

/// What the statements of clauses begin with.
pub fn clauses<'a>(list: &'a [Clause]) -> Next<'a>
    ensures begins { Begins (Now.Clauses list.entry) result }
    ensures falls { Falls (Now.Clauses list.entry) result }
{
    match list.split_first() {
        None => goes(Now::Given(Given::Flow(Flow::Normal))),
        Some((first, others)) => {
            flow_of(Now::Stmts(first.body.as_slice()), OnFlow::Clauses(others))
        }
    }
}

/// What a `for` begins with, inside its scope.
pub fn in_for<'a>(first: &'a Boxed<Stmt>, turn: Loop<'a>) -> Next<'a>
    ensures begins { Begins (Now.InFor first.entry turn.entry) result }
    ensures falls { Falls (Now.InFor first.entry turn.entry) result }
{
    flow_of(Now::Stmt(first.get()), OnFlow::Loop(turn))
}

/// What the turns of a loop begin with.
pub fn turns<'a>(left: u64, turn: Loop<'a>) -> Next<'a>
    ensures begins { Begins (Now.Turns left turn.entry) result }
    ensures falls { Falls (Now.Turns left turn.entry) result }
{
    if left == 0 {
        return goes(Now::Over(EvalEnd::Going));
    }
    tested(left - 1, turn)
}

/// What a turn of a loop begins with, where so many may follow.
pub fn tested<'a>(left: u64, turn: Loop<'a>) -> Next<'a>
    ensures begins { BeginsAs (one_of_turns left turn.entry) result }
    ensures falls { Lighter (λ most call items. turns_work (round_of most call turn.entry) (suc left)) result }
{
    match turn {
        Loop::While { test, .. } => value_of(Now::Expr(test), OnValue::Test { left, turn }),
        Loop::For { test, .. } => match test {
            None => value_of(
                Now::Given(Given::Value(Value {
                    word: 1,
                    is_unsigned: false,
                })),
                OnValue::Test { left, turn },
            ),
            Some(test) => value_of(Now::Expr(test), OnValue::Test { left, turn }),
        },
    }
}

/// The body of a loop.
pub fn body<'a>(turn: Loop<'a>) -> &'a Stmt
    ensures { result.now ≡ body_is turn.entry }
{
    match turn {
        Loop::While { body, .. } => body.get(),
        Loop::For { body, .. } => body.get(),
    }
}

/// What a search for a label in clauses begins with.
pub fn search<'a>(word: Option<u32>, left: &'a [Clause], all: &'a [Clause]) -> Next<'a>
    ensures begins { Begins (Now.Search word left.entry all.entry) result }
    ensures falls { Falls (Now.Search word left.entry all.entry) result }
{
    match left.split_first() {
        None => match word {
            None => goes(Now::Given(Given::Flow(Flow::Normal))),
            Some(_) => goes(Now::Search {
                word: None,
                left: all,
                all,
            }),
        },
        Some((first, others)) => goes(Now::Labels {
            word,
            labels: first.labels.as_slice(),
            here: left,
            left: others,
            all,
        }),
    }
}

/// What a search for a label among those of a clause begins with.
pub fn labels<'a>(
    word: Option<u32>,
    labels: &'a [Label],
    here: &'a [Clause],
    left: &'a [Clause],
    all: &'a [Clause],
) -> Next<'a>
    ensures begins { Begins (Now.Labels word labels.entry here.entry left.entry all.entry) result }
    ensures falls { Falls (Now.Labels word labels.entry here.entry left.entry all.entry) result }
{
    match labels.split_first() {
        None => goes(Now::Search { word, left, all }),
        Some((first, others)) => {
            if is_label(word, first) {
                goes(Now::Clauses(here))
            } else {
                goes(Now::Labels {
                    word,
                    labels: others,
                    here,
                    left,
                    all,
                })
            }
        }
    }
}

/// Whether a label is the `case` of a word, or `default` where there is no word.
pub fn is_label(word: Option<u32>, label: &Label) -> bool
    ensures { result ≡ is_label word (label_word label.now) }
{
    match label {
        Label::Case { value, .. } => match word {
            None => false,
            Some(word) => constant_word(value) == word,
        },
        Label::Otherwise { .. } => word.is_none(),
    }
}
