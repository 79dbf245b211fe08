//! The first call of a function that has no body.

ghost use Rattle.std.specs.Prelude.{◌≡◌, [], ◌∷◌, map, flat_map};
ghost use Rattle.check_rules.specs.Limits.{CallSite, joined, of_option, bodies, expression_calls, local_calls, label_calls, statement_calls, body_calls};
ghost use Rattle.check_limits.specs.Tables.{lacks, first_lacking, clause_calls};

use crate::weights::weight_under;
use c_syntax::{Clause, Expr, Label, Local, Stmt, TopItem};

// Whether a function is neither there before the text nor has a weight.
fn lacks(weights: &[u64], name: u32) -> bool
    ensures { result ≡ lacks weights.now name }
{
    name != 1 && name != 2 && weight_under(weights, name as usize) == 0
}

// The byte of a call, where its function has no body.
fn here(weights: &[u64], name: u32, at: u32) -> Option<u32>
    ensures { result ≡ first_lacking weights.now (record { name = name; at = at } ∷ []) }
{
    if lacks(weights, name) { Some(at) } else { None }
}

#[cycle(expressions)]
fn in_expressions(weights: &[u64], all: &[Expr]) -> Option<u32>
    ensures { result ≡ first_lacking weights.now (joined (map expression_calls all.now)) }
{
    let mut first = None;
    for e in all {
        first = first.or(in_expression(weights, e));
    }
    first
}

#[cycle(expressions)]
fn in_expression(weights: &[u64], e: &Expr) -> Option<u32>
    ensures { result ≡ first_lacking weights.now (expression_calls e.now) }
{
    match e {
        Expr::Literal { .. } | Expr::Name { .. } => None,
        Expr::Call { name, args, at } => {
            here(weights, *name, *at).or(in_expressions(weights, args.as_slice()))
        }
        Expr::Index { index: of, .. }
        | Expr::Unary { of, .. }
        | Expr::Bump { place: of, .. }
        | Expr::Paren { of, .. } => in_expression(weights, of.get()),
        Expr::Binary { left, right, .. }
        | Expr::Logic { left, right, .. }
        | Expr::Comma { left, right, .. }
        | Expr::Assign {
            place: left,
            value: right,
            ..
        } => {
            let left = in_expression(weights, left.get());
            left.or(in_expression(weights, right.get()))
        }
        Expr::Choose { test, yes, no, .. } => {
            let test = in_expression(weights, test.get());
            let yes = in_expression(weights, yes.get());
            test.or(yes.or(in_expression(weights, no.get())))
        }
    }
}

fn in_option(weights: &[u64], e: &Option<Expr>) -> Option<u32>
    ensures { result ≡ first_lacking weights.now (of_option expression_calls e.now) }
{
    match e {
        None => None,
        Some(e) => in_expression(weights, e),
    }
}

fn in_locals(weights: &[u64], locals: &[Local]) -> Option<u32>
    ensures { result ≡ first_lacking weights.now (joined (map local_calls locals.now)) }
{
    let mut first = None;
    for local in locals {
        first = first.or(in_option(weights, &local.first));
    }
    first
}

fn in_label(weights: &[u64], label: &Label) -> Option<u32>
    ensures { result ≡ first_lacking weights.now (label_calls label.now) }
{
    match label {
        Label::Case { value, .. } => in_expression(weights, value),
        Label::Otherwise { .. } => None,
    }
}

fn in_labels(weights: &[u64], labels: &[Label]) -> Option<u32>
    ensures { result ≡ first_lacking weights.now (joined (map label_calls labels.now)) }
{
    let mut first = None;
    for label in labels {
        first = first.or(in_label(weights, label));
    }
    first
}

#[cycle(statements)]
fn in_clause(weights: &[u64], clause: &Clause) -> Option<u32>
    ensures { result ≡ first_lacking weights.now (clause_calls clause.now) }
{
    let labels = in_labels(weights, clause.labels.as_slice());
    labels.or(in_statements(weights, clause.body.as_slice()))
}

#[cycle(statements)]
fn in_clauses(weights: &[u64], clauses: &[Clause]) -> Option<u32>
    ensures { result ≡ first_lacking weights.now (joined (map clause_calls clauses.now)) }
{
    let mut first = None;
    for clause in clauses {
        first = first.or(in_clause(weights, clause));
    }
    first
}

#[cycle(statements)]
fn in_statements(weights: &[u64], body: &[Stmt]) -> Option<u32>
    ensures { result ≡ first_lacking weights.now (joined (map statement_calls body.now)) }
{
    let mut first = None;
    for c in body {
        first = first.or(in_statement(weights, c));
    }
    first
}

#[cycle(statements)]
fn in_statement(weights: &[u64], c: &Stmt) -> Option<u32>
    ensures { result ≡ first_lacking weights.now (statement_calls c.now) }
{
    match c {
        Stmt::Empty | Stmt::Break { .. } | Stmt::Continue { .. } => None,
        Stmt::Value(e) => in_expression(weights, e),
        Stmt::Declare(locals) => in_locals(weights, locals.as_slice()),
        Stmt::Block(body) => in_statements(weights, body.as_slice()),
        Stmt::If { test, yes, no } => {
            let test = in_expression(weights, test);
            let yes = in_statement(weights, yes.get());
            match no {
                None => test.or(yes),
                Some(no) => test.or(yes.or(in_statement(weights, no.get()))),
            }
        }
        Stmt::While { test, body } => {
            let test = in_expression(weights, test);
            test.or(in_statement(weights, body.get()))
        }
        Stmt::Do { body, test } => {
            let body = in_statement(weights, body.get());
            body.or(in_expression(weights, test))
        }
        Stmt::For {
            first,
            test,
            next,
            body,
        } => {
            let first = in_statement(weights, first.get());
            let test = in_option(weights, test);
            let next = in_option(weights, next);
            first.or(test.or(next.or(in_statement(weights, body.get()))))
        }
        Stmt::Switch { test, clauses } => {
            let test = in_expression(weights, test);
            test.or(in_clauses(weights, clauses.as_slice()))
        }
        Stmt::Return { value, .. } => in_option(weights, value),
    }
}

fn in_item(weights: &[u64], item: &TopItem) -> Option<u32>
    ensures { result ≡ first_lacking weights.now (flat_map body_calls (bodies (item.now ∷ []))) }
{
    match item {
        TopItem::Globals(_) => None,
        TopItem::Function(function) => match &function.body {
            None => None,
            Some(body) => in_statements(weights, body.as_slice()),
        },
    }
}

/// The byte of the first call in the bodies of a function that is neither there before the text nor has a weight.
pub(crate) fn in_items(weights: &[u64], items: &[TopItem]) -> Option<u32>
    ensures { result ≡ first_lacking weights.now (flat_map body_calls (bodies items.now)) }
{
    let mut first = None;
    for item in items {
        first = first.or(in_item(weights, item));
    }
    first
}
