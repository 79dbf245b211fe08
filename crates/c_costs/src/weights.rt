//! The weight of a function.

ghost use Rattle.std.specs.Prelude.{◌≡◌, ◌+◌, ◌^◌, ◌-◌, min, max, map, sum, ℕ, Option};
ghost use Rattle.c_syntax.specs.Sizes.{greatest, or_zero};
ghost use Rattle.c_syntax.specs.Costs.{need, argument_temps, temps, local_temps, label_temps, statement_temps, clause_temps, statement_locals, clause_locals, function_weight};

use c_syntax::{Clause, Expr, Function, Label, Local, Stmt};

/// The weight of a function, in pairs of words: one for the return address, one for each parameter and each variable of
/// its body, and the greatest number of temporaries that an expression or a `switch` of the body needs; or
/// 18446744073709551615, where it is greater.
pub fn weight(function: &Function) -> u64
    ensures { result ≡ min (function_weight function.now) (2 ^ 64 - 1) }
{
    let pairs = (function.params.len() as u64).saturating_add(1);
    match &function.body {
        None => pairs,
        Some(body) => pairs
            .saturating_add(locals_of_statements(body.as_slice()))
            .saturating_add(temps_of_statements(body.as_slice())),
    }
}

// whether a place is an indexed name, in parentheses or not
fn is_index(place: &Expr) -> bool
    ensures { result ≡ (need place.now).is_index }
{
    match place {
        Expr::Index { .. } => true,
        Expr::Paren { of, .. } => is_index(of.get()),
        Expr::Literal { .. }
        | Expr::Name { .. }
        | Expr::Call { .. }
        | Expr::Unary { .. }
        | Expr::Binary { .. }
        | Expr::Logic { .. }
        | Expr::Choose { .. }
        | Expr::Assign { .. }
        | Expr::Bump { .. }
        | Expr::Comma { .. } => false,
    }
}

#[cycle(temps_of_expression)]
fn temps_of_arguments(all: &[Expr]) -> u64
    ensures { result ≡ min (argument_temps 0 (map need all.now)) (2 ^ 64 - 1) }
{
    let mut most = 0u64;
    let mut before = 0u64;
    for e in all {
        most = most.max(temps_of_expression(e).saturating_add(before));
        before = before.saturating_add(1);
    }
    most
}

#[cycle(temps_of_expression)]
fn temps_of_expression(e: &Expr) -> u64
    ensures { result ≡ min (temps e.now) (2 ^ 64 - 1) }
{
    match e {
        Expr::Literal { .. } | Expr::Name { .. } => 1,
        Expr::Index { index: of, .. } | Expr::Paren { of, .. } => temps_of_expression(of.get()),
        Expr::Call { args, .. } => temps_of_arguments(args.as_slice()).max(1),
        Expr::Unary { of, .. } => temps_of_expression(of.get()).max(2),
        Expr::Binary { left, right, .. } => {
            let left = temps_of_expression(left.get());
            left.max(temps_of_expression(right.get()).saturating_add(1))
        }
        Expr::Logic { left, right, .. } | Expr::Comma { left, right, .. } => {
            let left = temps_of_expression(left.get());
            left.max(temps_of_expression(right.get()))
        }
        Expr::Choose { test, yes, no, .. } => {
            let test = temps_of_expression(test.get());
            let yes = temps_of_expression(yes.get());
            let no = temps_of_expression(no.get());
            test.max(yes.max(no))
        }
        Expr::Assign {
            op,
            place,
            value,
            ..
        } => {
            let old = match op {
                None => 0,
                Some(_) => 1,
            };
            let with = temps_of_expression(value.get()).saturating_add(old);
            if is_index(place.get()) {
                temps_of_expression(place.get()).max(with.saturating_add(1))
            } else {
                with
            }
        }
        Expr::Bump { place, .. } => {
            if is_index(place.get()) {
                temps_of_expression(place.get()).max(3)
            } else {
                2
            }
        }
    }
}

fn temps_of_option(e: &Option<Expr>) -> u64
    ensures { result ≡ min (or_zero temps e.now) (2 ^ 64 - 1) }
{
    match e {
        None => 0,
        Some(e) => temps_of_expression(e),
    }
}

fn temps_of_locals(locals: &[Local]) -> u64
    ensures { result ≡ min (greatest (map local_temps locals.now)) (2 ^ 64 - 1) }
{
    let mut most = 0u64;
    for local in locals {
        most = most.max(temps_of_option(&local.first));
    }
    most
}

fn temps_of_label(label: &Label) -> u64
    ensures { result ≡ min (label_temps label.now) (2 ^ 64 - 1) }
{
    match label {
        Label::Case { value, .. } => temps_of_expression(value),
        Label::Otherwise { .. } => 0,
    }
}

fn temps_of_labels(all: &[Label]) -> u64
    ensures { result ≡ min (greatest (map label_temps all.now)) (2 ^ 64 - 1) }
{
    let mut most = 0u64;
    for label in all {
        most = most.max(temps_of_label(label));
    }
    most
}

#[cycle(temps)]
fn temps_of_clause(clause: &Clause) -> u64
    ensures { result ≡ min (clause_temps clause.now) (2 ^ 64 - 1) }
{
    let labels = temps_of_labels(clause.labels.as_slice());
    labels.max(temps_of_statements(clause.body.as_slice()))
}

#[cycle(temps)]
fn temps_of_clauses(all: &[Clause]) -> u64
    ensures { result ≡ min (greatest (map clause_temps all.now)) (2 ^ 64 - 1) }
{
    let mut most = 0u64;
    for clause in all {
        most = most.max(temps_of_clause(clause));
    }
    most
}

#[cycle(temps)]
fn temps_of_statements(all: &[Stmt]) -> u64
    ensures { result ≡ min (greatest (map statement_temps all.now)) (2 ^ 64 - 1) }
{
    let mut most = 0u64;
    for c in all {
        most = most.max(temps_of_statement(c));
    }
    most
}

#[cycle(temps)]
fn temps_of_statement(c: &Stmt) -> u64
    ensures { result ≡ min (statement_temps c.now) (2 ^ 64 - 1) }
{
    match c {
        Stmt::Empty | Stmt::Break { .. } | Stmt::Continue { .. } => 0,
        Stmt::Value(e) => temps_of_expression(e),
        Stmt::Declare(locals) => temps_of_locals(locals.as_slice()),
        Stmt::Block(body) => temps_of_statements(body.as_slice()),
        Stmt::If { test, yes, no } => {
            let test = temps_of_expression(test);
            let yes = temps_of_statement(yes.get());
            let no = match no {
                None => 0,
                Some(no) => temps_of_statement(no.get()),
            };
            test.max(yes.max(no))
        }
        Stmt::While { test, body } => {
            let test = temps_of_expression(test);
            test.max(temps_of_statement(body.get()))
        }
        Stmt::Do { body, test } => {
            let body = temps_of_statement(body.get());
            body.max(temps_of_expression(test))
        }
        Stmt::For {
            first,
            test,
            next,
            body,
        } => {
            let first = temps_of_statement(first.get());
            let test = temps_of_option(test);
            let next = temps_of_option(next);
            let body = temps_of_statement(body.get());
            first.max(test.max(next.max(body)))
        }
        Stmt::Switch { test, clauses } => {
            let test = temps_of_expression(test).max(2);
            test.max(temps_of_clauses(clauses.as_slice()))
        }
        Stmt::Return { value, .. } => temps_of_option(value),
    }
}

#[cycle(locals)]
fn locals_of_clauses(all: &[Clause]) -> u64
    ensures { result ≡ min (sum (map clause_locals all.now)) (2 ^ 64 - 1) }
{
    let mut count = 0u64;
    for clause in all {
        count = count.saturating_add(locals_of_clause(clause));
    }
    count
}

#[cycle(locals)]
fn locals_of_clause(clause: &Clause) -> u64
    ensures { result ≡ min (clause_locals clause.now) (2 ^ 64 - 1) }
{
    locals_of_statements(clause.body.as_slice())
}

#[cycle(locals)]
fn locals_of_statements(all: &[Stmt]) -> u64
    ensures { result ≡ min (sum (map statement_locals all.now)) (2 ^ 64 - 1) }
{
    let mut count = 0u64;
    for c in all {
        count = count.saturating_add(locals_of_statement(c));
    }
    count
}

#[cycle(locals)]
fn locals_of_statement(c: &Stmt) -> u64
    ensures { result ≡ min (statement_locals c.now) (2 ^ 64 - 1) }
{
    match c {
        Stmt::Empty
        | Stmt::Value(_)
        | Stmt::Break { .. }
        | Stmt::Continue { .. }
        | Stmt::Return { .. } => 0,
        Stmt::Declare(locals) => locals.len() as u64,
        Stmt::Block(body) => locals_of_statements(body.as_slice()),
        Stmt::If { yes, no, .. } => {
            let no = match no {
                None => 0,
                Some(no) => locals_of_statement(no.get()),
            };
            locals_of_statement(yes.get()).saturating_add(no)
        }
        Stmt::While { body, .. } | Stmt::Do { body, .. } => locals_of_statement(body.get()),
        Stmt::For { first, body, .. } => {
            let first = locals_of_statement(first.get());
            first.saturating_add(locals_of_statement(body.get()))
        }
        Stmt::Switch { clauses, .. } => locals_of_clauses(clauses.as_slice()),
    }
}
