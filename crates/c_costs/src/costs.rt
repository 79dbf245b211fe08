//! The block cost of a program.

ghost use Rattle.std.specs.Prelude.{◌≡◌, ◌+◌, ◌^◌, ◌-◌, min, map, sum, IfOk};
ghost use Rattle.c_syntax.specs.Sizes.{or_zero};
ghost use Rattle.c_syntax.specs.Costs.{expression_cost, local_cost, label_cost, statement_cost, clause_cost, shape_cost, global_cost, item_cost, program_cost};

use crate::bodies::Bodies;
use c_syntax::{Clause, Expr, GlobalVar, Label, Local, Program, Shape, Stmt, TopItem};
use hard_words::OutOfMemory;
use std::alloc::Global;

/// The block cost of a program: 2, 4 for each body, 1 for each call of a function with a body, 6 for each `&&`, `||`, `?:`,
/// `if` and `switch`, 8 for each loop, and 4 for each label; or 18446744073709551615, where it is greater. The time grows with
/// the tree's size and the names.
pub fn block_cost(alloc: Global, program: &Program) -> Result<u64, OutOfMemory>
    ensures { IfOk result (λ cost. cost ≡ min (program_cost program.now) (2 ^ 64 - 1)) }
{
    let bodies = Bodies::new(alloc, program.items.as_slice())?;
    Ok(cost_of_items(&bodies))
}

fn cost_of_items(bodies: &Bodies) -> u64
    ensures { result ≡ min (2 + sum (map (item_cost bodies.now) bodies.now)) (2 ^ 64 - 1) }
{
    let mut cost = 2u64;
    for item in bodies.items() {
        cost = cost.saturating_add(cost_of_item(item, bodies));
    }
    cost
}

fn cost_of_item(item: &TopItem, bodies: &Bodies) -> u64
    ensures { result ≡ min (item_cost bodies.now item.now) (2 ^ 64 - 1) }
{
    match item {
        TopItem::Globals(globals) => cost_of_globals(globals.as_slice(), bodies),
        TopItem::Function(function) => match &function.body {
            None => 0,
            Some(body) => cost_of_statements(body.as_slice(), bodies).saturating_add(4),
        },
    }
}

fn cost_of_globals(globals: &[GlobalVar], bodies: &Bodies) -> u64
    ensures { result ≡ min (sum (map (global_cost bodies.now) globals.now)) (2 ^ 64 - 1) }
{
    let mut cost = 0u64;
    for global in globals {
        cost = cost
            .saturating_add(cost_of_shape(&global.shape, bodies))
            .saturating_add(cost_of_expressions(global.first.as_slice(), bodies));
    }
    cost
}

fn cost_of_shape(shape: &Shape, bodies: &Bodies) -> u64
    ensures { result ≡ min (shape_cost bodies.now shape.now) (2 ^ 64 - 1) }
{
    match shape {
        Shape::Scalar => 0,
        Shape::Array { length } => cost_of_option(length, bodies),
    }
}

#[cycle(cost_of_expression)]
fn cost_of_expressions(all: &[Expr], bodies: &Bodies) -> u64
    ensures { result ≡ min (sum (map (expression_cost bodies.now) all.now)) (2 ^ 64 - 1) }
{
    let mut cost = 0u64;
    for e in all {
        cost = cost.saturating_add(cost_of_expression(e, bodies));
    }
    cost
}

#[cycle(cost_of_expression)]
fn cost_of_expression(e: &Expr, bodies: &Bodies) -> u64
    ensures { result ≡ min (expression_cost bodies.now e.now) (2 ^ 64 - 1) }
{
    match e {
        Expr::Literal { .. } | Expr::Name { .. } => 0,
        Expr::Call { name, args, .. } => {
            bodies
                .cost_of_call(*name)
                .saturating_add(cost_of_expressions(args.as_slice(), bodies))
        }
        Expr::Index { index: of, .. }
        | Expr::Unary { of, .. }
        | Expr::Bump { place: of, .. }
        | Expr::Paren { of, .. } => cost_of_expression(of.get(), bodies),
        Expr::Binary { left, right, .. }
        | Expr::Comma { left, right, .. }
        | Expr::Assign {
            place: left,
            value: right,
            ..
        } => cost_of_expression(left.get(), bodies).saturating_add(cost_of_expression(
            right.get(),
            bodies,
        )),
        Expr::Logic { left, right, .. } => cost_of_expression(left.get(), bodies)
            .saturating_add(6)
            .saturating_add(cost_of_expression(right.get(), bodies)),
        Expr::Choose { test, yes, no, .. } => cost_of_expression(test.get(), bodies)
            .saturating_add(6)
            .saturating_add(cost_of_expression(yes.get(), bodies))
            .saturating_add(cost_of_expression(no.get(), bodies)),
    }
}

fn cost_of_option(e: &Option<Expr>, bodies: &Bodies) -> u64
    ensures { result ≡ min (or_zero (expression_cost bodies.now) e.now) (2 ^ 64 - 1) }
{
    match e {
        None => 0,
        Some(e) => cost_of_expression(e, bodies),
    }
}

fn cost_of_locals(locals: &[Local], bodies: &Bodies) -> u64
    ensures { result ≡ min (sum (map (local_cost bodies.now) locals.now)) (2 ^ 64 - 1) }
{
    let mut cost = 0u64;
    for local in locals {
        cost = cost.saturating_add(cost_of_option(&local.first, bodies));
    }
    cost
}

fn cost_of_label(label: &Label, bodies: &Bodies) -> u64
    ensures { result ≡ min (label_cost bodies.now label.now) (2 ^ 64 - 1) }
{
    match label {
        Label::Case { value, .. } => cost_of_expression(value, bodies).saturating_add(4),
        Label::Otherwise { .. } => 4,
    }
}

fn cost_of_labels(all: &[Label], bodies: &Bodies) -> u64
    ensures { result ≡ min (sum (map (label_cost bodies.now) all.now)) (2 ^ 64 - 1) }
{
    let mut cost = 0u64;
    for label in all {
        cost = cost.saturating_add(cost_of_label(label, bodies));
    }
    cost
}

#[cycle(cost)]
fn cost_of_clause(clause: &Clause, bodies: &Bodies) -> u64
    ensures { result ≡ min (clause_cost bodies.now clause.now) (2 ^ 64 - 1) }
{
    cost_of_labels(clause.labels.as_slice(), bodies).saturating_add(cost_of_statements(
        clause.body.as_slice(),
        bodies,
    ))
}

#[cycle(cost)]
fn cost_of_clauses(all: &[Clause], bodies: &Bodies) -> u64
    ensures { result ≡ min (sum (map (clause_cost bodies.now) all.now)) (2 ^ 64 - 1) }
{
    let mut cost = 0u64;
    for clause in all {
        cost = cost.saturating_add(cost_of_clause(clause, bodies));
    }
    cost
}

#[cycle(cost)]
fn cost_of_statements(all: &[Stmt], bodies: &Bodies) -> u64
    ensures { result ≡ min (sum (map (statement_cost bodies.now) all.now)) (2 ^ 64 - 1) }
{
    let mut cost = 0u64;
    for c in all {
        cost = cost.saturating_add(cost_of_statement(c, bodies));
    }
    cost
}

#[cycle(cost)]
fn cost_of_statement(c: &Stmt, bodies: &Bodies) -> u64
    ensures { result ≡ min (statement_cost bodies.now c.now) (2 ^ 64 - 1) }
{
    match c {
        Stmt::Empty | Stmt::Break { .. } | Stmt::Continue { .. } => 0,
        Stmt::Value(e) => cost_of_expression(e, bodies),
        Stmt::Declare(locals) => cost_of_locals(locals.as_slice(), bodies),
        Stmt::Block(body) => cost_of_statements(body.as_slice(), bodies),
        Stmt::If { test, yes, no } => {
            let no = match no {
                None => 0,
                Some(no) => cost_of_statement(no.get(), bodies),
            };
            cost_of_expression(test, bodies)
                .saturating_add(6)
                .saturating_add(cost_of_statement(yes.get(), bodies))
                .saturating_add(no)
        }
        Stmt::While { test, body } | Stmt::Do { body, test } => cost_of_expression(test, bodies)
            .saturating_add(8)
            .saturating_add(cost_of_statement(body.get(), bodies)),
        Stmt::For {
            first,
            test,
            next,
            body,
        } => cost_of_statement(first.get(), bodies)
            .saturating_add(8)
            .saturating_add(cost_of_option(test, bodies))
            .saturating_add(cost_of_option(next, bodies))
            .saturating_add(cost_of_statement(body.get(), bodies)),
        Stmt::Switch { test, clauses } => cost_of_expression(test, bodies)
            .saturating_add(6)
            .saturating_add(cost_of_clauses(clauses.as_slice(), bodies)),
        Stmt::Return { value, .. } => cost_of_option(value, bodies),
    }
}
