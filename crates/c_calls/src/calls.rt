//! The names that the body of a function calls, from left to right.

ghost use Rattle.std.specs.Prelude.{◌≡◌, ◌++◌, flat_map, OnOk};
ghost use Rattle.c_syntax.specs.Graph.{or_none, expression_calls, local_calls, label_calls, statement_calls, clause_calls};

use c_syntax::{Clause, Expr, Label, Local, Stmt};
use hard_words::OutOfMemory;
use sqlite_items::Items;

#[cycle(expression_calls)]
fn add_expressions(all: &[Expr], calls: &mut Items<u32>) -> Result<(), OutOfMemory>
    ensures { OnOk result (calls.new ≡ calls.old ++ flat_map expression_calls all.now) }
{
    for e in all {
        add_expression(e, calls)?;
    }
    Ok(())
}

#[cycle(expression_calls)]
fn add_expression(e: &Expr, calls: &mut Items<u32>) -> Result<(), OutOfMemory>
    ensures { OnOk result (calls.new ≡ calls.old ++ expression_calls e.now) }
{
    match e {
        Expr::Literal { .. } | Expr::Name { .. } => Ok(()),
        Expr::Call { name, args, .. } => {
            calls.push(*name)?;
            add_expressions(args.as_slice(), calls)?;
            Ok(())
        }
        Expr::Index { index: of, .. }
        | Expr::Unary { of, .. }
        | Expr::Bump { place: of, .. }
        | Expr::Paren { of, .. } => add_expression(of.get(), calls),
        Expr::Binary { left, right, .. }
        | Expr::Logic { left, right, .. }
        | Expr::Comma { left, right, .. }
        | Expr::Assign {
            place: left,
            value: right,
            ..
        } => {
            add_expression(left.get(), calls)?;
            add_expression(right.get(), calls)?;
            Ok(())
        }
        Expr::Choose { test, yes, no, .. } => {
            add_expression(test.get(), calls)?;
            add_expression(yes.get(), calls)?;
            add_expression(no.get(), calls)?;
            Ok(())
        }
    }
}

fn add_option(e: &Option<Expr>, calls: &mut Items<u32>) -> Result<(), OutOfMemory>
    ensures { OnOk result (calls.new ≡ calls.old ++ or_none expression_calls e.now) }
{
    match e {
        None => Ok(()),
        Some(e) => add_expression(e, calls),
    }
}

fn add_locals(locals: &[Local], calls: &mut Items<u32>) -> Result<(), OutOfMemory>
    ensures { OnOk result (calls.new ≡ calls.old ++ flat_map local_calls locals.now) }
{
    for local in locals {
        add_option(&local.first, calls)?;
    }
    Ok(())
}

fn add_label(label: &Label, calls: &mut Items<u32>) -> Result<(), OutOfMemory>
    ensures { OnOk result (calls.new ≡ calls.old ++ label_calls label.now) }
{
    match label {
        Label::Case { value, .. } => add_expression(value, calls),
        Label::Otherwise { .. } => Ok(()),
    }
}

fn add_labels(labels: &[Label], calls: &mut Items<u32>) -> Result<(), OutOfMemory>
    ensures { OnOk result (calls.new ≡ calls.old ++ flat_map label_calls labels.now) }
{
    for label in labels {
        add_label(label, calls)?;
    }
    Ok(())
}

#[cycle(statement_calls)]
fn add_clause(clause: &Clause, calls: &mut Items<u32>) -> Result<(), OutOfMemory>
    ensures { OnOk result (calls.new ≡ calls.old ++ clause_calls clause.now) }
{
    add_labels(clause.labels.as_slice(), calls)?;
    add_statements(clause.body.as_slice(), calls)?;
    Ok(())
}

#[cycle(statement_calls)]
fn add_clauses(clauses: &[Clause], calls: &mut Items<u32>) -> Result<(), OutOfMemory>
    ensures { OnOk result (calls.new ≡ calls.old ++ flat_map clause_calls clauses.now) }
{
    for clause in clauses {
        add_clause(clause, calls)?;
    }
    Ok(())
}

/// Adds the names that the statements call.
#[cycle(statement_calls)]
pub(crate) fn add_statements(body: &[Stmt], calls: &mut Items<u32>) -> Result<(), OutOfMemory>
    ensures { OnOk result (calls.new ≡ calls.old ++ flat_map statement_calls body.now) }
{
    for c in body {
        add_statement(c, calls)?;
    }
    Ok(())
}

#[cycle(statement_calls)]
fn add_statement(c: &Stmt, calls: &mut Items<u32>) -> Result<(), OutOfMemory>
    ensures { OnOk result (calls.new ≡ calls.old ++ statement_calls c.now) }
{
    match c {
        Stmt::Empty | Stmt::Break { .. } | Stmt::Continue { .. } => Ok(()),
        Stmt::Value(e) => add_expression(e, calls),
        Stmt::Declare(locals) => add_locals(locals.as_slice(), calls),
        Stmt::Block(body) => add_statements(body.as_slice(), calls),
        Stmt::If { test, yes, no } => {
            add_expression(test, calls)?;
            add_statement(yes.get(), calls)?;
            match no {
                None => Ok(()),
                Some(no) => {
                    add_statement(no.get(), calls)?;
                    Ok(())
                }
            }
        }
        Stmt::While { test, body } => {
            add_expression(test, calls)?;
            add_statement(body.get(), calls)?;
            Ok(())
        }
        Stmt::Do { body, test } => {
            add_statement(body.get(), calls)?;
            add_expression(test, calls)?;
            Ok(())
        }
        Stmt::For {
            first,
            test,
            next,
            body,
        } => {
            add_statement(first.get(), calls)?;
            add_option(test, calls)?;
            add_option(next, calls)?;
            add_statement(body.get(), calls)?;
            Ok(())
        }
        Stmt::Switch { test, clauses } => {
            add_expression(test, calls)?;
            add_clauses(clauses.as_slice(), calls)?;
            Ok(())
        }
        Stmt::Return { value, .. } => add_option(value, calls),
    }
}
