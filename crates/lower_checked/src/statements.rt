//! The literals and the cases of a statement.

ghost use Rattle.std.specs.Prelude.{◌≡◌, true, map};
ghost use Rattle.std.specs.List.{list_all};
ghost use Rattle.c_syntax.specs.Literals.{all_true, local_literals, label_literals, statement_literals, clause_literals};
ghost use Rattle.lower_rules.specs.Labels.{cases_are_words, clause_cases_are_words};
ghost use Rattle.lower_checked.specs.Cases.{label_case};

use crate::expressions::{expression_holds_words, number_is_word, part_holds_words};
use c_constants::constant_word;
use c_syntax::{Clause, Label, Local, Stmt};

/// Goes through the initialisers of declarators.
fn locals_hold_words(locals: &[Local])
    ensures { list_all local_literals locals.now ≡ true }
{
    for local in locals {
        part_holds_words(&local.first);
    }
}

/// Goes through a label: the word of a `case` is computed in 32 bits.
fn label_holds_words(label: &Label)
    ensures literals { label_literals label.now ≡ true }
    ensures cases { label_case label.now ≡ true }
{
    match label {
        Label::Case { value, .. } => {
            expression_holds_words(value);
            number_is_word(constant_word(value));
        }
        Label::Otherwise { .. } => {}
    }
}

/// Goes through the labels of a clause.
fn labels_hold_words(labels: &[Label])
    ensures literals { list_all label_literals labels.now ≡ true }
    ensures cases { list_all label_case labels.now ≡ true }
{
    for label in labels {
        label_holds_words(label);
    }
}

/// Goes through a clause of a `switch`.
#[cycle(statements)]
fn clause_holds_words(clause: &Clause)
    ensures literals { clause_literals clause.now ≡ true }
    ensures cases { clause_cases_are_words clause.now ≡ true }
{
    labels_hold_words(clause.labels.as_slice());
    statements_hold_words(clause.body.as_slice());
}

/// Goes through the clauses of a `switch`.
#[cycle(statements)]
fn clauses_hold_words(clauses: &[Clause])
    ensures literals { list_all clause_literals clauses.now ≡ true }
    ensures cases { list_all clause_cases_are_words clauses.now ≡ true }
{
    for clause in clauses {
        clause_holds_words(clause);
    }
}

/// Goes through statements.
#[cycle(statements)]
pub fn statements_hold_words(all: &[Stmt])
    ensures literals { list_all statement_literals all.now ≡ true }
    ensures cases { list_all cases_are_words all.now ≡ true }
{
    for c in all {
        statement_holds_words(c);
    }
}

/// Goes through a statement.
#[cycle(statements)]
fn statement_holds_words(c: &Stmt)
    ensures literals { statement_literals c.now ≡ true }
    ensures cases { cases_are_words c.now ≡ true }
{
    match c {
        Stmt::Empty | Stmt::Break { .. } | Stmt::Continue { .. } => {}
        Stmt::Value(e) => expression_holds_words(e),
        Stmt::Declare(locals) => locals_hold_words(locals.as_slice()),
        Stmt::Block(body) => statements_hold_words(body.as_slice()),
        Stmt::If { test, yes, no } => {
            expression_holds_words(test);
            statement_holds_words(yes.get());
            if let Some(no) = no {
                statement_holds_words(no.get());
            }
        }
        Stmt::While { test, body } | Stmt::Do { body, test } => {
            expression_holds_words(test);
            statement_holds_words(body.get());
        }
        Stmt::For {
            first,
            test,
            next,
            body,
        } => {
            statement_holds_words(first.get());
            part_holds_words(test);
            part_holds_words(next);
            statement_holds_words(body.get());
        }
        Stmt::Switch { test, clauses } => {
            expression_holds_words(test);
            clauses_hold_words(clauses.as_slice());
        }
        Stmt::Return { value, .. } => part_holds_words(value),
    }
}
