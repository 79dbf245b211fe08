//! How many blocks the lines of statements end, before they are put.

ghost use Rattle.std.specs.Prelude.{◌≡◌, ◌+◌, ◌<◌, ◌^◌, map};
ghost use Rattle.lower_rules.specs.Statements as law;
ghost use Rattle.lower_rules.specs.Statements.{low_if, low_local, low_list, low_statement, low_clause};
ghost use Rattle.lower_expressions.specs.Names.{names_of};

use crate::labels::cases_count;
use c_syntax::{Clause, Expr, Local, Stmt};
use lower_expressions::{Table, test_blocks, value_blocks};

/// The blocks that a value that may be left out ends.
pub(crate) fn blocks_of_value(table: &Table, e: &Option<Expr>) -> u32
    requires { law.value_blocks (low_if (names_of table.now) e.now) < 2 ^ 32 }
    ensures { result ≡ law.value_blocks (low_if (names_of table.now) e.now) }
{
    match e {
        None => 0,
        Some(e) => value_blocks(table, e),
    }
}

/// The blocks that a test that may be left out ends.
pub(crate) fn blocks_of_test(table: &Table, e: &Option<Expr>) -> u32
    requires { law.test_blocks (low_if (names_of table.now) e.now) < 2 ^ 32 }
    ensures { result ≡ law.test_blocks (low_if (names_of table.now) e.now) }
{
    match e {
        None => 0,
        Some(e) => test_blocks(table, e),
    }
}

/// The blocks that declarators end.
fn local_blocks(table: &Table, locals: &[Local]) -> u32
    requires { (low_list (map (low_local (names_of table.now)) locals.now)).blocks < 2 ^ 32 }
    ensures { result ≡ (low_list (map (low_local (names_of table.now)) locals.now)).blocks }
{
    let mut count: u32 = 0;
    for d in locals {
        count += blocks_of_value(table, &d.first);
    }
    count
}

/// The blocks that the lines of statements end.
#[cycle(counts)]
pub fn list_blocks(table: &Table, body: &[Stmt]) -> u32
    requires { (low_list (map (low_statement (names_of table.now)) body.now)).blocks < 2 ^ 32 }
    ensures { result ≡ (low_list (map (low_statement (names_of table.now)) body.now)).blocks }
{
    let mut count: u32 = 0;
    for c in body {
        count += statement_blocks(table, c);
    }
    count
}

/// The blocks that the statements of the clauses of a `switch` end, and the jump behind each clause.
#[cycle(counts)]
pub(crate) fn clauses_blocks(table: &Table, clauses: &[Clause]) -> u32
    requires { law.clauses_blocks (map (low_clause (names_of table.now)) clauses.now) < 2 ^ 32 }
    ensures { result ≡ law.clauses_blocks (map (low_clause (names_of table.now)) clauses.now) }
{
    let mut count: u32 = 0;
    for clause in clauses {
        count += list_blocks(table, clause.body.as_slice()) + 1;
    }
    count
}

/// The blocks that the lines of a statement end.
#[cycle(counts)]
pub(crate) fn statement_blocks(table: &Table, c: &Stmt) -> u32
    requires { (low_statement (names_of table.now) c.now).blocks < 2 ^ 32 }
    ensures { result ≡ (low_statement (names_of table.now) c.now).blocks }
{
    match c {
        Stmt::Empty => 0,
        Stmt::Value(e) => value_blocks(table, e),
        Stmt::Declare(locals) => local_blocks(table, locals.as_slice()),
        Stmt::Block(body) => list_blocks(table, body.as_slice()),
        Stmt::If { test, yes, no } => {
            let first = test_blocks(table, test) + statement_blocks(table, yes.get()) + 1;
            match no {
                None => first,
                Some(no) => first + statement_blocks(table, no.get()) + 1,
            }
        }
        Stmt::While { test, body } => {
            1 + test_blocks(table, test) + statement_blocks(table, body.get()) + 1
        }
        Stmt::Do { body, test } => {
            1 + statement_blocks(table, body.get()) + 1 + test_blocks(table, test)
        }
        Stmt::For {
            first,
            test,
            next,
            body,
        } => {
            statement_blocks(table, first.get())
                + 1
                + blocks_of_test(table, test)
                + statement_blocks(table, body.get())
                + 1
                + blocks_of_value(table, next)
                + 1
        }
        Stmt::Switch { test, clauses } => {
            value_blocks(table, test)
                + cases_count(table, clauses.as_slice())
                + 1
                + clauses_blocks(table, clauses.as_slice())
        }
        Stmt::Break { .. } | Stmt::Continue { .. } => 1,
        Stmt::Return { value, .. } => blocks_of_value(table, value) + 1,
    }
}
