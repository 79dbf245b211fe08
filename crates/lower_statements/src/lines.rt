//! The lines of statements.

ghost use Rattle.std.specs.Prelude.{◌≡◌, ◌+◌, ◌*◌, ◌<◌, ◌^◌, ◌++◌, None, Some, map, sum, IfOk, OnOk};
ghost use Rattle.c_syntax.specs.Sizes.{or_zero, expression_nodes, statement_nodes, clause_nodes};
ghost use Rattle.lower_rules.specs.Expressions.{low};
ghost use Rattle.lower_rules.specs.Statements as law;
ghost use Rattle.lower_rules.specs.Statements.{low_if, low_list, low_selection, low_while, low_do, low_for, low_switch, low_statement, low_clause};
ghost use Rattle.lower_expressions.specs.Written.{written};
ghost use Rattle.lower_expressions.specs.Names.{names_of, AreKnown};
ghost use Rattle.lower_statements.specs.Contexts.{context_of};

use crate::context::{Context, in_loop};
use crate::counts::{blocks_of_test, blocks_of_value, clauses_blocks, statement_blocks};
use crate::labels::{cases_count, default_block, put_cases};
use crate::steps::{put_jump, put_locals, put_test, put_value};
use c_syntax::{Clause, Expr, Stmt};
use hard_words::OutOfMemory;
use lower_expressions::{Builder, Table, condition, test_blocks, value};
use std::alloc::Global;

/// The lines of statements one after another, from a block on; gives the block that is open behind them.
#[cycle(statements)]
pub fn statements(
    alloc: Global,
    out: &mut Builder,
    table: &Table,
    body: &[Stmt],
    to: Context,
    b: u32,
) -> Result<u32, OutOfMemory>
    requires known { AreKnown table.now }
    requires blocks { b + (low_list (map (low_statement (names_of table.now)) body.now)).blocks < 2 ^ 32 }
    requires room { to.free + 3 * sum (map statement_nodes body.now) < 2 ^ 32 }
    ensures lines { OnOk result (written out.new ≡ written out.old ++ (low_list (map (low_statement (names_of table.now)) body.now)).lines (context_of to) b) }
    ensures block { IfOk result (λ n. n ≡ b + (low_list (map (low_statement (names_of table.now)) body.now)).blocks) }
{
    let mut block = b;
    for c in body {
        block = statement(alloc, out, table, c, to, block)?;
    }
    Ok(block)
}

/// The lines of a statement.
#[cycle(statements)]
fn statement(
    alloc: Global,
    out: &mut Builder,
    table: &Table,
    c: &Stmt,
    to: Context,
    b: u32,
) -> Result<u32, OutOfMemory>
    requires known { AreKnown table.now }
    requires blocks { b + (low_statement (names_of table.now) c.now).blocks < 2 ^ 32 }
    requires room { to.free + 3 * statement_nodes c.now < 2 ^ 32 }
    ensures lines { OnOk result (written out.new ≡ written out.old ++ (low_statement (names_of table.now) c.now).lines (context_of to) b) }
    ensures block { IfOk result (λ n. n ≡ b + (low_statement (names_of table.now) c.now).blocks) }
{
    match c {
        Stmt::Empty => Ok(b),
        Stmt::Value(e) => {
            let after = value(alloc, out, table, e, b, to.free)?;
            Ok(after.block)
        }
        Stmt::Declare(locals) => put_locals(alloc, out, table, locals.as_slice(), to, b),
        Stmt::Block(body) => statements(alloc, out, table, body.as_slice(), to, b),
        Stmt::If { test, yes, no } => match no {
            None => put_if(alloc, out, table, test, yes.get(), to, b),
            Some(no) => put_if_else(alloc, out, table, test, yes.get(), no.get(), to, b),
        },
        Stmt::While { test, body } => put_while(alloc, out, table, test, body.get(), to, b),
        Stmt::Do { body, test } => put_do(alloc, out, table, body.get(), test, to, b),
        Stmt::For {
            first,
            test,
            next,
            body,
        } => put_for(
            alloc,
            out,
            table,
            first.get(),
            test,
            next,
            body.get(),
            to,
            b,
        ),
        Stmt::Switch { test, clauses } => put_switch(
            alloc,
            out,
            table,
            test,
            clauses.as_slice(),
            to,
            b,
        ),
        Stmt::Break { .. } => {
            put_jump(alloc, out, to.breaks_to)?;
            Ok(b + 1)
        }
        Stmt::Continue { .. } => {
            put_jump(alloc, out, to.continues_to)?;
            Ok(b + 1)
        }
        Stmt::Return { value, .. } => {
            let block = put_value(alloc, out, table, value, b, to.free)?;
            put_jump(alloc, out, to.returns_to)?;
            Ok(block + 1)
        }
    }
}

/// `if` without `else`.
#[cycle(statements)]
fn put_if(
    alloc: Global,
    out: &mut Builder,
    table: &Table,
    test: &Expr,
    yes: &Stmt,
    to: Context,
    b: u32,
) -> Result<u32, OutOfMemory>
    requires known { AreKnown table.now }
    requires blocks { b + (low_selection (low (names_of table.now) test.now) (low_statement (names_of table.now) yes.now) None).blocks < 2 ^ 32 }
    requires room { to.free + 3 * (1 + expression_nodes test.now + statement_nodes yes.now) < 2 ^ 32 }
    ensures lines { OnOk result (written out.new ≡ written out.old ++ (low_selection (low (names_of table.now) test.now) (low_statement (names_of table.now) yes.now) None).lines (context_of to) b) }
    ensures block { IfOk result (λ n. n ≡ b + (low_selection (low (names_of table.now) test.now) (low_statement (names_of table.now) yes.now) None).blocks) }
{
    let holds = b + test_blocks(table, test);
    let join = holds + statement_blocks(table, yes) + 1;
    condition(alloc, out, table, test, b, to.free, holds, join, true)?;
    statement(alloc, out, table, yes, to, holds)?;
    put_jump(alloc, out, join)?;
    Ok(join)
}

/// `if` with `else`.
#[cycle(statements)]
fn put_if_else(
    alloc: Global,
    out: &mut Builder,
    table: &Table,
    test: &Expr,
    yes: &Stmt,
    no: &Stmt,
    to: Context,
    b: u32,
) -> Result<u32, OutOfMemory>
    requires known { AreKnown table.now }
    requires blocks { b + (low_selection (low (names_of table.now) test.now) (low_statement (names_of table.now) yes.now) (Some (low_statement (names_of table.now) no.now))).blocks < 2 ^ 32 }
    requires room { to.free + 3 * (1 + expression_nodes test.now + statement_nodes yes.now + statement_nodes no.now) < 2 ^ 32 }
    ensures lines { OnOk result (written out.new ≡ written out.old ++ (low_selection (low (names_of table.now) test.now) (low_statement (names_of table.now) yes.now) (Some (low_statement (names_of table.now) no.now))).lines (context_of to) b) }
    ensures block { IfOk result (λ n. n ≡ b + (low_selection (low (names_of table.now) test.now) (low_statement (names_of table.now) yes.now) (Some (low_statement (names_of table.now) no.now))).blocks) }
{
    let holds = b + test_blocks(table, test);
    let fails = holds + statement_blocks(table, yes) + 1;
    let join = fails + statement_blocks(table, no) + 1;
    condition(alloc, out, table, test, b, to.free, holds, fails, true)?;
    statement(alloc, out, table, yes, to, holds)?;
    put_jump(alloc, out, join)?;
    statement(alloc, out, table, no, to, fails)?;
    put_jump(alloc, out, join)?;
    Ok(join)
}

/// `while`: a jump to the test, the test, the body, a jump back.
#[cycle(statements)]
fn put_while(
    alloc: Global,
    out: &mut Builder,
    table: &Table,
    test: &Expr,
    body: &Stmt,
    to: Context,
    b: u32,
) -> Result<u32, OutOfMemory>
    requires known { AreKnown table.now }
    requires blocks { b + (low_while (low (names_of table.now) test.now) (low_statement (names_of table.now) body.now)).blocks < 2 ^ 32 }
    requires room { to.free + 3 * (1 + expression_nodes test.now + statement_nodes body.now) < 2 ^ 32 }
    ensures lines { OnOk result (written out.new ≡ written out.old ++ (low_while (low (names_of table.now) test.now) (low_statement (names_of table.now) body.now)).lines (context_of to) b) }
    ensures block { IfOk result (λ n. n ≡ b + (low_while (low (names_of table.now) test.now) (low_statement (names_of table.now) body.now)).blocks) }
{
    let head = b + 1;
    let inside = head + test_blocks(table, test);
    let exit = inside + statement_blocks(table, body) + 1;
    put_jump(alloc, out, head)?;
    condition(alloc, out, table, test, head, to.free, inside, exit, true)?;
    statement(alloc, out, table, body, in_loop(exit, head, to), inside)?;
    put_jump(alloc, out, head)?;
    Ok(exit)
}

/// `do`: a jump to the body, the body, a jump to the test, the test.
#[cycle(statements)]
fn put_do(
    alloc: Global,
    out: &mut Builder,
    table: &Table,
    body: &Stmt,
    test: &Expr,
    to: Context,
    b: u32,
) -> Result<u32, OutOfMemory>
    requires known { AreKnown table.now }
    requires blocks { b + (low_do (low_statement (names_of table.now) body.now) (low (names_of table.now) test.now)).blocks < 2 ^ 32 }
    requires room { to.free + 3 * (1 + statement_nodes body.now + expression_nodes test.now) < 2 ^ 32 }
    ensures lines { OnOk result (written out.new ≡ written out.old ++ (low_do (low_statement (names_of table.now) body.now) (low (names_of table.now) test.now)).lines (context_of to) b) }
    ensures block { IfOk result (λ n. n ≡ b + (low_do (low_statement (names_of table.now) body.now) (low (names_of table.now) test.now)).blocks) }
{
    let inside = b + 1;
    let head = inside + statement_blocks(table, body) + 1;
    let exit = head + test_blocks(table, test);
    put_jump(alloc, out, inside)?;
    statement(alloc, out, table, body, in_loop(exit, head, to), inside)?;
    put_jump(alloc, out, head)?;
    condition(alloc, out, table, test, head, to.free, inside, exit, false)?;
    Ok(exit)
}

/// `for`: the first clause, a jump to the test, the test, the body, a jump to what is done after each turn, this, a jump back.
#[cycle(statements)]
fn put_for(
    alloc: Global,
    out: &mut Builder,
    table: &Table,
    first: &Stmt,
    test: &Option<Expr>,
    next: &Option<Expr>,
    body: &Stmt,
    to: Context,
    b: u32,
) -> Result<u32, OutOfMemory>
    requires known { AreKnown table.now }
    requires blocks { b + (low_for (low_statement (names_of table.now) first.now) (low_if (names_of table.now) test.now) (low_if (names_of table.now) next.now) (low_statement (names_of table.now) body.now)).blocks < 2 ^ 32 }
    requires room { to.free + 3 * (1 + statement_nodes first.now + or_zero expression_nodes test.now + or_zero expression_nodes next.now + statement_nodes body.now) < 2 ^ 32 }
    ensures lines { OnOk result (written out.new ≡ written out.old ++ (low_for (low_statement (names_of table.now) first.now) (low_if (names_of table.now) test.now) (low_if (names_of table.now) next.now) (low_statement (names_of table.now) body.now)).lines (context_of to) b) }
    ensures block { IfOk result (λ n. n ≡ b + (low_for (low_statement (names_of table.now) first.now) (low_if (names_of table.now) test.now) (low_if (names_of table.now) next.now) (low_statement (names_of table.now) body.now)).blocks) }
{
    let head = b + statement_blocks(table, first) + 1;
    let inside = head + blocks_of_test(table, test);
    let after = inside + statement_blocks(table, body) + 1;
    let exit = after + blocks_of_value(table, next) + 1;
    statement(alloc, out, table, first, to, b)?;
    put_jump(alloc, out, head)?;
    put_test(alloc, out, table, test, head, to.free, inside, exit)?;
    statement(alloc, out, table, body, in_loop(exit, after, to), inside)?;
    put_jump(alloc, out, after)?;
    put_value(alloc, out, table, next, after, to.free)?;
    put_jump(alloc, out, head)?;
    Ok(exit)
}

/// `switch`: the value, the cases, a jump to `default`, the clauses.
#[cycle(statements)]
fn put_switch(
    alloc: Global,
    out: &mut Builder,
    table: &Table,
    test: &Expr,
    clauses: &[Clause],
    to: Context,
    b: u32,
) -> Result<u32, OutOfMemory>
    requires known { AreKnown table.now }
    requires blocks { b + (low_switch (low (names_of table.now) test.now) (map (low_clause (names_of table.now)) clauses.now)).blocks < 2 ^ 32 }
    requires room { to.free + 3 * (1 + expression_nodes test.now + sum (map clause_nodes clauses.now)) < 2 ^ 32 }
    ensures lines { OnOk result (written out.new ≡ written out.old ++ (low_switch (low (names_of table.now) test.now) (map (low_clause (names_of table.now)) clauses.now)).lines (context_of to) b) }
    ensures block { IfOk result (λ n. n ≡ b + (low_switch (low (names_of table.now) test.now) (map (low_clause (names_of table.now)) clauses.now)).blocks) }
{
    let after = value(alloc, out, table, test, b, to.free)?;
    let first = after.block + cases_count(table, clauses) + 1;
    let exit = first + clauses_blocks(table, clauses);
    put_cases(alloc, out, table, clauses, first, to.free)?;
    put_jump(alloc, out, default_block(table, clauses, first))?;
    let inside = in_loop(exit, to.continues_to, to);
    put_clauses(alloc, out, table, clauses, inside, first)?;
    Ok(exit)
}

/// The statements of the clauses one behind the other, each followed by a jump to the next.
#[cycle(statements)]
fn put_clauses(
    alloc: Global,
    out: &mut Builder,
    table: &Table,
    clauses: &[Clause],
    to: Context,
    first: u32,
) -> Result<(), OutOfMemory>
    requires known { AreKnown table.now }
    requires blocks { first + law.clauses_blocks (map (low_clause (names_of table.now)) clauses.now) < 2 ^ 32 }
    requires room { to.free + 3 * sum (map clause_nodes clauses.now) < 2 ^ 32 }
    ensures { OnOk result (written out.new ≡ written out.old ++ law.clauses_lines (map (low_clause (names_of table.now)) clauses.now) (context_of to) first) }
{
    let mut at = first;
    for clause in clauses {
        let behind = statements(alloc, out, table, clause.body.as_slice(), to, at)?;
        at = behind + 1;
        put_jump(alloc, out, at)?;
    }
    Ok(())
}
