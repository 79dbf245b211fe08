//! The blocks of a body: its lines, behind them the block that returns, and in a recursive function the lines that count
//! its active calls.

ghost use Rattle.std.specs.Prelude.{◌≡◌, ◌+◌, ◌*◌, ◌<◌, ◌^◌, ◌++◌, ◌∷◌, [], map, sum, IfOk, OnOk};
ghost use Rattle.c_syntax.specs.Sizes.{statement_nodes};
ghost use Rattle.mid_blocks.specs.Lines.{Step, End};
ghost use Rattle.lower_rules.specs.Functions.{cut, begin_lines, end_lines, fallen_off, returned_from, body_lines};
ghost use Rattle.lower_rules.specs.Statements.{low_list, low_statement};
ghost use Rattle.lower_expressions.specs.Written.{written};
ghost use Rattle.lower_expressions.specs.Names.{names_of, AreKnown};
ghost use Rattle.lower_functions.specs.Frames.{counted, HasRoom, deep_lines, raise_lines, last_lines};

use c_syntax::Stmt;
use hard_words::{OutOfMemory, Sequence};
use lower_expressions::{Builder, Table};
use lower_statements::{Context, list_blocks, statements};
use mid_blocks::{MidBlock, MidEnd, MidOp, MidStep};
use std::alloc::Global;

/// Where a recursive function counts its active calls: the global that holds the number, and the first of two variables
/// for it.
#[derive(Clone, Copy)]
pub(crate) struct Counter {
    /// The global.
    pub(crate) global: u32,
    /// The first variable.
    pub(crate) spare: u32,
}

/// Adds that a variable becomes the number of active calls.
fn put_count(out: &mut Builder, c: Counter) -> Result<(), OutOfMemory>
    ensures { OnOk result (written out.new ≡ written out.old ++ Step (MidStep.Load c.spare c.global None) ∷ []) }
{
    out.step(MidStep::Load {
        to: c.spare,
        global: c.global,
        index: None,
    })
}

/// Adds that a variable becomes a word.
fn put_constant(out: &mut Builder, to: u32, word: u32) -> Result<(), OutOfMemory>
    ensures { OnOk result (written out.new ≡ written out.old ++ Step (MidStep.Constant to word) ∷ []) }
{
    out.step(MidStep::Constant { to, word })
}

/// Adds an operation.
fn put_operate(
    out: &mut Builder,
    op: MidOp,
    to: u32,
    left: u32,
    right: u32,
) -> Result<(), OutOfMemory>
    ensures { OnOk result (written out.new ≡ written out.old ++ Step (MidStep.Operate op to left right) ∷ []) }
{
    out.step(MidStep::Operate {
        op,
        to,
        left,
        right,
    })
}

/// Adds that the number is kept.
fn put_store(out: &mut Builder, c: Counter) -> Result<(), OutOfMemory>
    ensures { OnOk result (written out.new ≡ written out.old ++ Step (MidStep.Store c.global None c.spare) ∷ []) }
{
    out.step(MidStep::Store {
        global: c.global,
        index: None,
        from: c.spare,
    })
}

/// Adds trap 9 where 256 calls are active.
fn put_deep(out: &mut Builder, c: Counter) -> Result<(), OutOfMemory>
    requires { c.spare + 1 < 2 ^ 32 }
    ensures { OnOk result (written out.new ≡ written out.old ++ deep_lines c) }
{
    put_count(out, c)?;
    put_constant(out, c.spare + 1, 256)?;
    put_operate(out, MidOp::Ne, c.spare + 1, c.spare, c.spare + 1)?;
    out.step(MidStep::Deep { test: c.spare + 1 })
}

/// Adds that the number is raised.
fn put_raise(out: &mut Builder, c: Counter) -> Result<(), OutOfMemory>
    requires { c.spare + 1 < 2 ^ 32 }
    ensures { OnOk result (written out.new ≡ written out.old ++ raise_lines c) }
{
    put_constant(out, c.spare + 1, 1)?;
    put_operate(out, MidOp::Add, c.spare, c.spare, c.spare + 1)?;
    put_store(out, c)
}

/// Adds the lines with which a function begins.
fn put_begin(out: &mut Builder, counter: Option<Counter>) -> Result<(), OutOfMemory>
    requires { HasRoom counter }
    ensures { OnOk result (written out.new ≡ written out.old ++ begin_lines (counted counter)) }
{
    match counter {
        None => Ok(()),
        Some(c) => {
            put_deep(out, c)?;
            put_raise(out, c)
        }
    }
}

/// Adds that the number is lowered.
fn put_lower(out: &mut Builder, counter: Option<Counter>) -> Result<(), OutOfMemory>
    requires { HasRoom counter }
    ensures { OnOk result (written out.new ≡ written out.old ++ end_lines (counted counter)) }
{
    match counter {
        None => Ok(()),
        Some(c) => {
            put_count(out, c)?;
            put_constant(out, c.spare + 1, 1)?;
            put_operate(out, MidOp::Sub, c.spare, c.spare, c.spare + 1)?;
            put_store(out, c)
        }
    }
}

/// Adds what is returned where a body falls off its end.
fn put_fallen(out: &mut Builder, has_value: bool, free: u32) -> Result<(), OutOfMemory>
    ensures { OnOk result (written out.new ≡ written out.old ++ fallen_off has_value free) }
{
    if has_value {
        put_constant(out, free, 0)
    } else {
        Ok(())
    }
}

/// The variable whose word is returned.
fn returned_from(has_value: bool, free: u32) -> Option<u32>
    ensures { result ≡ returned_from has_value free }
{
    if has_value { Some(free) } else { None }
}

/// Adds the end of a body and the block that returns.
fn put_last(
    alloc: Global,
    out: &mut Builder,
    has_value: bool,
    free: u32,
    counter: Option<Counter>,
    last: u32,
) -> Result<(), OutOfMemory>
    requires { HasRoom counter }
    ensures { OnOk result (written out.new ≡ written out.old ++ last_lines has_value free (counted counter) last) }
{
    put_fallen(out, has_value, free)?;
    out.end(alloc, MidEnd::Jump { to: last })?;
    put_lower(out, counter)?;
    let from = returned_from(has_value, free);
    out.end(alloc, MidEnd::Return { from })
}

/// Adds the lines of a body.
fn put_body(
    alloc: Global,
    out: &mut Builder,
    table: &Table,
    body: &[Stmt],
    has_value: bool,
    free: u32,
    counter: Option<Counter>,
) -> Result<(), OutOfMemory>
    requires known { AreKnown table.now }
    requires blocks { (low_list (map (low_statement (names_of table.now)) body.now)).blocks + 1 < 2 ^ 32 }
    requires room { free + 3 * sum (map statement_nodes body.now) < 2 ^ 32 }
    requires counter { HasRoom counter }
    ensures { OnOk result (written out.new ≡ written out.old ++ body_lines (names_of table.now) has_value free (counted counter) body.now) }
{
    let last = list_blocks(table, body) + 1;
    put_begin(out, counter)?;
    let to = Context {
        breaks_to: 0,
        continues_to: 0,
        returns_to: last,
        free,
    };
    statements(alloc, out, table, body, to, 0)?;
    put_last(alloc, out, has_value, free, counter, last)
}

/// The blocks of a body.
pub(crate) fn body_blocks(
    alloc: Global,
    table: &Table,
    body: &[Stmt],
    has_value: bool,
    free: u32,
    counter: Option<Counter>,
) -> Result<Sequence<MidBlock>, OutOfMemory>
    requires known { AreKnown table.now }
    requires blocks { (low_list (map (low_statement (names_of table.now)) body.now)).blocks + 1 < 2 ^ 32 }
    requires room { free + 3 * sum (map statement_nodes body.now) < 2 ^ 32 }
    requires counter { HasRoom counter }
    ensures { IfOk result (λ blocks. blocks ≡ cut [] (body_lines (names_of table.now) has_value free (counted counter) body.now)) }
{
    let mut out = Builder::new(alloc);
    put_body(alloc, &mut out, table, body, has_value, free, counter)?;
    Ok(out.into_blocks())
}
