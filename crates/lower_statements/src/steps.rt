//! Lines that need no walk of a statement: jumps, values that may be left out, declarators.

ghost use Rattle.std.specs.Prelude.{◌≡◌, ◌+◌, ◌*◌, ◌<◌, ◌^◌, ◌++◌, ◌∷◌, [], map, sum, IfOk, OnOk};
ghost use Rattle.c_syntax.specs.Sizes.{or_zero, expression_nodes, local_nodes};
ghost use Rattle.mid_blocks.specs.Lines.{Step, End};
ghost use Rattle.lower_rules.specs.Statements as law;
ghost use Rattle.lower_rules.specs.Statements.{low_if, low_local, low_list};
ghost use Rattle.lower_expressions.specs.Written.{written};
ghost use Rattle.lower_expressions.specs.Names.{names_of, AreKnown};
ghost use Rattle.lower_statements.specs.Contexts.{context_of};

use crate::context::Context;
use c_syntax::{Expr, Local};
use hard_words::OutOfMemory;
use lower_expressions::{Builder, Symbol, Table, condition, symbol_named, value};
use mid_blocks::{MidEnd, MidStep};
use std::alloc::Global;

/// Adds a jump.
pub(crate) fn put_jump(alloc: Global, out: &mut Builder, to: u32) -> Result<(), OutOfMemory>
    ensures { OnOk result (written out.new ≡ written out.old ++ End (MidEnd.Jump to) ∷ []) }
{
    out.end(alloc, MidEnd::Jump { to })
}

/// Adds that a variable becomes a word.
pub(crate) fn put_constant(out: &mut Builder, to: u32, word: u32) -> Result<(), OutOfMemory>
    ensures { OnOk result (written out.new ≡ written out.old ++ Step (MidStep.Constant to word) ∷ []) }
{
    out.step(MidStep::Constant { to, word })
}

/// Adds that a variable becomes what another holds.
fn put_copy(out: &mut Builder, to: u32, from: u32) -> Result<(), OutOfMemory>
    ensures { OnOk result (written out.new ≡ written out.old ++ Step (MidStep.Copy to from) ∷ []) }
{
    out.step(MidStep::Copy { to, from })
}

/// A value that may be left out; gives the block that is open behind it.
pub(crate) fn put_value(
    alloc: Global,
    out: &mut Builder,
    table: &Table,
    e: &Option<Expr>,
    b: u32,
    t: u32,
) -> Result<u32, OutOfMemory>
    requires known { AreKnown table.now }
    requires blocks { b + law.value_blocks (low_if (names_of table.now) e.now) < 2 ^ 32 }
    requires room { t + 3 * or_zero expression_nodes e.now < 2 ^ 32 }
    ensures lines { OnOk result (written out.new ≡ written out.old ++ law.value_lines (low_if (names_of table.now) e.now) b t) }
    ensures block { IfOk result (λ n. n ≡ b + law.value_blocks (low_if (names_of table.now) e.now)) }
{
    match e {
        None => Ok(b),
        Some(e) => {
            let after = value(alloc, out, table, e, b, t)?;
            Ok(after.block)
        }
    }
}

/// A test that may be left out; where it holds, the block behind it follows.
pub(crate) fn put_test(
    alloc: Global,
    out: &mut Builder,
    table: &Table,
    e: &Option<Expr>,
    b: u32,
    t: u32,
    holds: u32,
    fails: u32,
) -> Result<(), OutOfMemory>
    requires known { AreKnown table.now }
    requires blocks { b + law.test_blocks (low_if (names_of table.now) e.now) < 2 ^ 32 }
    requires room { t + 3 * or_zero expression_nodes e.now < 2 ^ 32 }
    ensures { OnOk result (written out.new ≡ written out.old ++ law.test_lines_if (low_if (names_of table.now) e.now) b t holds fails) }
{
    match e {
        None => Ok(()),
        Some(e) => condition(alloc, out, table, e, b, t, holds, fails, true),
    }
}

/// The variable of a declared name; 0 where it has none.
fn declared_variable(table: &Table, name: u32) -> u32
    requires { AreKnown table.now }
    ensures { result ≡ law.local_variable ((names_of table.now).variable name) }
{
    match symbol_named(table, name) {
        Symbol::Local(variable) => variable,
        Symbol::Global(_) | Symbol::Array(_) | Symbol::Nothing => 0,
    }
}

/// A declarator: its variable becomes 0, and then the value of its initialiser.
fn put_local(
    alloc: Global,
    out: &mut Builder,
    table: &Table,
    d: &Local,
    to: Context,
    b: u32,
) -> Result<u32, OutOfMemory>
    requires known { AreKnown table.now }
    requires blocks { b + (low_local (names_of table.now) d.now).blocks < 2 ^ 32 }
    requires room { to.free + 3 * local_nodes d.now < 2 ^ 32 }
    ensures lines { OnOk result (written out.new ≡ written out.old ++ (low_local (names_of table.now) d.now).lines (context_of to) b) }
    ensures block { IfOk result (λ n. n ≡ b + (low_local (names_of table.now) d.now).blocks) }
{
    let variable = declared_variable(table, d.name);
    put_constant(out, variable, 0)?;
    match &d.first {
        None => Ok(b),
        Some(e) => {
            let after = value(alloc, out, table, e, b, to.free)?;
            put_copy(out, variable, to.free)?;
            Ok(after.block)
        }
    }
}

/// Declarators one after another.
pub(crate) fn put_locals(
    alloc: Global,
    out: &mut Builder,
    table: &Table,
    locals: &[Local],
    to: Context,
    b: u32,
) -> Result<u32, OutOfMemory>
    requires known { AreKnown table.now }
    requires blocks { b + (low_list (map (low_local (names_of table.now)) locals.now)).blocks < 2 ^ 32 }
    requires room { to.free + 3 * sum (map local_nodes locals.now) < 2 ^ 32 }
    ensures lines { OnOk result (written out.new ≡ written out.old ++ (low_list (map (low_local (names_of table.now)) locals.now)).lines (context_of to) b) }
    ensures block { IfOk result (λ n. n ≡ b + (low_list (map (low_local (names_of table.now)) locals.now)).blocks) }
{
    let mut block = b;
    for d in locals {
        block = put_local(alloc, out, table, d, to, block)?;
    }
    Ok(block)
}
