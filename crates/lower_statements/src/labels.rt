//! The lines that find the clause of a `switch` whose label has the word that is tested.

ghost use Rattle.std.specs.Prelude.{◌≡◌, ◌+◌, ◌<◌, ◌^◌, ◌++◌, ◌∷◌, [], true, None, map, OnOk};
ghost use Rattle.std.specs.List.{list_any};
ghost use Rattle.c_meaning.specs.Meaning.{label_word, is_label};
ghost use Rattle.mid_blocks.specs.Lines.{Step, End};
ghost use Rattle.lower_rules.specs.Statements as law;
ghost use Rattle.lower_rules.specs.Statements.{low_clause};
ghost use Rattle.lower_expressions.specs.Written.{written};
ghost use Rattle.lower_expressions.specs.Names.{names_of};

use crate::counts::list_blocks;
use crate::steps::put_constant;
use c_constants::constant_word;
use c_syntax::{Clause, Label};
use hard_words::OutOfMemory;
use lower_expressions::{Builder, Table};
use mid_blocks::{MidEnd, MidOp, MidStep};
use std::alloc::Global;

/// How many blocks a label ends: 1 for a `case`.
fn label_blocks(label: &Label) -> u32
    ensures { result ≡ law.case_count (label_word label.now ∷ []) }
{
    match label {
        Label::Case { .. } => 1,
        Label::Otherwise { .. } => 0,
    }
}

/// How many of the labels are a `case`.
fn case_count(labels: &[Label]) -> u32
    requires { law.case_count (map label_word labels.now) < 2 ^ 32 }
    ensures { result ≡ law.case_count (map label_word labels.now) }
{
    let mut count: u32 = 0;
    for label in labels {
        count += label_blocks(label);
    }
    count
}

/// How many labels of the clauses are a `case`.
pub(crate) fn cases_count(table: &Table, clauses: &[Clause]) -> u32
    requires { law.cases_count (map (low_clause (names_of table.now)) clauses.now) < 2 ^ 32 }
    ensures { result ≡ law.cases_count (map (low_clause (names_of table.now)) clauses.now) }
{
    let mut count: u32 = 0;
    for clause in clauses {
        count += case_count(clause.labels.as_slice());
    }
    count
}

/// Compares the word in a variable with another, and goes to a block where they are the same.
fn put_case(alloc: Global, out: &mut Builder, word: u32, at: u32, t: u32) -> Result<(), OutOfMemory>
    requires { t + 1 < 2 ^ 32 }
    ensures { OnOk result (written out.new ≡ written out.old ++ (Step (MidStep.Constant (t + 1) word)
        ∷ Step (MidStep.Operate MidOp.Eq (t + 1) t (t + 1)) ∷ End (MidEnd.Branch (t + 1) true at) ∷ [])) }
{
    put_constant(out, t + 1, word)?;
    out.step(MidStep::Operate {
        op: MidOp::Eq,
        to: t + 1,
        left: t,
        right: t + 1,
    })?;
    out.end(
        alloc,
        MidEnd::Branch {
            test: t + 1,
            when: true,
            to: at,
        },
    )
}

/// The test of a label.
fn put_label(
    alloc: Global,
    out: &mut Builder,
    label: &Label,
    at: u32,
    t: u32,
) -> Result<(), OutOfMemory>
    requires { t + 1 < 2 ^ 32 }
    ensures { OnOk result (written out.new ≡ written out.old ++ law.case_lines (label_word label.now ∷ []) at t) }
{
    match label {
        Label::Case { value, .. } => put_case(alloc, out, constant_word(value), at, t),
        Label::Otherwise { .. } => Ok(()),
    }
}

/// The tests of the labels of a clause.
fn put_labels(
    alloc: Global,
    out: &mut Builder,
    labels: &[Label],
    at: u32,
    t: u32,
) -> Result<(), OutOfMemory>
    requires { t + 1 < 2 ^ 32 }
    ensures { OnOk result (written out.new ≡ written out.old ++ law.case_lines (map label_word labels.now) at t) }
{
    for label in labels {
        put_label(alloc, out, label, at, t)?;
    }
    Ok(())
}

/// The tests of the labels of all clauses, the first of which stands in the block `first`.
pub(crate) fn put_cases(
    alloc: Global,
    out: &mut Builder,
    table: &Table,
    clauses: &[Clause],
    first: u32,
    t: u32,
) -> Result<(), OutOfMemory>
    requires blocks { first + law.clauses_blocks (map (low_clause (names_of table.now)) clauses.now) < 2 ^ 32 }
    requires room { t + 1 < 2 ^ 32 }
    ensures { OnOk result (written out.new ≡ written out.old ++ law.cases_lines (map (low_clause (names_of table.now)) clauses.now) first t) }
{
    let mut at = first;
    for clause in clauses {
        put_labels(alloc, out, clause.labels.as_slice(), at, t)?;
        at += list_blocks(table, clause.body.as_slice()) + 1;
    }
    Ok(())
}

/// Whether a label is `default`.
fn is_default(label: &Label) -> bool
    ensures { result ≡ is_label None (label_word label.now) }
{
    match label {
        Label::Case { .. } => false,
        Label::Otherwise { .. } => true,
    }
}

/// Whether one of the labels is `default`.
fn has_default(labels: &[Label]) -> bool
    ensures { result ≡ list_any (is_label None) (map label_word labels.now) }
{
    for label in labels {
        if is_default(label) {
            return true;
        }
    }
    false
}

/// The block of the first clause with `default`, else the one behind all clauses.
pub(crate) fn default_block(table: &Table, clauses: &[Clause], first: u32) -> u32
    requires { first + law.clauses_blocks (map (low_clause (names_of table.now)) clauses.now) < 2 ^ 32 }
    ensures { result ≡ law.block_of None (map (low_clause (names_of table.now)) clauses.now) first }
{
    let mut at = first;
    for clause in clauses {
        if has_default(clause.labels.as_slice()) {
            return at;
        }
        at += list_blocks(table, clause.body.as_slice()) + 1;
    }
    at
}
