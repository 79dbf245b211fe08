//! The lines of expressions.

ghost use Rattle.std.specs.Prelude.{◌≡◌, ◌+◌, ◌*◌, ◌<◌, ◌≤◌, ◌^◌, ◌++◌, ◌∷◌, [], true, false, map, sum, length, IfOk, OnOk};
ghost use Rattle.c_syntax.specs.Sizes.{expression_nodes};
ghost use Rattle.c_meaning.specs.Operators as types;
ghost use Rattle.mid_blocks.specs.Lines.{Step};
ghost use Rattle.lower_rules.specs.Bindings as law;
ghost use Rattle.lower_rules.specs.Expressions.{low, low_binary, low_call, logic_lines, truth_lines, choose_lines, args_lines, args_blocks, assign_with_lines, guard_step};
ghost use Rattle.lower_rules.specs.Expressions as law_of;
ghost use Rattle.lower_expressions.specs.Written.{written};
ghost use Rattle.lower_expressions.specs.Names.{target_of, names_of, AreKnown};

use crate::builder::Builder;
use crate::counts::{test_blocks, type_of, value_blocks};
use crate::steps::{
    beside, call_blocks, callee_unsigned, operand_type, put_assigned, put_binary, put_bump,
    put_call, put_constant, put_guard, put_jump, put_read, put_test, put_truth, put_unary,
    target_symbol,
};
use crate::table::{Table, Target, called_as, name_unsigned, symbol_named};
use c_meaning::{binary_type, unary_type};
use c_syntax::{BinaryOp, Expr, UnaryOp};
use hard_words::OutOfMemory;
use std::alloc::Global;

/// What stands behind the lines of a value.
#[derive(Clone, Copy)]
pub struct After {
    /// The block that is open.
    pub block: u32,
    /// Whether the value is unsigned.
    pub is_unsigned: bool,
}

/// What stands behind the lines of a place.
#[derive(Clone, Copy)]
pub(crate) struct Placed {
    /// The block that is open.
    pub block: u32,
    /// What is designated.
    pub target: Target,
    /// Whether what it holds is unsigned.
    pub is_unsigned: bool,
}

/// The value of an expression comes to the variable t, from a block on.
#[cycle(expressions)]
pub fn value(
    alloc: Global,
    out: &mut Builder,
    table: &Table,
    e: &Expr,
    b: u32,
    t: u32,
) -> Result<After, OutOfMemory>
    requires known { AreKnown table.now }
    requires blocks { b + (low (names_of table.now) e.now).blocks < 2 ^ 32 }
    requires room { t + 3 * expression_nodes e.now < 2 ^ 32 }
    ensures lines { OnOk result (written out.new ≡ written out.old ++ (low (names_of table.now) e.now).value b t) }
    ensures block { IfOk result (λ a. a.block ≡ b + (low (names_of table.now) e.now).blocks) }
    ensures unsigned { IfOk result (λ a. a.is_unsigned ≡ (low (names_of table.now) e.now).is_unsigned) }
{
    match e {
        Expr::Literal {
            value,
            is_unsigned,
            ..
        } => {
            put_constant(out, t, *value)?;
            Ok(After {
                block: b,
                is_unsigned: *is_unsigned,
            })
        }
        Expr::Name { name, .. } => {
            put_read(out, symbol_named(table, *name), t, t)?;
            Ok(After {
                block: b,
                is_unsigned: name_unsigned(table, *name),
            })
        }
        Expr::Index { name, index, .. } => {
            let block = indexed(alloc, out, table, *name, index.get(), b, t)?;
            put_read(out, symbol_named(table, *name), t, t)?;
            Ok(After {
                block,
                is_unsigned: name_unsigned(table, *name),
            })
        }
        Expr::Call { name, args, .. } => call(alloc, out, table, *name, args.as_slice(), b, t),
        Expr::Unary { op, of, .. } => {
            let after = value(alloc, out, table, of.get(), b, t)?;
            put_unary(out, *op, t, t + 1)?;
            Ok(After {
                block: after.block,
                is_unsigned: unary_type(*op, after.is_unsigned),
            })
        }
        Expr::Binary {
            op,
            left,
            right,
            ..
        } => binary(alloc, out, table, *op, left.get(), right.get(), b, t),
        Expr::Logic {
            is_and,
            left,
            right,
            ..
        } => truth(alloc, out, table, *is_and, left.get(), right.get(), b, t),
        Expr::Choose { test, yes, no, .. } => choose(
            alloc,
            out,
            table,
            test.get(),
            yes.get(),
            no.get(),
            b,
            t,
        ),
        Expr::Assign {
            op,
            place,
            value,
            ..
        } => assign(alloc, out, table, *op, place.get(), value.get(), b, t),
        Expr::Bump {
            up,
            before,
            place,
            ..
        } => {
            let placed = designated(alloc, out, table, place.get(), b, t)?;
            let u = beside(placed.target, t);
            put_bump(
                out,
                target_symbol(table, placed.target),
                placed.target,
                *up,
                *before,
                t,
                u,
            )?;
            Ok(After {
                block: placed.block,
                is_unsigned: placed.is_unsigned,
            })
        }
        Expr::Comma { left, right, .. } => {
            let after = value(alloc, out, table, left.get(), b, t)?;
            value(alloc, out, table, right.get(), after.block, t)
        }
        Expr::Paren { of, .. } => value(alloc, out, table, of.get(), b, t),
    }
}

/// A condition: the block where it goes on where the value isn't 0, the one where it is 0, and whether the first follows.
#[cycle(expressions)]
pub fn condition(
    alloc: Global,
    out: &mut Builder,
    table: &Table,
    e: &Expr,
    b: u32,
    t: u32,
    holds: u32,
    fails: u32,
    holds_next: bool,
) -> Result<(), OutOfMemory>
    requires known { AreKnown table.now }
    requires blocks { b + (low (names_of table.now) e.now).condition_blocks < 2 ^ 32 }
    requires room { t + 3 * expression_nodes e.now < 2 ^ 32 }
    ensures { OnOk result (written out.new ≡ written out.old ++ (low (names_of table.now) e.now).condition b t holds fails holds_next) }
{
    match e {
        Expr::Paren { of, .. } => condition(
            alloc,
            out,
            table,
            of.get(),
            b,
            t,
            holds,
            fails,
            holds_next,
        ),
        Expr::Unary {
            op: UnaryOp::Not,
            of,
            ..
        } => { condition(alloc, out, table, of.get(), b, t, fails, holds, !holds_next) }
        Expr::Logic {
            is_and,
            left,
            right,
            ..
        } => {
            logic(
                alloc,
                out,
                table,
                *is_and,
                left.get(),
                right.get(),
                b,
                t,
                holds,
                fails,
                holds_next,
            )
        }
        Expr::Unary { .. }
        | Expr::Literal { .. }
        | Expr::Name { .. }
        | Expr::Index { .. }
        | Expr::Call { .. }
        | Expr::Binary { .. }
        | Expr::Choose { .. }
        | Expr::Assign { .. }
        | Expr::Bump { .. }
        | Expr::Comma { .. } => {
            value(alloc, out, table, e, b, t)?;
            put_test(alloc, out, t, holds, fails, holds_next)
        }
    }
}

/// What an expression designates; the index of an element is tested and comes to t.
#[cycle(expressions)]
pub(crate) fn designated(
    alloc: Global,
    out: &mut Builder,
    table: &Table,
    e: &Expr,
    b: u32,
    t: u32,
) -> Result<Placed, OutOfMemory>
    requires known { AreKnown table.now }
    requires blocks { b + (low (names_of table.now) e.now).place_blocks < 2 ^ 32 }
    requires room { t + 3 * expression_nodes e.now < 2 ^ 32 }
    ensures lines { OnOk result (written out.new ≡ written out.old ++ (low (names_of table.now) e.now).place b t) }
    ensures block { IfOk result (λ a. a.block ≡ b + (low (names_of table.now) e.now).place_blocks) }
    ensures target { IfOk result (λ a. target_of a.target ≡ (low (names_of table.now) e.now).target) }
    ensures unsigned { IfOk result (λ a. a.is_unsigned ≡ (low (names_of table.now) e.now).is_unsigned) }
{
    match e {
        Expr::Name { name, .. } => Ok(Placed {
            block: b,
            target: Target::Named(*name),
            is_unsigned: name_unsigned(table, *name),
        }),
        Expr::Index { name, index, .. } => {
            let block = indexed(alloc, out, table, *name, index.get(), b, t)?;
            Ok(Placed {
                block,
                target: Target::Indexed(*name),
                is_unsigned: name_unsigned(table, *name),
            })
        }
        Expr::Paren { of, .. } => designated(alloc, out, table, of.get(), b, t),
        Expr::Literal { .. }
        | Expr::Call { .. }
        | Expr::Unary { .. }
        | Expr::Binary { .. }
        | Expr::Logic { .. }
        | Expr::Choose { .. }
        | Expr::Assign { .. }
        | Expr::Bump { .. }
        | Expr::Comma { .. } => Ok(Placed {
            block: b,
            target: Target::Neither,
            is_unsigned: type_of(table, e),
        }),
    }
}

/// The index of an element, tested.
#[cycle(expressions)]
fn indexed(
    alloc: Global,
    out: &mut Builder,
    table: &Table,
    name: u32,
    index: &Expr,
    b: u32,
    t: u32,
) -> Result<u32, OutOfMemory>
    requires known { AreKnown table.now }
    requires blocks { b + (low (names_of table.now) index.now).blocks < 2 ^ 32 }
    requires room { t + 3 * expression_nodes index.now < 2 ^ 32 }
    ensures lines { OnOk result (written out.new ≡ written out.old ++ ((low (names_of table.now) index.now).value b t ++ Step (guard_step (law.symbol (names_of table.now) name) t) ∷ [])) }
    ensures block { IfOk result (λ a. a ≡ b + (low (names_of table.now) index.now).blocks) }
{
    let after = value(alloc, out, table, index, b, t)?;
    put_guard(out, symbol_named(table, name), t)?;
    Ok(after.block)
}

/// The result of an operator on the values of two operands.
#[cycle(expressions)]
fn binary(
    alloc: Global,
    out: &mut Builder,
    table: &Table,
    op: BinaryOp,
    left: &Expr,
    right: &Expr,
    b: u32,
    t: u32,
) -> Result<After, OutOfMemory>
    requires known { AreKnown table.now }
    requires blocks { b + (low (names_of table.now) left.now).blocks + (low (names_of table.now) right.now).blocks < 2 ^ 32 }
    requires room { t + 3 * (1 + expression_nodes left.now + expression_nodes right.now) < 2 ^ 32 }
    ensures lines { OnOk result (written out.new ≡ written out.old ++ (low_binary op (low (names_of table.now) left.now) (low (names_of table.now) right.now)).value b t) }
    ensures block { IfOk result (λ a. a.block ≡ b + ((low (names_of table.now) left.now).blocks + (low (names_of table.now) right.now).blocks)) }
    ensures unsigned { IfOk result (λ a. a.is_unsigned ≡ types.binary_type op (low (names_of table.now) left.now).is_unsigned (low (names_of table.now) right.now).is_unsigned) }
{
    let first = value(alloc, out, table, left, b, t)?;
    let second = value(alloc, out, table, right, first.block, t + 1)?;
    put_binary(
        out,
        op,
        operand_type(op, first.is_unsigned, second.is_unsigned),
        t,
        t + 1,
    )?;
    Ok(After {
        block: second.block,
        is_unsigned: binary_type(op, first.is_unsigned, second.is_unsigned),
    })
}

/// 1 or 0, by `&&` or `||`.
#[cycle(expressions)]
fn truth(
    alloc: Global,
    out: &mut Builder,
    table: &Table,
    is_and: bool,
    left: &Expr,
    right: &Expr,
    b: u32,
    t: u32,
) -> Result<After, OutOfMemory>
    requires known { AreKnown table.now }
    requires blocks { b + (low (names_of table.now) left.now).condition_blocks + (low (names_of table.now) right.now).condition_blocks + 2 < 2 ^ 32 }
    requires room { t + 3 * (1 + expression_nodes left.now + expression_nodes right.now) < 2 ^ 32 }
    ensures lines { OnOk result (written out.new ≡ written out.old ++ truth_lines ((low (names_of table.now) left.now).condition_blocks + (low (names_of table.now) right.now).condition_blocks)
        (logic_lines is_and (low (names_of table.now) left.now) (low (names_of table.now) right.now)) b t) }
    ensures block { IfOk result (λ a. a.block ≡ b + ((low (names_of table.now) left.now).condition_blocks + (low (names_of table.now) right.now).condition_blocks + 2)) }
    ensures unsigned { IfOk result (λ a. a.is_unsigned ≡ false) }
{
    let blocks = test_blocks(table, left) + test_blocks(table, right);
    let holds = b + blocks;
    logic(
        alloc,
        out,
        table,
        is_and,
        left,
        right,
        b,
        t,
        holds,
        holds + 1,
        true,
    )?;
    put_truth(alloc, out, t, holds + 2)?;
    Ok(After {
        block: holds + 2,
        is_unsigned: false,
    })
}

/// Both operands of `&&` or of `||` as conditions.
#[cycle(expressions)]
fn logic(
    alloc: Global,
    out: &mut Builder,
    table: &Table,
    is_and: bool,
    left: &Expr,
    right: &Expr,
    b: u32,
    t: u32,
    holds: u32,
    fails: u32,
    holds_next: bool,
) -> Result<(), OutOfMemory>
    requires known { AreKnown table.now }
    requires blocks { b + (low (names_of table.now) left.now).condition_blocks + (low (names_of table.now) right.now).condition_blocks < 2 ^ 32 }
    requires room { t + 3 * (1 + expression_nodes left.now + expression_nodes right.now) < 2 ^ 32 }
    ensures { OnOk result (written out.new ≡ written out.old ++ logic_lines is_and (low (names_of table.now) left.now) (low (names_of table.now) right.now) b t holds fails holds_next) }
{
    let middle = b + test_blocks(table, left);
    if is_and {
        condition(alloc, out, table, left, b, t, middle, fails, true)?;
        condition(
            alloc, out, table, right, middle, t, holds, fails, holds_next,
        )
    } else {
        condition(alloc, out, table, left, b, t, holds, middle, false)?;
        condition(
            alloc, out, table, right, middle, t, holds, fails, holds_next,
        )
    }
}

/// One of two values.
#[cycle(expressions)]
fn choose(
    alloc: Global,
    out: &mut Builder,
    table: &Table,
    test: &Expr,
    yes: &Expr,
    no: &Expr,
    b: u32,
    t: u32,
) -> Result<After, OutOfMemory>
    requires known { AreKnown table.now }
    requires blocks { b + (low (names_of table.now) test.now).condition_blocks + (low (names_of table.now) yes.now).blocks + 1 + (low (names_of table.now) no.now).blocks + 1 < 2 ^ 32 }
    requires room { t + 3 * (1 + expression_nodes test.now + expression_nodes yes.now + expression_nodes no.now) < 2 ^ 32 }
    ensures lines { OnOk result (written out.new ≡ written out.old ++ choose_lines (low (names_of table.now) test.now) (low (names_of table.now) yes.now) (low (names_of table.now) no.now) b t) }
    ensures block { IfOk result (λ a. a.block ≡ b + ((low (names_of table.now) test.now).condition_blocks + (low (names_of table.now) yes.now).blocks + 1 + (low (names_of table.now) no.now).blocks + 1)) }
    ensures unsigned { IfOk result (λ a. a.is_unsigned ≡ types.common (low (names_of table.now) yes.now).is_unsigned (low (names_of table.now) no.now).is_unsigned) }
{
    let holds = b + test_blocks(table, test);
    let fails = holds + value_blocks(table, yes) + 1;
    let join = fails + value_blocks(table, no) + 1;
    condition(alloc, out, table, test, b, t, holds, fails, true)?;
    let first = value(alloc, out, table, yes, holds, t)?;
    put_jump(alloc, out, join)?;
    let second = value(alloc, out, table, no, fails, t)?;
    put_jump(alloc, out, join)?;
    Ok(After {
        block: join,
        is_unsigned: first.is_unsigned || second.is_unsigned,
    })
}

/// The values of arguments in variables one after the other.
#[cycle(expressions)]
fn arguments(
    alloc: Global,
    out: &mut Builder,
    table: &Table,
    args: &[Expr],
    b: u32,
    t: u32,
) -> Result<u32, OutOfMemory>
    requires known { AreKnown table.now }
    requires blocks { b + args_blocks (map (low (names_of table.now)) args.now) < 2 ^ 32 }
    requires room { t + 3 * sum (map expression_nodes args.now) < 2 ^ 32 }
    ensures lines { OnOk result (written out.new ≡ written out.old ++ args_lines (map (low (names_of table.now)) args.now) b t) }
    ensures block { IfOk result (λ a. a ≡ b + args_blocks (map (low (names_of table.now)) args.now)) }
{
    let mut block = b;
    let mut to = t;
    for e in args {
        let after = value(alloc, out, table, e, block, to)?;
        block = after.block;
        to += 1;
    }
    Ok(block)
}

/// A call.
#[cycle(expressions)]
fn call(
    alloc: Global,
    out: &mut Builder,
    table: &Table,
    name: u32,
    args: &[Expr],
    b: u32,
    t: u32,
) -> Result<After, OutOfMemory>
    requires known { AreKnown table.now }
    requires blocks { b + (low_call ((names_of table.now).callee name) (map (low (names_of table.now)) args.now)).blocks < 2 ^ 32 }
    requires room { t + 3 * (1 + sum (map expression_nodes args.now)) < 2 ^ 32 }
    ensures lines { OnOk result (written out.new ≡ written out.old ++ (low_call ((names_of table.now).callee name) (map (low (names_of table.now)) args.now)).value b t) }
    ensures block { IfOk result (λ a. a.block ≡ b + (low_call ((names_of table.now).callee name) (map (low (names_of table.now)) args.now)).blocks) }
    ensures unsigned { IfOk result (λ a. a.is_unsigned ≡ law.callee_unsigned ((names_of table.now).callee name)) }
{
    let block = arguments(alloc, out, table, args, b, t)?;
    let callee = called_as(table, name);
    put_call(alloc, out, callee, args, t)?;
    Ok(After {
        block: block + call_blocks(callee),
        is_unsigned: callee_unsigned(callee),
    })
}

/// An assignment.
#[cycle(expressions)]
fn assign(
    alloc: Global,
    out: &mut Builder,
    table: &Table,
    op: Option<BinaryOp>,
    place: &Expr,
    right: &Expr,
    b: u32,
    t: u32,
) -> Result<After, OutOfMemory>
    requires known { AreKnown table.now }
    requires blocks { b + (low (names_of table.now) place.now).place_blocks + (low (names_of table.now) right.now).blocks < 2 ^ 32 }
    requires room { t + 3 * (1 + expression_nodes place.now + expression_nodes right.now) < 2 ^ 32 }
    ensures lines { OnOk result (written out.new ≡ written out.old ++ assign_with_lines (names_of table.now) op (low (names_of table.now) place.now) (low (names_of table.now) right.now) b t
        (law_of.beside (low (names_of table.now) place.now).target t)) }
    ensures block { IfOk result (λ a. a.block ≡ b + ((low (names_of table.now) place.now).place_blocks + (low (names_of table.now) right.now).blocks)) }
    ensures unsigned { IfOk result (λ a. a.is_unsigned ≡ (low (names_of table.now) place.now).is_unsigned) }
{
    let placed = designated(alloc, out, table, place, b, t)?;
    let u = beside(placed.target, t);
    let symbol = target_symbol(table, placed.target);
    match op {
        None => {
            let after = value(alloc, out, table, right, placed.block, u)?;
            put_assigned(out, symbol, placed.target, t, u)?;
            Ok(After {
                block: after.block,
                is_unsigned: placed.is_unsigned,
            })
        }
        Some(op) => {
            put_read(out, symbol, t, u)?;
            let after = value(alloc, out, table, right, placed.block, u + 1)?;
            put_binary(
                out,
                op,
                operand_type(op, placed.is_unsigned, after.is_unsigned),
                u,
                u + 1,
            )?;
            put_assigned(out, symbol, placed.target, t, u)?;
            Ok(After {
                block: after.block,
                is_unsigned: placed.is_unsigned,
            })
        }
    }
}
