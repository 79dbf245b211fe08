//! Steps that need no walk of a tree: operators, reads and writes of places.

ghost use Rattle.std.specs.Prelude.{◌≡◌, ◌+◌, ◌<◌, ◌^◌, ◌++◌, ◌∷◌, [], IfOk, OnOk, length, not, if◌then◌else◌};
ghost use Rattle.c_meaning.specs.Operators as types;
ghost use Rattle.mid_blocks.specs.Lines.{Step, End};
ghost use Rattle.lower_rules.specs.Bindings as law;
ghost use Rattle.lower_rules.specs.Expressions as low;
ghost use Rattle.lower_expressions.specs.Written.{written};
ghost use Rattle.lower_expressions.specs.Names.{symbol_of, target_of, callee_of, names_of, AreKnown};

use crate::builder::Builder;
use crate::table::{Callee, Symbol, Table, Target, symbol_named};
use c_syntax::{BinaryOp, Expr, UnaryOp};
use hard_words::{OutOfMemory, Words};
use mid_blocks::{MidEnd, MidOp, MidStep};
use std::alloc::Global;

/// The operation of an operator on operands that are unsigned or not.
fn operation(op: BinaryOp, is_unsigned: bool) -> MidOp
    ensures { result ≡ low.operation op is_unsigned }
{
    match op {
        BinaryOp::Mul => MidOp::Mul,
        BinaryOp::Div => if is_unsigned { MidOp::DivU } else { MidOp::Div },
        BinaryOp::Rem => if is_unsigned { MidOp::RemU } else { MidOp::Rem },
        BinaryOp::Add => MidOp::Add,
        BinaryOp::Sub => MidOp::Sub,
        BinaryOp::Shl => MidOp::Shl,
        BinaryOp::Shr => if is_unsigned { MidOp::Shr } else { MidOp::Sar },
        BinaryOp::Lt | BinaryOp::Gt | BinaryOp::Le | BinaryOp::Ge => if is_unsigned {
            MidOp::LtU
        } else {
            MidOp::Lt
        },
        BinaryOp::Eq => MidOp::Eq,
        BinaryOp::Ne => MidOp::Ne,
        BinaryOp::And => MidOp::And,
        BinaryOp::Xor => MidOp::Xor,
        BinaryOp::Or => MidOp::Or,
    }
}

/// Adds that a variable becomes a word.
pub(crate) fn put_constant(out: &mut Builder, to: u32, word: u32) -> Result<(), OutOfMemory>
    ensures { OnOk result (written out.new ≡ written out.old ++ Step (MidStep.Constant to word) ∷ []) }
{
    out.step(MidStep::Constant { to, word })
}

/// Adds an operation.
pub(crate) fn put_operate(
    out: &mut Builder,
    op: MidOp,
    to: u32,
    left: u32,
    right: u32,
) -> Result<(), OutOfMemory>
    ensures { OnOk result (written out.new ≡ written out.old ++ Step (MidStep.Operate op to left right) ∷ []) }
{
    out.step(MidStep::Operate {
        op,
        to,
        left,
        right,
    })
}

/// Whether the comparison before it doesn't hold.
fn put_negated(out: &mut Builder, t: u32, r: u32) -> Result<(), OutOfMemory>
    ensures { OnOk result (written out.new ≡ written out.old ++ low.negated t r) }
{
    put_constant(out, r, 0)?;
    put_operate(out, MidOp::Eq, t, t, r)
}

/// The result of an operator on two variables, of which the second is free then.
pub(crate) fn put_binary(
    out: &mut Builder,
    op: BinaryOp,
    is_unsigned: bool,
    t: u32,
    r: u32,
) -> Result<(), OutOfMemory>
    ensures { OnOk result (written out.new ≡ written out.old ++ low.binary_lines op is_unsigned t r) }
{
    let operation = operation(op, is_unsigned);
    match op {
        BinaryOp::Gt => put_operate(out, operation, t, r, t),
        BinaryOp::Le => {
            put_operate(out, operation, t, r, t)?;
            put_negated(out, t, r)
        }
        BinaryOp::Ge => {
            put_operate(out, operation, t, t, r)?;
            put_negated(out, t, r)
        }
        _ => put_operate(out, operation, t, t, r),
    }
}

/// The result of a unary operator on a variable, where another is free.
pub(crate) fn put_unary(out: &mut Builder, op: UnaryOp, t: u32, r: u32) -> Result<(), OutOfMemory>
    ensures { OnOk result (written out.new ≡ written out.old ++ low.unary_lines op t r) }
{
    match op {
        UnaryOp::Plus => Ok(()),
        UnaryOp::Not => put_negated(out, t, r),
        UnaryOp::Minus => {
            put_constant(out, r, 0)?;
            put_operate(out, MidOp::Sub, t, r, t)
        }
        UnaryOp::Flip => {
            put_constant(out, r, 4_294_967_295)?;
            put_operate(out, MidOp::Sub, t, r, t)
        }
    }
}

/// What a target stands for.
pub(crate) fn target_symbol(table: &Table, target: Target) -> Symbol
    requires { AreKnown table.now }
    ensures { symbol_of result ≡ low.target_symbol (names_of table.now) (target_of target) }
{
    match target {
        Target::Neither => Symbol::Nothing,
        Target::Named(name) | Target::Indexed(name) => symbol_named(table, name),
    }
}

/// Reads what a symbol stands for, at the index in a variable.
pub(crate) fn put_read(
    out: &mut Builder,
    symbol: Symbol,
    index: u32,
    to: u32,
) -> Result<(), OutOfMemory>
    ensures { OnOk result (written out.new ≡ written out.old ++ Step (low.read_step (symbol_of symbol) index to) ∷ []) }
{
    out.step(match symbol {
        Symbol::Local(from) => MidStep::Copy { to, from },
        Symbol::Global(global) => MidStep::Load {
            to,
            global,
            index: None,
        },
        Symbol::Array(global) => MidStep::Load {
            to,
            global,
            index: Some(index),
        },
        Symbol::Nothing => MidStep::Constant { to, word: 0 },
    })
}

/// Writes it.
pub(crate) fn put_write(
    out: &mut Builder,
    symbol: Symbol,
    index: u32,
    from: u32,
) -> Result<(), OutOfMemory>
    ensures { OnOk result (written out.new ≡ written out.old ++ Step (low.write_step (symbol_of symbol) index from) ∷ []) }
{
    out.step(match symbol {
        Symbol::Local(to) => MidStep::Copy { to, from },
        Symbol::Global(global) => MidStep::Store {
            global,
            index: None,
            from,
        },
        Symbol::Array(global) => MidStep::Store {
            global,
            index: Some(index),
            from,
        },
        Symbol::Nothing => MidStep::Constant { to: from, word: 0 },
    })
}

/// Tests an index.
pub(crate) fn put_guard(out: &mut Builder, symbol: Symbol, index: u32) -> Result<(), OutOfMemory>
    ensures { OnOk result (written out.new ≡ written out.old ++ Step (low.guard_step (symbol_of symbol) index) ∷ []) }
{
    out.step(match symbol {
        Symbol::Array(global) => MidStep::Guard { global, index },
        Symbol::Local(_) | Symbol::Global(_) | Symbol::Nothing => MidStep::Constant {
            to: index,
            word: 0,
        },
    })
}

/// The first variable that is free beside a target's index.
pub(crate) fn beside(target: Target, t: u32) -> u32
    requires { t + 1 < 2 ^ 32 }
    ensures { result ≡ low.beside (target_of target) t }
{
    match target {
        Target::Indexed(_) => t + 1,
        Target::Neither | Target::Named(_) => t,
    }
}

/// Brings a word from beside a target's index to the index.
pub(crate) fn put_down(out: &mut Builder, target: Target, t: u32, u: u32) -> Result<(), OutOfMemory>
    ensures { OnOk result (written out.new ≡ written out.old ++ low.moved_down (target_of target) t u) }
{
    match target {
        Target::Indexed(_) => out.step(MidStep::Copy { to: t, from: u }),
        Target::Neither | Target::Named(_) => Ok(()),
    }
}

/// Writes what a variable holds to a place, and brings it down to the place's index.
pub(crate) fn put_assigned(
    out: &mut Builder,
    symbol: Symbol,
    target: Target,
    t: u32,
    u: u32,
) -> Result<(), OutOfMemory>
    ensures { OnOk result (written out.new ≡ written out.old ++ (Step (low.write_step (symbol_of symbol) t u) ∷ low.moved_down (target_of target) t u)) }
{
    put_write(out, symbol, t, u)?;
    put_down(out, target, t, u)
}

/// The new value, or the old one, brought down.
fn put_bump_result(
    out: &mut Builder,
    before: bool,
    target: Target,
    t: u32,
    u: u32,
) -> Result<(), OutOfMemory>
    requires { u + 1 < 2 ^ 32 }
    ensures { OnOk result (written out.new ≡ written out.old ++ low.bump_result before (target_of target) t u) }
{
    if before {
        out.step(MidStep::Copy { to: t, from: u + 1 })
    } else {
        put_down(out, target, t, u)
    }
}

/// What a place holds becomes one more or one less.
pub(crate) fn put_bump(
    out: &mut Builder,
    symbol: Symbol,
    target: Target,
    up: bool,
    before: bool,
    t: u32,
    u: u32,
) -> Result<(), OutOfMemory>
    requires { u + 1 < 2 ^ 32 }
    ensures { OnOk result (written out.new ≡ written out.old ++ (Step (low.read_step (symbol_of symbol) t u)
        ∷ Step (MidStep.Constant (u + 1) 1)
        ∷ Step (MidStep.Operate (low.bump_operation up) (u + 1) u (u + 1))
        ∷ Step (low.write_step (symbol_of symbol) t (u + 1))
        ∷ low.bump_result before (target_of target) t u)) }
{
    put_read(out, symbol, t, u)?;
    put_constant(out, u + 1, 1)?;
    put_operate(
        out,
        if up { MidOp::Add } else { MidOp::Sub },
        u + 1,
        u,
        u + 1,
    )?;
    put_write(out, symbol, t, u + 1)?;
    put_bump_result(out, before, target, t, u)
}

/// Adds a jump.
pub(crate) fn put_jump(alloc: Global, out: &mut Builder, to: u32) -> Result<(), OutOfMemory>
    ensures { OnOk result (written out.new ≡ written out.old ++ End (MidEnd.Jump to) ∷ []) }
{
    out.end(alloc, MidEnd::Jump { to })
}

/// Goes on where a variable is not 0, or where it is; one of the two follows.
pub(crate) fn put_test(
    alloc: Global,
    out: &mut Builder,
    test: u32,
    holds: u32,
    fails: u32,
    holds_next: bool,
) -> Result<(), OutOfMemory>
    ensures { OnOk result (written out.new ≡ written out.old ++ End (MidEnd.Branch test (not holds_next) (if holds_next then fails else holds)) ∷ []) }
{
    let to = if holds_next { fails } else { holds };
    out.end(
        alloc,
        MidEnd::Branch {
            test,
            when: !holds_next,
            to,
        },
    )
}

/// 1 in the next block, 0 in the one behind it.
pub(crate) fn put_truth(
    alloc: Global,
    out: &mut Builder,
    t: u32,
    join: u32,
) -> Result<(), OutOfMemory>
    ensures { OnOk result (written out.new ≡ written out.old ++ (Step (MidStep.Constant t 1) ∷ End (MidEnd.Jump join)
        ∷ Step (MidStep.Constant t 0) ∷ End (MidEnd.Jump join) ∷ [])) }
{
    put_constant(out, t, 1)?;
    put_jump(alloc, out, join)?;
    put_constant(out, t, 0)?;
    put_jump(alloc, out, join)
}

/// So many variables one after the other.
fn variables_on(alloc: Global, args: &[Expr], t: u32) -> Result<Words, OutOfMemory>
    requires { t + length args.now < 2 ^ 32 }
    ensures { IfOk result (λ list. list ≡ low.from_on (length args.now) t) }
{
    let mut list = Words::new(alloc);
    let mut to = t;
    for _e in args {
        list.push(to)?;
        to += 1;
    }
    Ok(list)
}

/// The blocks that a call ends.
pub(crate) fn call_blocks(callee: Callee) -> u32
    ensures { result ≡ low.callee_blocks (callee_of callee) }
{
    match callee {
        Callee::Defined { .. } => 1,
        Callee::InWord | Callee::OutWord | Callee::NoFunction => 0,
    }
}

/// Whether a call has an unsigned value.
pub(crate) fn callee_unsigned(callee: Callee) -> bool
    ensures { result ≡ law.callee_unsigned (callee_of callee) }
{
    match callee {
        Callee::Defined { is_unsigned, .. } => is_unsigned,
        Callee::InWord | Callee::OutWord | Callee::NoFunction => false,
    }
}

/// Calls a function whose arguments stand in variables one after the other; the first takes what it returns.
pub(crate) fn put_call(
    alloc: Global,
    out: &mut Builder,
    callee: Callee,
    args: &[Expr],
    t: u32,
) -> Result<(), OutOfMemory>
    requires { t + length args.now < 2 ^ 32 }
    ensures { OnOk result (written out.new ≡ written out.old ++ low.callee_lines (callee_of callee) (length args.now) t) }
{
    match callee {
        Callee::InWord => out.step(MidStep::Input { to: t }),
        Callee::OutWord => out.step(MidStep::Output { from: t }),
        Callee::Defined {
            number,
            is_void,
            ..
        } => {
            let args = variables_on(alloc, args, t)?;
            let result = if is_void { None } else { Some(t) };
            out.end(
                alloc,
                MidEnd::Call {
                    function: number,
                    args,
                    result,
                },
            )
        }
        Callee::NoFunction => Ok(()),
    }
}

/// Whether the operands of an operator are taken as unsigned.
pub(crate) fn operand_type(op: BinaryOp, left: bool, right: bool) -> bool
    ensures { result ≡ types.operand_type op left right }
{
    match op {
        BinaryOp::Shl | BinaryOp::Shr => left,
        _ => left || right,
    }
}
