//! The walk of a statement.

ghost use Rattle.std.specs.Prelude.{◌≡◌, ◌+◌, ◌≤◌, ◌^◌, map, sum, length, Option, option_map, OnOk};
ghost use Rattle.c_syntax.specs.Sizes.{local_nodes, statement_nodes, clause_nodes, or_zero};
ghost use Rattle.check_rules.specs.Scopes.{in_force};
ghost use Rattle.check_rules.specs.Walk.{with_value, any_expression, if_there, walk_local, walk_locals, is_good_return, walk_each, walk_else, walk_clauses, statement_walk, clause_walk};
ghost use Rattle.check_scopes.specs.Gave.{Gave, GaveAt, GaveBoth};

use crate::labels::{Labels, each_label};
use c_syntax::{Clause, Expr, Local, Stmt, Ty};
use check_expressions::{is_void, require, value, walk};
use check_rules::{Around, CheckError, CheckKind, Decl, Kind};
use check_scopes::Scopes;
use sqlite_items::{Boxed, Items};
use std::alloc::Global;

fn value_if(alloc: Global, scopes: &Scopes, e: Option<Expr>) -> Result<Option<Expr>, CheckError>
    ensures { Gave result (if_there with_value e scopes.now) }
{
    match e {
        None => Ok(None),
        Some(e) => {
            let e = value(alloc, scopes, e)?;
            Ok(Some(e))
        }
    }
}

fn walk_if(alloc: Global, scopes: &Scopes, e: Option<Expr>) -> Result<Option<Expr>, CheckError>
    ensures { Gave result (if_there any_expression e scopes.now) }
{
    match e {
        None => Ok(None),
        Some(e) => {
            let e = walk(alloc, scopes, e)?;
            Ok(Some(e))
        }
    }
}

fn local(alloc: Global, scopes: &mut Scopes, d: Local) -> Result<Local, CheckError>
    requires room { length scopes.old.decls + local_nodes d ≤ 2 ^ 32 }
    ensures walk { GaveAt result scopes.new (walk_local d scopes.old) }
    ensures grows { OnOk result (length scopes.new.decls ≤ length scopes.old.decls + local_nodes d) }
{
    let Local {
        ty,
        is_const,
        name,
        at,
        first,
    } = d;
    require(scopes.is_new(name), CheckKind::NameTwice, at)?;
    let decl = Decl::Scalar {
        ty,
        is_const,
        is_global: false,
        first: 0,
    };
    let position = scopes.enter(alloc, name, Kind::Scalar { is_const }, decl)?;
    let first = value_if(alloc, scopes, first)?;
    Ok(Local {
        ty,
        is_const,
        name: position,
        at,
        first,
    })
}

fn locals(alloc: Global, scopes: &mut Scopes, ds: Items<Local>) -> Result<Items<Local>, CheckError>
    requires room { length scopes.old.decls + sum (map local_nodes ds) ≤ 2 ^ 32 }
    ensures walk { GaveAt result scopes.new (walk_locals ds scopes.old) }
    ensures grows { OnOk result (length scopes.new.decls ≤ length scopes.old.decls + sum (map local_nodes ds)) }
{
    let mut ds = ds;
    let mut turned = Items::new(alloc);
    while let Some(d) = ds.pop() {
        turned.push(d)?;
    }
    let mut all = Items::new(alloc);
    while let Some(d) = turned.pop() {
        all.push(local(alloc, scopes, d)?)?;
    }
    Ok(all)
}

fn is_good_return(ty: Ty, value: &Option<Expr>) -> bool
    ensures { result ≡ is_good_return ty value.now }
{
    match value {
        None => is_void(ty),
        Some(_) => !is_void(ty),
    }
}

/// A statement with positions for names, or the first fault in it.
#[cycle(statement)]
pub fn statement(
    alloc: Global,
    scopes: &mut Scopes,
    around: Around,
    c: Stmt,
) -> Result<Stmt, CheckError>
    requires room { length scopes.old.decls + statement_nodes c ≤ 2 ^ 32 }
    ensures walk { GaveAt result scopes.new (statement_walk c around scopes.old) }
    ensures grows { OnOk result (length scopes.new.decls ≤ length scopes.old.decls + statement_nodes c) }
{
    match c {
        Stmt::Empty => Ok(Stmt::Empty),
        Stmt::Value(e) => {
            let e = walk(alloc, scopes, e)?;
            Ok(Stmt::Value(e))
        }
        Stmt::Declare(ds) => {
            let ds = locals(alloc, scopes, ds)?;
            Ok(Stmt::Declare(ds))
        }
        Stmt::Block(body) => {
            scopes.open(alloc)?;
            let body = statements(alloc, scopes, around, body)?;
            scopes.close();
            Ok(Stmt::Block(body))
        }
        Stmt::If { test, yes, no } => {
            let test = value(alloc, scopes, test)?;
            let yes = Boxed::new(alloc, statement(alloc, scopes, around, yes.into_inner())?)?;
            let no = otherwise(alloc, scopes, around, no)?;
            Ok(Stmt::If { test, yes, no })
        }
        Stmt::While { test, body } => {
            let around = Around {
                in_loop: true,
                ..around
            };
            let test = value(alloc, scopes, test)?;
            let body = Boxed::new(alloc, statement(alloc, scopes, around, body.into_inner())?)?;
            Ok(Stmt::While { test, body })
        }
        Stmt::Do { body, test } => {
            let around = Around {
                in_loop: true,
                ..around
            };
            let body = Boxed::new(alloc, statement(alloc, scopes, around, body.into_inner())?)?;
            let test = value(alloc, scopes, test)?;
            Ok(Stmt::Do { body, test })
        }
        Stmt::For {
            first,
            test,
            next,
            body,
        } => {
            let inner = Around {
                in_loop: true,
                ..around
            };
            scopes.open(alloc)?;
            let first = Boxed::new(alloc, statement(alloc, scopes, around, first.into_inner())?)?;
            let test = value_if(alloc, scopes, test)?;
            let next = walk_if(alloc, scopes, next)?;
            let body = Boxed::new(alloc, statement(alloc, scopes, inner, body.into_inner())?)?;
            scopes.close();
            Ok(Stmt::For {
                first,
                test,
                next,
                body,
            })
        }
        Stmt::Switch { test, clauses } => {
            let around = Around {
                in_switch: true,
                ..around
            };
            let test = value(alloc, scopes, test)?;
            let mut labels = Labels::new(alloc);
            let clauses = each_clause(alloc, scopes, &mut labels, around, clauses)?;
            Ok(Stmt::Switch { test, clauses })
        }
        Stmt::Break { at } => {
            require(
                around.in_loop || around.in_switch,
                CheckKind::BreakOutside,
                at,
            )?;
            Ok(Stmt::Break { at })
        }
        Stmt::Continue { at } => {
            require(around.in_loop, CheckKind::BreakOutside, at)?;
            Ok(Stmt::Continue { at })
        }
        Stmt::Return { value, at } => {
            require(is_good_return(around.ty, &value), CheckKind::BadReturn, at)?;
            let value = value_if(alloc, scopes, value)?;
            Ok(Stmt::Return { value, at })
        }
    }
}

/// What stands after `else`, if there is something.
#[cycle(statement)]
fn otherwise(
    alloc: Global,
    scopes: &mut Scopes,
    around: Around,
    c: Option<Boxed<Stmt>>,
) -> Result<Option<Boxed<Stmt>>, CheckError>
    requires room { length scopes.old.decls + or_zero statement_nodes c ≤ 2 ^ 32 }
    ensures walk { GaveAt result scopes.new (walk_else (option_map statement_walk c) around scopes.old) }
    ensures grows { OnOk result (length scopes.new.decls ≤ length scopes.old.decls + or_zero statement_nodes c) }
{
    match c {
        None => Ok(None),
        Some(c) => {
            let c = Boxed::new(alloc, statement(alloc, scopes, around, c.into_inner())?)?;
            Ok(Some(c))
        }
    }
}

/// Statements one after another.
#[cycle(statement)]
pub fn statements(
    alloc: Global,
    scopes: &mut Scopes,
    around: Around,
    body: Items<Stmt>,
) -> Result<Items<Stmt>, CheckError>
    requires room { length scopes.old.decls + sum (map statement_nodes body) ≤ 2 ^ 32 }
    ensures walk { GaveAt result scopes.new (walk_each (map statement_walk body) around scopes.old) }
    ensures grows { OnOk result (length scopes.new.decls ≤ length scopes.old.decls + sum (map statement_nodes body)) }
{
    let mut body = body;
    let mut turned = Items::new(alloc);
    while let Some(c) = body.pop() {
        turned.push(c)?;
    }
    let mut all = Items::new(alloc);
    while let Some(c) = turned.pop() {
        all.push(statement(alloc, scopes, around, c)?)?;
    }
    Ok(all)
}

/// A clause of a `switch`: its labels, and then its statements.
#[cycle(statement)]
fn clause(
    alloc: Global,
    scopes: &mut Scopes,
    labels: &mut Labels,
    around: Around,
    c: Clause,
) -> Result<Clause, CheckError>
    requires room { length scopes.old.decls + clause_nodes c ≤ 2 ^ 32 }
    ensures walk { GaveBoth result labels.new scopes.new (clause_walk c labels.old around scopes.old) }
    ensures grows { OnOk result (length scopes.new.decls ≤ length scopes.old.decls + clause_nodes c) }
{
    let Clause { labels: ls, body } = c;
    let ls = each_label(alloc, scopes, labels, ls)?;
    let body = statements(alloc, scopes, around, body)?;
    Ok(Clause { labels: ls, body })
}

/// The clauses of a `switch` in order.
#[cycle(statement)]
fn each_clause(
    alloc: Global,
    scopes: &mut Scopes,
    labels: &mut Labels,
    around: Around,
    cs: Items<Clause>,
) -> Result<Items<Clause>, CheckError>
    requires room { length scopes.old.decls + sum (map clause_nodes cs) ≤ 2 ^ 32 }
    ensures walk { GaveAt result scopes.new (walk_clauses (map clause_walk cs) labels.old around scopes.old) }
    ensures grows { OnOk result (length scopes.new.decls ≤ length scopes.old.decls + sum (map clause_nodes cs)) }
{
    let mut cs = cs;
    let mut turned = Items::new(alloc);
    while let Some(c) = cs.pop() {
        turned.push(c)?;
    }
    let mut all = Items::new(alloc);
    while let Some(c) = turned.pop() {
        all.push(clause(alloc, scopes, labels, around, c)?)?;
    }
    Ok(all)
}
