//! The walk of an expression, which gives its names their positions.

ghost use Rattle.std.specs.Prelude.{◌≡◌, ◌==◌, map, Option, length};
ghost use Rattle.check_rules.specs.Fault.{require, refuse};
ghost use Rattle.check_rules.specs.Scopes.{in_force};
ghost use Rattle.check_rules.specs.Walk.{is_scalar, is_array, is_function, used, takes, returns_void, is_modifiable_name, walked, valued, assignable, valued_each};
ghost use Rattle.check_scopes.specs.Gave.{Gave};
ghost use Rattle.check_rules.specs.declared.error.CheckKind.TheVariants.{NotScalar, NotAnArray, NotAFunction, ArgCount, VoidUsed, NotAssignable};

use c_syntax::{Expr, Ty};
use check_rules::{CheckError, CheckKind, Kind};
use check_scopes::Scopes;
use sqlite_items::{Boxed, Items};
use std::alloc::Global;

fn scalar(scopes: &Scopes, name: u32, at: u32) -> Result<u32, CheckError>
    ensures { Gave result (used is_scalar NotScalar at (in_force scopes.now name)) }
{
    match scopes.known(name) {
        None => Err(CheckError::Fault {
            kind: CheckKind::NameUnknown,
            at,
        }),
        Some(known) => match &known.kind {
            Kind::Scalar { .. } => Ok(known.position),
            Kind::Array { .. } | Kind::Function { .. } => Err(CheckError::Fault {
                kind: CheckKind::NotScalar,
                at,
            }),
        },
    }
}

fn array(scopes: &Scopes, name: u32, at: u32) -> Result<u32, CheckError>
    ensures { Gave result (used is_array NotAnArray at (in_force scopes.now name)) }
{
    match scopes.known(name) {
        None => Err(CheckError::Fault {
            kind: CheckKind::NameUnknown,
            at,
        }),
        Some(known) => match &known.kind {
            Kind::Array { .. } => Ok(known.position),
            Kind::Scalar { .. } | Kind::Function { .. } => Err(CheckError::Fault {
                kind: CheckKind::NotAnArray,
                at,
            }),
        },
    }
}

fn function(scopes: &Scopes, name: u32, at: u32) -> Result<u32, CheckError>
    ensures { Gave result (used is_function NotAFunction at (in_force scopes.now name)) }
{
    match scopes.known(name) {
        None => Err(CheckError::Fault {
            kind: CheckKind::NameUnknown,
            at,
        }),
        Some(known) => match &known.kind {
            Kind::Function { .. } => Ok(known.position),
            Kind::Scalar { .. } | Kind::Array { .. } => Err(CheckError::Fault {
                kind: CheckKind::NotAFunction,
                at,
            }),
        },
    }
}

fn takes(scopes: &Scopes, name: u32, count: usize) -> bool
    ensures { result ≡ takes count (in_force scopes.now name) }
{
    match scopes.known(name) {
        None => false,
        Some(known) => match &known.kind {
            Kind::Function { params, .. } => count == params.len(),
            Kind::Scalar { .. } | Kind::Array { .. } => false,
        },
    }
}

pub fn is_void(ty: Ty) -> bool
    ensures { result ≡ Rattle.check_rules.specs.Walk.is_void ty }
{
    match ty {
        Ty::Void => true,
        Ty::Int | Ty::Unsigned => false,
    }
}

fn returns_void(scopes: &Scopes, name: u32) -> bool
    ensures { result ≡ returns_void (in_force scopes.now name) }
{
    match scopes.known(name) {
        None => false,
        Some(known) => match &known.kind {
            Kind::Function { ty, .. } => is_void(*ty),
            Kind::Scalar { .. } | Kind::Array { .. } => false,
        },
    }
}

fn is_modifiable_name(scopes: &Scopes, name: u32) -> bool
    ensures { result ≡ is_modifiable_name (in_force scopes.now name) }
{
    match scopes.known(name) {
        None => false,
        Some(known) => match &known.kind {
            Kind::Scalar { is_const } | Kind::Array { is_const } => !*is_const,
            Kind::Function { .. } => false,
        },
    }
}

fn void_call(scopes: &Scopes, e: &Expr) -> Option<u32>
    ensures { result ≡ (walked e.now).void_call (in_force scopes.now) }
{
    match e {
        Expr::Call { name, at, .. } => {
            if returns_void(scopes, *name) {
                Some(*at)
            } else {
                None
            }
        }
        Expr::Comma { right, .. } => void_call(scopes, right.get()),
        Expr::Paren { of, .. } => void_call(scopes, of.get()),
        Expr::Literal { .. }
        | Expr::Name { .. }
        | Expr::Index { .. }
        | Expr::Unary { .. }
        | Expr::Binary { .. }
        | Expr::Logic { .. }
        | Expr::Choose { .. }
        | Expr::Assign { .. }
        | Expr::Bump { .. } => None,
    }
}

fn is_modifiable(scopes: &Scopes, e: &Expr) -> bool
    ensures { result ≡ (walked e.now).is_modifiable (in_force scopes.now) }
{
    match e {
        Expr::Name { name, .. } | Expr::Index { name, .. } => is_modifiable_name(scopes, *name),
        Expr::Paren { of, .. } => is_modifiable(scopes, of.get()),
        Expr::Literal { .. }
        | Expr::Call { .. }
        | Expr::Unary { .. }
        | Expr::Binary { .. }
        | Expr::Logic { .. }
        | Expr::Choose { .. }
        | Expr::Assign { .. }
        | Expr::Bump { .. }
        | Expr::Comma { .. } => false,
    }
}

fn refuse(at: Option<u32>, kind: CheckKind) -> Result<(), CheckError>
    ensures { Gave result (refuse at kind) }
{
    match at {
        None => Ok(()),
        Some(at) => Err(CheckError::Fault { kind, at }),
    }
}

pub fn require(holds: bool, kind: CheckKind, at: u32) -> Result<(), CheckError>
    ensures { Gave result (require holds kind at) }
{
    if holds {
        Ok(())
    } else {
        Err(CheckError::Fault { kind, at })
    }
}

/// An expression with positions for names, or the first fault in it.
#[cycle(walk)]
pub fn walk(alloc: Global, scopes: &Scopes, e: Expr) -> Result<Expr, CheckError>
    ensures { Gave result ((walked e).walk (in_force scopes.now)) }
{
    match e {
        Expr::Literal {
            value,
            is_unsigned,
            at,
        } => Ok(Expr::Literal {
            value,
            is_unsigned,
            at,
        }),
        Expr::Name { name, at } => {
            let name = scalar(scopes, name, at)?;
            Ok(Expr::Name { name, at })
        }
        Expr::Index { name, index, at } => {
            let name = array(scopes, name, at)?;
            let index = Boxed::new(alloc, value(alloc, scopes, index.into_inner())?)?;
            Ok(Expr::Index { name, index, at })
        }
        Expr::Call { name, args, at } => {
            let position = function(scopes, name, at)?;
            let fits = takes(scopes, name, args.len());
            let args = values(alloc, scopes, args)?;
            require(fits, CheckKind::ArgCount, at)?;
            Ok(Expr::Call {
                name: position,
                args,
                at,
            })
        }
        Expr::Unary { op, of, at } => {
            let of = Boxed::new(alloc, value(alloc, scopes, of.into_inner())?)?;
            Ok(Expr::Unary { op, of, at })
        }
        Expr::Binary {
            op,
            left,
            right,
            at,
        } => {
            let left = Boxed::new(alloc, value(alloc, scopes, left.into_inner())?)?;
            let right = Boxed::new(alloc, value(alloc, scopes, right.into_inner())?)?;
            Ok(Expr::Binary {
                op,
                left,
                right,
                at,
            })
        }
        Expr::Logic {
            is_and,
            left,
            right,
            at,
        } => {
            let left = Boxed::new(alloc, value(alloc, scopes, left.into_inner())?)?;
            let right = Boxed::new(alloc, value(alloc, scopes, right.into_inner())?)?;
            Ok(Expr::Logic {
                is_and,
                left,
                right,
                at,
            })
        }
        Expr::Choose { test, yes, no, at } => {
            let test = Boxed::new(alloc, value(alloc, scopes, test.into_inner())?)?;
            let yes = Boxed::new(alloc, value(alloc, scopes, yes.into_inner())?)?;
            let no = Boxed::new(alloc, value(alloc, scopes, no.into_inner())?)?;
            Ok(Expr::Choose { test, yes, no, at })
        }
        Expr::Assign {
            op,
            place: p,
            value: v,
            at,
        } => {
            let place = Boxed::new(alloc, place(alloc, scopes, p.into_inner(), at)?)?;
            let value = Boxed::new(alloc, value(alloc, scopes, v.into_inner())?)?;
            Ok(Expr::Assign {
                op,
                place,
                value,
                at,
            })
        }
        Expr::Bump {
            up,
            before,
            place: p,
            at,
        } => {
            let place = Boxed::new(alloc, place(alloc, scopes, p.into_inner(), at)?)?;
            Ok(Expr::Bump {
                up,
                before,
                place,
                at,
            })
        }
        Expr::Comma { left, right, at } => {
            let left = Boxed::new(alloc, walk(alloc, scopes, left.into_inner())?)?;
            let right = Boxed::new(alloc, walk(alloc, scopes, right.into_inner())?)?;
            Ok(Expr::Comma { left, right, at })
        }
        Expr::Paren { of, at } => {
            let of = Boxed::new(alloc, walk(alloc, scopes, of.into_inner())?)?;
            Ok(Expr::Paren { of, at })
        }
    }
}

/// An expression that must have a value.
#[cycle(walk)]
pub fn value(alloc: Global, scopes: &Scopes, e: Expr) -> Result<Expr, CheckError>
    ensures { Gave result (valued (walked e) (in_force scopes.now)) }
{
    let at = void_call(scopes, &e);
    let e = walk(alloc, scopes, e)?;
    refuse(at, CheckKind::VoidUsed)?;
    Ok(e)
}

/// The place of an assignment, whose operator stands at this byte.
#[cycle(walk)]
fn place(alloc: Global, scopes: &Scopes, e: Expr, at: u32) -> Result<Expr, CheckError>
    ensures { Gave result (assignable (walked e) at (in_force scopes.now)) }
{
    let fits = is_modifiable(scopes, &e);
    let e = value(alloc, scopes, e)?;
    require(fits, CheckKind::NotAssignable, at)?;
    Ok(e)
}

/// Arguments from left to right.
#[cycle(walk)]
fn values(alloc: Global, scopes: &Scopes, args: Items<Expr>) -> Result<Items<Expr>, CheckError>
    ensures { Gave result (valued_each (map walked args) (in_force scopes.now)) }
{
    let mut args = args;
    let mut turned = Items::new(alloc);
    while let Some(e) = args.pop() {
        turned.push(e)?;
    }
    let mut all = Items::new(alloc);
    while let Some(e) = turned.pop() {
        all.push(value(alloc, scopes, e)?)?;
    }
    Ok(all)
}
