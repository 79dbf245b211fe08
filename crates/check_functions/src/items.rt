//! The walk of functions.

ghost use Rattle.std.specs.Prelude.{◌≡◌, ◌+◌, ◌≤◌, ◌<◌, ◌^◌, map, length, Option, IfOk, IfErr, OnOk};
ghost use Rattle.std.specs.BTreeSet.{contains};
ghost use Rattle.std.specs.Ordering.{nat_cmp};
ghost use Rattle.c_syntax.specs.Sizes.{or_zero, body_nodes};
ghost use Rattle.check_rules.specs.Scopes.{in_force, lookup};
ghost use Rattle.check_rules.specs.Walk.{same_type, same_types, param_types, walk_param, walk_params, walk_body, declared_again_as, is_among, walk_name, walk_function};
ghost use Rattle.c_syntax.specs.Graph.{has_body};
ghost use Rattle.check_rules.specs.declared.error.CheckError.TheVariants.{OutOfMemory};
ghost use Rattle.check_scopes.specs.Gave.{Gave, GaveAt};

use c_syntax::{Function, Param, Stmt, Ty};
use check_expressions::require;
use check_rules::{Around, CheckError, CheckKind, Decl, Kind, Known};
use check_scopes::Scopes;
use check_statements::statements;
use sqlite_items::Items;
use std::alloc::Global;
use std::collections::BTreeSet;

fn param(alloc: Global, scopes: &mut Scopes, p: Param) -> Result<Param, CheckError>
    requires room { length scopes.old.decls + 1 ≤ 2 ^ 32 }
    ensures walk { GaveAt result scopes.new (walk_param p p.name scopes.old) }
    ensures grows { OnOk result (length scopes.new.decls ≤ length scopes.old.decls + 1) }
{
    let Param {
        ty,
        is_const,
        name,
        at,
    } = p;
    match name {
        None => Ok(Param {
            ty,
            is_const,
            name: None,
            at,
        }),
        Some(name) => {
            require(scopes.is_new(name), CheckKind::NameTwice, at)?;
            let decl = Decl::Scalar {
                ty,
                is_const,
                is_global: false,
                first: 0,
            };
            let position = scopes.enter(alloc, name, Kind::Scalar { is_const }, decl)?;
            Ok(Param {
                ty,
                is_const,
                name: Some(position),
                at,
            })
        }
    }
}

/// Parameters in order.
pub fn params(
    alloc: Global,
    scopes: &mut Scopes,
    ps: Items<Param>,
) -> Result<Items<Param>, CheckError>
    requires room { length scopes.old.decls + length ps ≤ 2 ^ 32 }
    ensures walk { GaveAt result scopes.new (walk_params ps scopes.old) }
    ensures grows { OnOk result (length scopes.new.decls ≤ length scopes.old.decls + length ps) }
{
    let mut ps = ps;
    let mut turned = Items::new(alloc);
    while let Some(p) = ps.pop() {
        turned.push(p)?;
    }
    let mut all = Items::new(alloc);
    while let Some(p) = turned.pop() {
        all.push(param(alloc, scopes, p)?)?;
    }
    Ok(all)
}

/// The body of a function of this type, if there is one.
pub fn body(
    alloc: Global,
    scopes: &mut Scopes,
    ty: Ty,
    body: Option<Items<Stmt>>,
) -> Result<Option<Items<Stmt>>, CheckError>
    requires room { length scopes.old.decls + or_zero body_nodes body ≤ 2 ^ 32 }
    ensures walk { GaveAt result scopes.new (walk_body ty body scopes.old) }
    ensures grows { OnOk result (length scopes.new.decls ≤ length scopes.old.decls + or_zero body_nodes body) }
{
    match body {
        None => Ok(None),
        Some(body) => {
            let around = Around {
                ty,
                in_loop: false,
                in_switch: false,
            };
            let body = statements(alloc, scopes, around, body)?;
            Ok(Some(body))
        }
    }
}

fn same_type(a: Ty, b: Ty) -> bool
    ensures { result ≡ same_type a b }
{
    match (a, b) {
        (Ty::Int, Ty::Int) | (Ty::Unsigned, Ty::Unsigned) | (Ty::Void, Ty::Void) => true,
        _ => false,
    }
}

fn same_types(types: &[Ty], params: &[Param]) -> bool
    ensures { result ≡ same_types types.now (param_types params.now) }
{
    let mut i = 0;
    while i < types.len() && i < params.len() {
        if !same_type(types[i], params[i].ty) {
            return false;
        }
        i += 1;
    }
    i == types.len() && i == params.len()
}

fn types_of(alloc: Global, params: &[Param]) -> Result<Items<Ty>, CheckError>
    ensures ok { IfOk result (λ types. types ≡ param_types params.now) }
    ensures err { IfErr result (λ e. e ≡ OutOfMemory) }
{
    let mut types = Items::new(alloc);
    for p in params {
        types.push(p.ty)?;
    }
    Ok(types)
}

fn declared_again(
    scopes: &Scopes,
    known: &Known,
    has_body: bool,
    ty: Ty,
    name: u32,
    at: u32,
    ps: &[Param],
) -> Result<u32, CheckError>
    ensures { Gave result (declared_again_as has_body ty name at (param_types ps.now) scopes.now.bodies known.now.position known.now.kind) }
{
    match &known.kind {
        Kind::Scalar { .. } | Kind::Array { .. } => Err(CheckError::Fault {
            kind: CheckKind::NameTwice,
            at,
        }),
        Kind::Function { ty: old, params } => {
            require(
                !(has_body && scopes.has_come(name)),
                CheckKind::NameTwice,
                at,
            )?;
            require(
                same_type(*old, ty) && same_types(params.as_slice(), ps),
                CheckKind::PrototypeDiffers,
                at,
            )?;
            Ok(known.position)
        }
    }
}

fn has_body(body: &Option<Items<Stmt>>) -> bool
    ensures { result ≡ has_body body.now }
{
    match body {
        None => false,
        Some(_) => true,
    }
}

/// The position of a function's name, which comes into force where it is new. `bodies` are the names of all functions with
/// bodies.
fn function_name(
    alloc: Global,
    scopes: &mut Scopes,
    bodies: &BTreeSet<u32>,
    f: &Function,
) -> Result<u32, CheckError>
    requires room { length scopes.old.decls + 1 ≤ 2 ^ 32 }
    ensures walk { GaveAt result scopes.new (walk_name (λ name. contains nat_cmp bodies.now name) f.now (lookup f.now.name scopes.old.file) scopes.old) }
    ensures grows { OnOk result (length scopes.new.decls ≤ length scopes.old.decls + 1) }
{
    match scopes.known_in_file(f.name) {
        Some(known) => declared_again(
            scopes,
            known,
            has_body(&f.body),
            f.ty,
            f.name,
            f.at,
            f.params.as_slice(),
        ),
        None => {
            let kind = Kind::Function {
                ty: f.ty,
                params: types_of(alloc, f.params.as_slice())?,
            };
            let decl = Decl::Function {
                ty: f.ty,
                params: types_of(alloc, f.params.as_slice())?,
                has_body: bodies.contains(&f.name),
            };
            scopes.enter_file(f.name, kind, decl)
        }
    }
}

/// A function with positions for names: the name, the parameters, the body.
pub fn function(
    alloc: Global,
    scopes: &mut Scopes,
    bodies: &BTreeSet<u32>,
    f: Function,
) -> Result<Function, CheckError>
    requires room { length scopes.old.decls + (1 + length f.params + or_zero body_nodes f.body) ≤ 2 ^ 32 }
    ensures walk { GaveAt result scopes.new (walk_function (λ name. contains nat_cmp bodies.now name) f scopes.old) }
    ensures grows { OnOk result (length scopes.new.decls ≤ length scopes.old.decls + (1 + length f.params + or_zero body_nodes f.body)) }
{
    let position = function_name(alloc, scopes, bodies, &f)?;
    let Function {
        ty,
        name,
        at,
        params: ps,
        body: b,
    } = f;
    let comes = has_body(&b);
    scopes.begin(alloc)?;
    let ps = params(alloc, scopes, ps)?;
    let b = body(alloc, scopes, ty, b)?;
    scopes.end(alloc);
    if comes {
        scopes.comes(name)?;
    }
    Ok(Function {
        ty,
        name: position,
        at,
        params: ps,
        body: b,
    })
}
