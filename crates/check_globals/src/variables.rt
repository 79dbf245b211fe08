//! The walk of variables at file scope (ISO/IEC 9899:1999, 6.9.2).

ghost use Rattle.std.specs.Prelude.{◌≡◌, ◌+◌, ◌≤◌, ◌^◌, ◌&&◌, nat_le, map, sum, length, OnOk};
ghost use Rattle.c_syntax.specs.Sizes.{global_nodes};
ghost use Rattle.check_rules.specs.Walk.{elements, most_elements, kind_of_shape, walk_global, walk_globals};
ghost use Rattle.check_scopes.specs.Gave.{Gave, GaveAt};
ghost use Rattle.check_globals.specs.Globals.{is_array_shape};

use crate::initialisers::{initialisers, shape};
use crate::words::{constants, declare};
use c_constants::constant_word;
use c_syntax::{Expr, GlobalVar, Shape};
use check_expressions::require;
use check_rules::{CheckError, CheckKind, Kind};
use check_scopes::Scopes;
use sqlite_items::Items;
use std::alloc::Global;

/// The most elements of an array.
const MOST_ELEMENTS: usize = 32_768;

fn elements(s: &Shape, first: &[Expr]) -> usize
    ensures { result ≡ elements s.now first.now }
{
    match s {
        Shape::Scalar => 1,
        Shape::Array { length } => match length {
            None => first.len(),
            Some(e) => constant_word(e) as usize,
        },
    }
}

fn is_array(s: &Shape) -> bool
    ensures { result ≡ is_array_shape s.now }
{
    match s {
        Shape::Scalar => false,
        Shape::Array { .. } => true,
    }
}

fn kind_of(is_const: bool, s: &Shape) -> Kind
    ensures { result ≡ kind_of_shape is_const s.now }
{
    match s {
        Shape::Scalar => Kind::Scalar { is_const },
        Shape::Array { .. } => Kind::Array { is_const },
    }
}

fn is_length(count: usize) -> bool
    ensures { result ≡ (nat_le 1 count && nat_le count most_elements) }
{
    1 <= count && count <= MOST_ELEMENTS
}

fn global(alloc: Global, scopes: &mut Scopes, g: GlobalVar) -> Result<GlobalVar, CheckError>
    requires room { length scopes.old.decls + global_nodes g ≤ 2 ^ 32 }
    ensures walk { GaveAt result scopes.new (walk_global g scopes.old) }
    ensures grows { OnOk result (length scopes.new.decls ≤ length scopes.old.decls + global_nodes g) }
{
    let GlobalVar {
        ty,
        is_const,
        name,
        at,
        shape: s,
        first: es,
    } = g;
    require(
        scopes.known_in_file(name).is_none(),
        CheckKind::NameTwice,
        at,
    )?;
    let count = elements(&s, es.as_slice());
    let is_array = is_array(&s);
    let position = scopes.name_in_file(name, kind_of(is_const, &s))?;
    let s = shape(alloc, scopes, s)?;
    require(is_length(count), CheckKind::BadLength, at)?;
    let words = constants(alloc, es.as_slice())?;
    let es = initialisers(alloc, scopes, count, es)?;
    declare(scopes, is_array, ty, is_const, count, words)?;
    Ok(GlobalVar {
        ty,
        is_const,
        name: position,
        at,
        shape: s,
        first: es,
    })
}

/// Variables at file scope in order: of each the name, the length, the initialisers.
pub fn globals(
    alloc: Global,
    scopes: &mut Scopes,
    gs: Items<GlobalVar>,
) -> Result<Items<GlobalVar>, CheckError>
    requires room { length scopes.old.decls + sum (map global_nodes gs) ≤ 2 ^ 32 }
    ensures walk { GaveAt result scopes.new (walk_globals gs scopes.old) }
    ensures grows { OnOk result (length scopes.new.decls ≤ length scopes.old.decls + sum (map global_nodes gs)) }
{
    let mut gs = gs;
    let mut turned = Items::new(alloc);
    while let Some(g) = gs.pop() {
        turned.push(g)?;
    }
    let mut all = Items::new(alloc);
    while let Some(g) = turned.pop() {
        all.push(global(alloc, scopes, g)?)?;
    }
    Ok(all)
}
