//! The walk of the length and the initialisers of a variable at file scope (ISO/IEC 9899:1999, 6.7.5.2 and 6.7.8).

ghost use Rattle.std.specs.Prelude.{◌≡◌};
ghost use Rattle.check_rules.specs.Walk.{if_there, constant_part, walk_shape, walk_initialisers};
ghost use Rattle.check_scopes.specs.Gave.{Gave};
ghost use Rattle.check_globals.specs.Globals.{walk_initialiser};

use c_syntax::{Expr, Shape};
use check_expressions::{constant_part, place_of, require};
use check_rules::{CheckError, CheckKind};
use check_scopes::Scopes;
use sqlite_items::Items;
use std::alloc::Global;

fn length_if(alloc: Global, scopes: &Scopes, e: Option<Expr>) -> Result<Option<Expr>, CheckError>
    ensures { Gave result (if_there constant_part e scopes.now) }
{
    match e {
        None => Ok(None),
        Some(e) => {
            let e = constant_part(alloc, scopes, e)?;
            Ok(Some(e))
        }
    }
}

/// A shape with positions for the names of its length.
pub fn shape(alloc: Global, scopes: &Scopes, s: Shape) -> Result<Shape, CheckError>
    ensures { Gave result (walk_shape s scopes.now) }
{
    match s {
        Shape::Scalar => Ok(Shape::Scalar),
        Shape::Array { length } => {
            let length = length_if(alloc, scopes, length)?;
            Ok(Shape::Array { length })
        }
    }
}

fn initialiser(alloc: Global, scopes: &Scopes, room: usize, e: Expr) -> Result<Expr, CheckError>
    ensures { Gave result (walk_initialiser room e scopes.now) }
{
    require(room > 0, CheckKind::TooManyInitialisers, place_of(&e))?;
    constant_part(alloc, scopes, e)
}

/// Initialisers, of which there may be so many.
pub fn initialisers(
    alloc: Global,
    scopes: &Scopes,
    room: usize,
    es: Items<Expr>,
) -> Result<Items<Expr>, CheckError>
    ensures { Gave result (walk_initialisers room es scopes.now) }
{
    let mut es = es;
    let mut turned = Items::new(alloc);
    while let Some(e) = es.pop() {
        turned.push(e)?;
    }
    let mut left = room;
    let mut all = Items::new(alloc);
    while let Some(e) = turned.pop() {
        all.push(initialiser(alloc, scopes, left, e)?)?;
        left -= 1;
    }
    Ok(all)
}
