//! The walk of the items of a program (ISO/IEC 9899:1999, 6.9).

ghost use Rattle.std.specs.Prelude.{◌≡◌, ◌+◌, ◌≤◌, ◌^◌, map, sum, length, OnOk};
ghost use Rattle.std.specs.BTreeSet.{contains};
ghost use Rattle.std.specs.Ordering.{nat_cmp};
ghost use Rattle.c_syntax.specs.Sizes.{item_nodes};
ghost use Rattle.check_rules.specs.Walk.{walk_item, walk_items};
ghost use Rattle.check_scopes.specs.Gave.{GaveAt};

use c_syntax::TopItem;
use check_functions::function;
use check_globals::globals;
use check_rules::CheckError;
use check_scopes::Scopes;
use sqlite_items::Items;
use std::alloc::Global;
use std::collections::BTreeSet;

fn item(
    alloc: Global,
    scopes: &mut Scopes,
    bodies: &BTreeSet<u32>,
    i: TopItem,
) -> Result<TopItem, CheckError>
    requires room { length scopes.old.decls + item_nodes i ≤ 2 ^ 32 }
    ensures walk { GaveAt result scopes.new (walk_item (λ name. contains nat_cmp bodies.now name) i scopes.old) }
    ensures grows { OnOk result (length scopes.new.decls ≤ length scopes.old.decls + item_nodes i) }
{
    match i {
        TopItem::Globals(gs) => {
            let gs = globals(alloc, scopes, gs)?;
            Ok(TopItem::Globals(gs))
        }
        TopItem::Function(f) => {
            let f = function(alloc, scopes, bodies, f)?;
            Ok(TopItem::Function(f))
        }
    }
}

/// Items in order. `bodies` are the names of all functions with bodies.
pub fn items(
    alloc: Global,
    scopes: &mut Scopes,
    bodies: &BTreeSet<u32>,
    is: Items<TopItem>,
) -> Result<Items<TopItem>, CheckError>
    requires room { length scopes.old.decls + sum (map item_nodes is) ≤ 2 ^ 32 }
    ensures walk { GaveAt result scopes.new (walk_items (λ name. contains nat_cmp bodies.now name) is scopes.old) }
    ensures grows { OnOk result (length scopes.new.decls ≤ length scopes.old.decls + sum (map item_nodes is)) }
{
    let mut is = is;
    let mut turned = Items::new(alloc);
    while let Some(i) = is.pop() {
        turned.push(i)?;
    }
    let mut all = Items::new(alloc);
    while let Some(i) = turned.pop() {
        all.push(item(alloc, scopes, bodies, i)?)?;
    }
    Ok(all)
}
