//! Under each name the names that its function calls.

ghost use Rattle.std.specs.Prelude.{◌≡◌, ◌<◌, ◌≤◌, ℕ, List, [], ◌∷◌, length, flat_map, slice_index_or, All, IfOk, OnOk};
ghost use Rattle.c_syntax.specs.declared.tree.TopItem.{TopItem as Item};
ghost use Rattle.c_syntax.specs.Graph.{statement_calls};
ghost use Rattle.c_calls.specs.Reached.{IsGraph};
ghost use Rattle.c_calls.specs.Lists.{IsClosed, Grown, Put};

use crate::calls::add_statements;
use c_syntax::{Stmt, TopItem};
use hard_words::OutOfMemory;
use sqlite_items::Items;
use std::alloc::Global;
use std::marker::Model;

/// The calls of a program: under each name the names that the body of its function calls, from left to right. Where the
/// program has no body for the name there are none.
#[derive(Drop)]
pub struct CallGraph {
    lists: Items<Items<u32>>,
}

impl Model for CallGraph {
    ghost use Rattle.std.specs.Prelude.{List, ℕ};
    ghost use Rattle.c_calls.specs.Lists.{IsClosed};

    ghost Value = { List (List ℕ) };

    ghost view = { λ g. g.lists };

    ghost invariant = { λ g. IsClosed g.lists };
}

impl CallGraph {
    /// One more than the greatest name that has calls or is called.
    pub fn len(&self) -> usize
        ensures size { result ≡ length self.now }
        ensures closed { IsClosed self.now }
    {
        self.lists.len()
    }

    /// The names that the function of this name calls.
    pub fn callees(&self, name: usize) -> &[u32]
        ensures { result.now ≡ slice_index_or self.now name [] }
    {
        match self.lists.get(name) {
            None => &[],
            Some(list) => list.as_slice(),
        }
    }
}

// Empty lists, until there is one under the name.
fn grow(alloc: Global, lists: &mut Items<Items<u32>>, name: usize) -> Result<(), OutOfMemory>
    ensures grown { OnOk result (Grown lists.old lists.new) }
    ensures within { OnOk result (name < length lists.new) }
{
    while lists.len() <= name {
        lists.push(Items::new(alloc))?;
    }
    Ok(())
}

// Empty lists, until there is one under each of the names.
fn grow_to_each(
    alloc: Global,
    lists: &mut Items<Items<u32>>,
    names: &[u32],
) -> Result<(), OutOfMemory>
    ensures grown { OnOk result (Grown lists.old lists.new) }
    ensures within { OnOk result (All (λ name. name < length lists.new) names.now) }
{
    for name in names {
        grow(alloc, lists, *name as usize)?;
    }
    Ok(())
}

// The calls of a body, under the name of its function.
fn put(
    alloc: Global,
    lists: &mut Items<Items<u32>>,
    name: u32,
    body: &[Stmt],
) -> Result<(), OutOfMemory>
    ensures { OnOk result (Put name (flat_map statement_calls body.now) lists.old lists.new) }
{
    let mut calls = Items::new(alloc);
    add_statements(body, &mut calls)?;
    grow_to_each(alloc, lists, calls.as_slice())?;
    grow(alloc, lists, name as usize)?;
    lists.set(name as usize, calls);
    Ok(())
}

// What an item before the others changes: where two bodies have one name, the first one stands.
fn put_item(alloc: Global, lists: &mut Items<Items<u32>>, item: &TopItem) -> Result<(), OutOfMemory>
    requires { IsClosed lists.old }
    ensures closed { OnOk result (IsClosed lists.new) }
    ensures graph { OnOk result ((rest : List Item) → IsGraph rest lists.old → IsGraph (item.now ∷ rest) lists.new) }
{
    match item {
        TopItem::Globals(_) => Ok(()),
        TopItem::Function(function) => match &function.body {
            None => Ok(()),
            Some(body) => {
                put(alloc, lists, function.name, body.as_slice())?;
                Ok(())
            }
        },
    }
}

/// The calls of a program.
pub fn call_graph(alloc: Global, items: &[TopItem]) -> Result<CallGraph, OutOfMemory>
    ensures { IfOk result (λ g. IsGraph items.now g) }
{
    let mut lists = Items::new(alloc);
    let mut left = items.len();
    while left > 0 {
        left -= 1;
        put_item(alloc, &mut lists, &items[left])?;
    }
    Ok(CallGraph { lists })
}
