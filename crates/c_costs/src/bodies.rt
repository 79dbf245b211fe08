//! The functions with bodies, by their names.

ghost use Rattle.std.specs.Prelude.{◌≡◌, ◌<◌, ◌||◌, ℕ, Bool, true, false, if◌then◌else◌, length, slice_index_or, IfOk, OnOk};
ghost use Rattle.std.specs.List.{list_any};
ghost use Rattle.c_syntax.specs.Graph.{defines};
ghost use Rattle.c_syntax.specs.Costs.{call_cost};
ghost use Rattle.c_costs.specs.Bodies.{AreBodies};

use c_syntax::TopItem;
use hard_words::OutOfMemory;
use sqlite_items::Items;
use std::alloc::Global;
use std::marker::Model;

/// A program, where whether a function has a body is found by its name. Contracts see the program's items.
#[derive(Drop)]
pub(crate) struct Bodies<'a> {
    /// The program's items.
    items: &'a [TopItem],
    /// Under each name whether its function has a body.
    bodies: Items<bool>,
}

impl<'a> Model for Bodies<'a> {
    ghost use Rattle.std.specs.Prelude.{List};
    ghost use Rattle.std.specs.Coded.{codes};
    ghost use Rattle.c_syntax.specs.declared.tree.TopItem.{TopItem};
    ghost use Rattle.c_syntax.specs.contracts.tree.Expr as e;
    ghost use Rattle.c_syntax.specs.contracts.tree.Stmt as s;
    ghost use Rattle.c_syntax.specs.contracts.tree.Clause as c;
    ghost use Rattle.c_costs.specs.Bodies.{AreBodies};

    ghost Value = { List TopItem };

    ghost coded = { Prim.hlevel (codes, e.the_row.coded, s.the_row.coded, c.the_row.coded) };

    ghost view = { λ b. b.items.now };

    ghost invariant = { λ b. AreBodies b.items.now b.bodies };
}

impl<'a> Bodies<'a> {
    /// The functions of a program. The time grows with the items and the names.
    pub(crate) fn new(alloc: Global, items: &'a [TopItem]) -> Result<Bodies<'a>, OutOfMemory>
        ensures { IfOk result (λ b. b ≡ items.now) }
    {
        let bodies = bodies_of(alloc, items)?;
        Ok(Bodies { items, bodies })
    }

    /// The program's items.
    pub(crate) fn items(&self) -> &'a [TopItem]
        ensures { result.now ≡ self.now }
    {
        self.items
    }

    /// Whether a function has a body.
    fn has(&self, name: u32) -> bool
        ensures { result ≡ list_any (defines name) self.now }
    {
        holds_under(self.bodies.as_slice(), name as usize)
    }

    /// What a call of a function costs: 1, if it has a body.
    pub(crate) fn cost_of_call(&self, name: u32) -> u64
        ensures { result ≡ call_cost self.now name }
    {
        if self.has(name) { 1 } else { 0 }
    }
}

// What a list says under a name.
fn holds_under(list: &[bool], name: usize) -> bool
    ensures { result ≡ slice_index_or list.now name false }
{
    match list.get(name) {
        None => false,
        Some(holds) => *holds,
    }
}

// Nothing, until there is something under the name.
fn grow(bodies: &mut Items<bool>, name: usize) -> Result<(), OutOfMemory>
    ensures within { OnOk result (name < length bodies.new) }
    ensures same { OnOk result ((k : ℕ) → slice_index_or bodies.new k false ≡ slice_index_or bodies.old k false) }
{
    while bodies.len() <= name {
        bodies.push(false)?;
    }
    Ok(())
}

// What an item changes.
fn put_item(bodies: &mut Items<bool>, item: &TopItem) -> Result<(), OutOfMemory>
    ensures { OnOk result ((k : ℕ) → slice_index_or bodies.new k false ≡ (slice_index_or bodies.old k false || defines k item.now)) }
{
    match item {
        TopItem::Globals(_) => Ok(()),
        TopItem::Function(function) => match &function.body {
            None => Ok(()),
            Some(_) => {
                let name = function.name as usize;
                grow(bodies, name)?;
                bodies.set(name, true);
                Ok(())
            }
        },
    }
}

// Under each name whether its function has a body.
fn bodies_of(alloc: Global, items: &[TopItem]) -> Result<Items<bool>, OutOfMemory>
    ensures { IfOk result (λ b. AreBodies items.now b) }
{
    let mut bodies = Items::new(alloc);
    for item in items {
        put_item(&mut bodies, item)?;
    }
    Ok(bodies)
}
