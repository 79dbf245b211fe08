//! The functions of a program by name.

ghost use Rattle.std.specs.Prelude.{◌≡◌, IfOk, option_map};
ghost use Rattle.c_syntax.specs.Graph.{function_named, is_recursive};
ghost use Rattle.c_meaning.specs.Meaning.{returns_unsigned};
ghost use Rattle.eval_parts.specs.Tables.{KnowsRecursive, HasFunctions, NotesItem, function_in};

use c_syntax::{Function, TopItem, Ty};
use eval_state::table;
use std::alloc::{AllocError, Global};
use std::marker::Model;

/// A program, where each function with a body is found by its name.
#[derive(Drop)]
pub struct Code<'a> {
    /// The program.
    items: &'a [TopItem],
    /// One more than the index of the function of each name, 0 where there is none.
    table: Vec<usize>,
    /// Whether the function of each name is recursive.
    recursive: Vec<bool>,
}

impl<'a> Model for Code<'a> {
    ghost use Rattle.std.specs.Prelude.{List};
    ghost use Rattle.std.specs.Coded.{codes};
    ghost use Rattle.c_syntax.specs.declared.tree.TopItem.{TopItem};
    ghost use Rattle.c_syntax.specs.contracts.tree.Expr as e;
    ghost use Rattle.c_syntax.specs.contracts.tree.Stmt as s;
    ghost use Rattle.c_syntax.specs.contracts.tree.Clause as c;
    ghost use Rattle.eval_parts.specs.Tables.{HasFunctions, KnowsRecursive};

    ghost Value = { List TopItem };

    ghost coded = { Prim.hlevel (codes, e.the_row.coded, s.the_row.coded, c.the_row.coded) };

    ghost view = { λ c. c.items.now };

    ghost invariant = { λ c. HasFunctions c.table.items c.items.now × KnowsRecursive c.recursive.items c.items.now };
}

impl<'a> Code<'a> {
    /// A program of which is known which functions are recursive.
    pub fn new(
        alloc: Global,
        items: &'a [TopItem],
        recursive: Vec<bool>,
    ) -> Result<Code<'a>, AllocError>
        requires { KnowsRecursive recursive.items items.now }
        ensures { IfOk result (λ c. c ≡ items.entry.now) }
    {
        let table = functions(alloc, items)?;
        Ok(Code {
            items,
            table,
            recursive,
        })
    }

    /// The function with a body that has the name.
    pub fn function(&self, name: u32) -> Option<&'a Function>
        ensures { option_map (λ f. f.now) result ≡ function_named name self.now }
    {
        let first = table::at(self.table.as_slice(), name as usize);
        if first == 0 {
            return None;
        }
        match sqlite_items::at(self.items, first - 1) {
            None => None,
            Some(item) => function_in(item),
        }
    }

    /// Whether the function of a name is recursive.
    pub fn is_recursive(&self, name: u32) -> bool
        ensures { result ≡ is_recursive self.now name }
    {
        match self.recursive.get(name as usize) {
            None => false,
            Some(recursive) => *recursive,
        }
    }

    /// Whether the function of a name returns unsigned.
    pub fn returns_unsigned(&self, name: u32) -> bool
        ensures { result ≡ returns_unsigned (function_named name self.now) }
    {
        match self.function(name) {
            None => false,
            Some(f) => f.ty == Ty::Unsigned,
        }
    }
}

/// The function that an item is.
fn function_in<'a>(item: &'a TopItem) -> Option<&'a Function>
    ensures { option_map (λ f. f.now) result ≡ function_in item.entry.now }
{
    match item {
        TopItem::Globals(_) => None,
        TopItem::Function(f) => Some(f),
    }
}

fn functions(alloc: Global, items: &[TopItem]) -> Result<Vec<usize>, AllocError>
    ensures { IfOk result (λ table. HasFunctions table.items items.now) }
{
    let mut table = Vec::new(alloc);
    for (i, item) in items.iter().enumerate() {
        note(&mut table, i + 1, item)?;
    }
    Ok(table)
}

/// Notes the number of an item for the function with a body that it is.
fn note(table: &mut Vec<usize>, number: usize, item: &TopItem) -> Result<(), AllocError>
    ensures { IfOk result (λ u. NotesItem item.now number table.old.items table.new.items) }
{
    match item {
        TopItem::Globals(_) => Ok(()),
        TopItem::Function(f) => {
            if f.body.is_some() {
                table::grow(table, f.name as usize)?;
                table::note(table, f.name as usize, number);
            }
            Ok(())
        }
    }
}
