//! The variables of one call: its parameters and the variables of its blocks.

ghost use Rattle.std.specs.Prelude.{◌≡◌, [], ◌∷◌, IfOk, List, reverse, slice_get};
ghost use Rattle.c_meaning.specs.Run.{without_first, entered, innermost, put_innermost, is_some_value};
ghost use Rattle.eval_state.specs.Cells.{offset, held_of, scopes_of, Kept, StoresAt, Leaves};
ghost use Rattle.eval_state.specs.declared.scopes.Cell.{Cell};

use crate::table;
use c_meaning::Value;
use std::alloc::{AllocError, Global};
use std::marker::Model;

/// A parameter or a variable of a block.
#[derive(Clone, Copy, Drop)]
pub(crate) struct Held {
    /// Its name.
    name: u32,
    /// Its value with its type.
    value: Value,
    /// One more than the cell of the variable of that name that it hides, 0 where it hides none.
    hidden: usize,
}

/// A cell of a call's variables.
#[derive(Clone, Copy, Drop)]
pub(crate) enum Cell {
    /// Here a scope begins.
    Open,
    /// A variable of the scope.
    Holds(Held),
}

/// The scopes of a call.
#[derive(Drop)]
pub struct Scopes {
    /// The newest last.
    cells: Vec<Cell>,
    /// The name with which the table begins.
    first: u32,
    /// One more than the cell of the newest variable of each name, 0 where there is none.
    latest: Vec<usize>,
}

impl Model for Scopes {
    ghost use Rattle.std.specs.Prelude.{List, reverse};
    ghost use Rattle.c_meaning.specs.Run.{Entry};

    ghost Value = { List (List Entry) };

    ghost use Rattle.eval_state.specs.Cells.{scopes_of, Kept};

    ghost view = { λ s. scopes_of (reverse s.cells.items) };

    ghost invariant = { λ s. Kept s.first s.latest.items s.cells.items };
}

impl Scopes {
    /// No scopes.
    pub fn new(alloc: Global) -> Scopes
        ensures { result ≡ [] }
    {
        Scopes {
            cells: Vec::new(alloc),
            first: 0,
            latest: Vec::new(alloc),
        }
    }

    /// The value of the variable of the innermost scope that has the name.
    pub fn find(&self, name: u32) -> Option<Value>
        ensures { result ≡ innermost name self.now }
    {
        let newest = table::at(self.latest.as_slice(), offset(self.first, name));
        if newest == 0 {
            return None;
        }
        match held_at(self.cells.as_slice(), newest - 1) {
            None => None,
            Some(held) => Some(held.value),
        }
    }

    /// Stores a word into the variable of the innermost scope that has the name, if there is one.
    pub fn put(&mut self, name: u32, word: u32) -> bool
        ensures found { result ≡ is_some_value (innermost name self.old) }
        ensures stored { self.new ≡ put_innermost name word self.old }
    {
        let newest = table::at(self.latest.as_slice(), offset(self.first, name));
        if newest == 0 {
            return false;
        }
        store_at(&mut self.cells, newest - 1, word);
        true
    }

    /// A new innermost scope.
    pub fn open(&mut self) -> Result<(), AllocError>
        ensures { IfOk result (λ u. self.new ≡ [] ∷ self.old) }
    {
        self.cells.push(Cell::Open)?;
        Ok(())
    }

    /// A new variable in the innermost scope.
    pub fn enter(&mut self, name: u32, value: Value) -> Result<(), AllocError>
        ensures { IfOk result (λ u. self.new ≡ entered name value self.old) }
    {
        self.first = first_for(self.latest.as_slice(), self.first, name);
        push(&mut self.cells, self.first, &mut self.latest, name, value)
    }

    /// The end of the innermost scope.
    pub fn close(&mut self)
        ensures { self.new ≡ without_first self.old }
    {
        loop {
            if !leave(&mut self.cells, self.first, &mut self.latest) {
                return;
            }
        }
    }
}

/// Where a name stands in a table that begins at another.
fn offset(first: u32, name: u32) -> usize
    ensures { result ≡ offset first name }
{
    if first <= name {
        (name - first) as usize
    } else {
        name as usize + (1 << 32) - first as usize
    }
}

/// The name with which a table begins that is to hold this one.
fn first_for(table: &[usize], first: u32, name: u32) -> u32
    ensures { (cells : List Cell) → Kept first table.now cells → Kept result table.now cells }
{
    if table.is_empty() { name } else { first }
}

/// The variable of a cell.
fn held_at(cells: &[Cell], index: usize) -> Option<Held>
    ensures { result ≡ held_of (slice_get cells.now index) }
{
    match cells.get(index) {
        Some(Cell::Holds(held)) => Some(*held),
        Some(Cell::Open) | None => None,
    }
}

/// Stores a word into the variable of a cell.
fn store_at(cells: &mut Vec<Cell>, index: usize, word: u32)
    ensures { StoresAt index word cells.old.items cells.new.items }
{
    if let Some(held) = held_at(cells.as_slice(), index) {
        cells[index] = Cell::Holds(Held {
            name: held.name,
            value: Value {
                word,
                is_unsigned: held.value.is_unsigned,
            },
            hidden: held.hidden,
        });
    }
}

/// A new variable.
fn push(
    cells: &mut Vec<Cell>,
    first: u32,
    latest: &mut Vec<usize>,
    name: u32,
    value: Value,
) -> Result<(), AllocError>
    requires { Kept first latest.old.items cells.old.items }
    ensures kept { Kept first latest.new.items cells.new.items }
    ensures entered { IfOk result (λ u. scopes_of (reverse cells.new.items) ≡ entered name value (scopes_of (reverse cells.old.items))) }
{
    let index = offset(first, name);
    table::grow(latest, index)?;
    let hidden = latest[index];
    cells.push(Cell::Holds(Held {
        name,
        value,
        hidden,
    }))?;
    latest[index] = cells.len();
    Ok(())
}

/// Leaves out the newest cell; whether it was a variable.
fn leave(cells: &mut Vec<Cell>, first: u32, latest: &mut Vec<usize>) -> bool
    requires { Kept first latest.old.items cells.old.items }
    ensures kept { Kept first latest.new.items cells.new.items }
    ensures left { Leaves result cells.old.items cells.new.items }
{
    match cells.pop() {
        Some(Cell::Holds(held)) => {
            latest[offset(first, held.name)] = held.hidden;
            true
        }
        Some(Cell::Open) | None => false,
    }
}
