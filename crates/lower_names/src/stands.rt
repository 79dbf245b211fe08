//! What each name stands for: outside of functions, and in the function that is entered.

ghost use Rattle.std.specs.Prelude.{◌≡◌, ℕ, ◌<◌, ◌^◌, ◌==◌, if◌then◌else◌, length, slice_index_or, slice_set, IfOk, OnOk};
ghost use Rattle.lower_expressions.specs.Names.{unknown, AreKnown};
ghost use Rattle.lower_names.specs.Stands.{global_known, variable_known, among, KnownOutside, KnownInside};

use hard_words::OutOfMemory;
use lower_expressions::{Known, Shape, Symbol, Table, Variable};
use std::alloc::Global;

/// Makes room for a name.
fn grow(known: &mut Vec<Known>, index: usize) -> Result<(), OutOfMemory>
    ensures same { (q : ℕ) → slice_index_or known.new.items q unknown ≡ slice_index_or known.old.items q unknown }
    ensures room { OnOk result (index < length known.new.items) }
{
    while known.len() <= index {
        known.push(Known {
            symbol: Symbol::Nothing,
            is_unsigned: false,
        })?;
    }
    Ok(())
}

/// Notes what a name is known as.
fn put(known: &mut Vec<Known>, name: u32, noted: Known) -> Result<(), OutOfMemory>
    ensures { OnOk result ((q : ℕ) → slice_index_or known.new.items q unknown ≡ (if name == q then noted else slice_index_or known.old.items q unknown)) }
{
    let index = name as usize;
    grow(known, index)?;
    known[index] = noted;
    Ok(())
}

/// What a global with a number is known as.
fn global_known(number: u32, g: &Shape) -> Known
    ensures { result ≡ global_known number g.now }
{
    let symbol = if g.is_array {
        Symbol::Array(number)
    } else {
        Symbol::Global(number)
    };
    Known {
        symbol,
        is_unsigned: g.is_unsigned,
    }
}

/// What a variable with a number is known as.
fn variable_known(number: u32, v: &Variable) -> Known
    ensures { result ≡ variable_known number v.now }
{
    Known {
        symbol: Symbol::Local(number),
        is_unsigned: v.is_unsigned,
    }
}

/// What each name is known as outside of functions: the first global of the name.
pub fn outside(alloc: Global, globals: &[Shape]) -> Result<Vec<Known>, OutOfMemory>
    requires { length globals.now < 2 ^ 32 }
    ensures { IfOk result (λ known. KnownOutside globals.now known.items) }
{
    let mut known = Vec::new(alloc);
    let mut number = globals.len();
    while number > 0 {
        number -= 1;
        let g = &globals[number];
        put(&mut known, g.name, global_known(number as u32, g))?;
    }
    Ok(known)
}

/// Notes the variables of a function, the first of each name.
fn fill(known: &mut Vec<Known>, variables: &[Variable]) -> Result<(), OutOfMemory>
    requires { length variables.now < 2 ^ 32 }
    ensures { OnOk result ((q : ℕ) → slice_index_or known.new.items q unknown ≡ among q 0 variables.now (slice_index_or known.old.items q unknown)) }
{
    let mut number = variables.len();
    while number > 0 {
        number -= 1;
        let v = &variables[number];
        put(known, v.name, variable_known(number as u32, v))?;
    }
    Ok(())
}

/// Enters a function with these variables, where none is entered: each name is known as what it stands for in it.
#[tactic(auto, using(crate::proofs::Known::are_known))]
pub fn enter(table: &mut Table, variables: Vec<Variable>) -> Result<(), OutOfMemory>
    requires few { length variables.items < 2 ^ 32 }
    requires outside { KnownOutside table.old.globals.items table.old.known.items }
    ensures variables { OnOk result (table.new.variables.items ≡ variables.items) }
    ensures globals { table.new.globals.items ≡ table.old.globals.items }
    ensures callees { table.new.callees.items ≡ table.old.callees.items }
    ensures inside { OnOk result (KnownInside table.new.variables.items table.new.globals.items table.new.known.items) }
    ensures known { OnOk result (AreKnown table.new) }
{
    fill(&mut table.known, variables.as_slice())?;
    table.variables = variables;
    Ok(())
}

/// What a name is known as.
fn known_at(known: &[Known], name: u32) -> Known
    ensures { result ≡ slice_index_or known.now name unknown }
{
    match known.get(name as usize) {
        Some(known) => *known,
        None => Known {
            symbol: Symbol::Nothing,
            is_unsigned: false,
        },
    }
}

/// Notes what a name is known as, where there is room for it.
fn reset(known: &mut Vec<Known>, name: u32, noted: Known)
    ensures { known.new.items ≡ slice_set known.old.items name noted }
{
    if let Some(place) = known.get_mut(name as usize) {
        *place = noted;
    }
}

/// Notes for each variable of a function what its name is known as outside.
fn restore(known: &mut Vec<Known>, variables: &[Variable], before: &[Known])
    requires { (q : ℕ) → slice_index_or known.old.items q unknown ≡ among q 0 variables.now (slice_index_or before.now q unknown) }
    ensures { (q : ℕ) → slice_index_or known.new.items q unknown ≡ slice_index_or before.now q unknown }
{
    for v in variables {
        reset(known, v.name, known_at(before, v.name));
    }
}

/// Leaves the function that is entered. `before` is what each name is known as outside of functions.
pub fn leave(table: &mut Table, before: &[Known])
    requires inside { KnownInside table.old.variables.items table.old.globals.items table.old.known.items }
    requires before { KnownOutside table.old.globals.items before.now }
    ensures globals { table.new.globals.items ≡ table.old.globals.items }
    ensures callees { table.new.callees.items ≡ table.old.callees.items }
    ensures outside { KnownOutside table.new.globals.items table.new.known.items }
{
    restore(&mut table.known, table.variables.as_slice(), before);
}
