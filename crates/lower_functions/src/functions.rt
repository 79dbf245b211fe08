//! A function, lowered.

ghost use Rattle.std.specs.Prelude.{◌≡◌, ◌≤◌, ◌<◌, ◌^◌, ◌+◌, map, length, IfOk, OnOk};
ghost use Rattle.c_syntax.specs.Graph.{body_of};
ghost use Rattle.c_syntax.specs.Sizes.{function_nodes};
ghost use Rattle.c_syntax.specs.Costs.{function_weight};
ghost use Rattle.c_syntax.specs.Labels.{bare_clauses};
ghost use Rattle.lower_rules.specs.Programs.{variables_of};
ghost use Rattle.lower_expressions.specs.Names.{variable_of, names_of, AreKnown};
ghost use Rattle.lower_names.specs.Stands.{KnownOutside};
ghost use Rattle.lower_functions.specs.Frames.{counted, HasRoom};
ghost use Rattle.lower_functions.specs.Lowered.{bindings_in, extra_pairs, counter_with, low_with, HasNumbers};

use crate::bodies::{Counter, body_blocks};
use c_costs::weight;
use c_syntax::{Function, Stmt};
use hard_words::{OutOfMemory, Sequence};
use lower_expressions::{Known, Table};
use lower_names::{behind_temporaries, enter, leave, returns_value, variables};
use mid_blocks::{MidBlock, MidFunction};
use sqlite_items::Items;
use std::alloc::Global;

/// Where a function counts its active calls, if it is recursive.
fn counter(globals: u32, is_recursive: bool, f: &Function) -> Option<Counter>
    requires { function_weight f.now + 2 < 2 ^ 32 }
    ensures counter { counted result ≡ counter_with globals is_recursive f.now }
    ensures room { HasRoom result }
{
    if is_recursive {
        Some(Counter {
            global: globals,
            spare: behind_temporaries(f),
        })
    } else {
        None
    }
}

/// The blocks of a function that is entered.
fn blocks(
    alloc: Global,
    table: &Table,
    f: &Function,
    is_recursive: bool,
) -> Result<Sequence<MidBlock>, OutOfMemory>
    requires known { AreKnown table.now }
    requires variables { map variable_of table.now.variables.items ≡ variables_of f.now }
    requires numbers { HasNumbers (names_of table.now) f.now }
    requires globals { length table.now.globals.items < 2 ^ 32 }
    ensures { IfOk result (λ blocks. blocks ≡ (low_with (names_of table.now) (length table.now.globals.items) is_recursive f.now).blocks) }
{
    let counter = counter(table.globals.len() as u32, is_recursive, f);
    let free = table.variables.len() as u32;
    let none: Items<Stmt> = Items::new(alloc);
    let body = match &f.body {
        None => none.as_slice(),
        Some(body) => body.as_slice(),
    };
    body_blocks(alloc, table, body, returns_value(body), free, counter)
}

/// The pairs that a recursive function has more.
fn extra_pairs(is_recursive: bool) -> u32
    ensures { result ≡ extra_pairs is_recursive }
{
    if is_recursive { 2 } else { 0 }
}

/// A function that is entered, lowered.
fn entered(
    alloc: Global,
    table: &Table,
    f: &Function,
    is_recursive: bool,
) -> Result<MidFunction, OutOfMemory>
    requires known { AreKnown table.now }
    requires variables { map variable_of table.now.variables.items ≡ variables_of f.now }
    requires numbers { HasNumbers (names_of table.now) f.now }
    requires globals { length table.now.globals.items < 2 ^ 32 }
    ensures { IfOk result (λ m. m ≡ low_with (names_of table.now) (length table.now.globals.items) is_recursive f.now) }
{
    let pairs = weight(f) as u32 + extra_pairs(is_recursive);
    let blocks = blocks(alloc, table, f, is_recursive)?;
    Ok(MidFunction {
        params: f.params.len() as u32,
        variables: pairs - 1,
        pairs,
        blocks,
    })
}

/// A function, lowered. No function is entered before and behind it; `before` is what each name is known as then.
pub fn function(
    alloc: Global,
    table: &mut Table,
    before: &[Known],
    f: &Function,
    is_recursive: bool,
) -> Result<MidFunction, OutOfMemory>
    requires known { KnownOutside table.old.globals.items table.old.known.items }
    requires before { KnownOutside table.old.globals.items before.now }
    requires few { length table.old.globals.items < 2 ^ 32 }
    requires nodes { function_nodes f.now.body f.now.params ≤ 1048576 }
    requires labels { bare_clauses f.now ≡ 0 }
    ensures globals { table.new.globals.items ≡ table.old.globals.items }
    ensures callees { table.new.callees.items ≡ table.old.callees.items }
    ensures outside { OnOk result (KnownOutside table.new.globals.items table.new.known.items) }
    ensures function { IfOk result (λ m. m ≡ low_with (bindings_in table.old.globals.items table.old.callees.items (variables_of f.now)) (length table.old.globals.items) is_recursive f.now) }
{
    let variables = variables(alloc, f)?;
    enter(table, variables)?;
    let m = entered(alloc, table, f, is_recursive)?;
    leave(table, before);
    Ok(m)
}
