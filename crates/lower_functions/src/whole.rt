//! A whole program, lowered: its functions, `main` first, and the words of its globals.

ghost use Rattle.std.specs.Prelude.{◌≡◌, ℕ, ◌+◌, ◌≤◌, ◌<◌, ◌^◌, ◌++◌, ◌∷◌, [], ◌||◌, false, if◌then◌else◌, map, sum, length, slice_index_or, IfOk, OnOk};
ghost use Rattle.std.specs.List.{list_any};
ghost use Rattle.c_syntax.specs.Graph.{is_recursive};
ghost use Rattle.c_syntax.specs.Sizes.{item_nodes};
ghost use Rattle.c_meaning.specs.Meaning.{globals};
ghost use Rattle.c_syntax.specs.Labels.{bare_clauses};
ghost use Rattle.c_syntax.specs.Graph.{with_bodies};
ghost use Rattle.lower_rules.specs.Programs.{object_words, in_number_order, any_recursive, low_program};
ghost use Rattle.lower_names.specs.Stands.{KnownOutside};
ghost use Rattle.lower_names.specs.Calls.{chosen, meant, AreCallees};
ghost use Rattle.lower_functions.specs.Lowered.{low_among, is_marked};

use crate::functions::function;
use c_syntax::TopItem;
use hard_words::{OutOfMemory, Sequence, Words};
use lower_expressions::{Known, Shape, Table};
use lower_names::{Names, callees, chosen, global_words, outside, shapes};
use mid_blocks::{Mid, MidFunction};
use std::alloc::Global;

/// Whether the function of a name is marked.
fn is_marked(marks: &[bool], name: u32) -> bool
    ensures { result ≡ is_marked marks.now name }
{
    match marks.get(name as usize) {
        Some(mark) => *mark,
        None => false,
    }
}

/// Adds the function that an external declaration is, if it is chosen.
fn push_item(
    alloc: Global,
    out: &mut Sequence<MidFunction>,
    table: &mut Table,
    before: &[Known],
    recursive: &[bool],
    main: u32,
    of_main: bool,
    item: &TopItem,
) -> Result<(), OutOfMemory>
    requires known { KnownOutside table.old.globals.items table.old.known.items }
    requires before { KnownOutside table.old.globals.items before.now }
    requires few { length table.old.globals.items < 2 ^ 32 }
    requires nodes { item_nodes item.now ≤ 1048576 }
    requires labels { sum (map bare_clauses (with_bodies (item.now ∷ []))) ≡ 0 }
    ensures globals { table.new.globals.items ≡ table.old.globals.items }
    ensures callees { table.new.callees.items ≡ table.old.callees.items }
    ensures outside { OnOk result (KnownOutside table.new.globals.items table.new.known.items) }
    ensures functions { OnOk result (out.new ≡ out.old ++ map (low_among table.old.globals.items table.old.callees.items recursive.now) (chosen of_main main (item.now ∷ []))) }
{
    match chosen(item, main, of_main) {
        None => Ok(()),
        Some(f) => {
            let m = function(alloc, table, before, f, is_marked(recursive, f.name))?;
            out.push(m)?;
            Ok(())
        }
    }
}

/// Adds the functions that are chosen, in the order of the text.
fn push_all(
    alloc: Global,
    out: &mut Sequence<MidFunction>,
    table: &mut Table,
    before: &[Known],
    recursive: &[bool],
    main: u32,
    of_main: bool,
    items: &[TopItem],
) -> Result<(), OutOfMemory>
    requires known { KnownOutside table.old.globals.items table.old.known.items }
    requires before { KnownOutside table.old.globals.items before.now }
    requires few { length table.old.globals.items < 2 ^ 32 }
    requires nodes { sum (map item_nodes items.now) ≤ 1048576 }
    requires labels { sum (map bare_clauses (with_bodies items.now)) ≡ 0 }
    ensures globals { table.new.globals.items ≡ table.old.globals.items }
    ensures callees { table.new.callees.items ≡ table.old.callees.items }
    ensures outside { OnOk result (KnownOutside table.new.globals.items table.new.known.items) }
    ensures functions { OnOk result (out.new ≡ out.old ++ map (low_among table.old.globals.items table.old.callees.items recursive.now) (chosen of_main main items.now)) }
{
    for item in items {
        push_item(alloc, out, table, before, recursive, main, of_main, item)?;
    }
    Ok(())
}

/// The functions of a program, `main` first.
fn all_functions(
    alloc: Global,
    table: &mut Table,
    before: &[Known],
    recursive: &[bool],
    main: u32,
    items: &[TopItem],
) -> Result<Sequence<MidFunction>, OutOfMemory>
    requires known { KnownOutside table.old.globals.items table.old.known.items }
    requires before { KnownOutside table.old.globals.items before.now }
    requires few { length table.old.globals.items < 2 ^ 32 }
    requires nodes { sum (map item_nodes items.now) ≤ 1048576 }
    requires labels { sum (map bare_clauses (with_bodies items.now)) ≡ 0 }
    ensures { IfOk result (λ all. all ≡ map (low_among table.old.globals.items table.old.callees.items recursive.now) (in_number_order main items.now)) }
{
    let mut all = Sequence::new(alloc);
    push_all(alloc, &mut all, table, before, recursive, main, true, items)?;
    push_all(
        alloc, &mut all, table, before, recursive, main, false, items,
    )?;
    Ok(all)
}

/// Whether an external declaration is a function with a body that is marked.
fn any_in_item(item: &TopItem, marks: &[bool]) -> bool
    ensures { result ≡ list_any (λ f. is_marked marks.now f.name) (with_bodies (item.now ∷ [])) }
{
    match item {
        TopItem::Globals(_) => false,
        TopItem::Function(f) => match &f.body {
            None => false,
            Some(_) => is_marked(marks, f.name),
        },
    }
}

fn either(a: bool, b: bool) -> bool
    ensures { result ≡ (a || b) }
{
    a || b
}

/// Whether some function with a body is marked.
fn any_marked(items: &[TopItem], marks: &[bool]) -> bool
    ensures { result ≡ list_any (λ f. is_marked marks.now f.name) (with_bodies items.now) }
{
    let mut any = false;
    for item in items {
        any = either(any, any_in_item(item, marks));
    }
    any
}

/// Adds the global in which active calls are counted.
fn push_counter(
    alloc: Global,
    all: &mut Sequence<Words>,
    is_counted: bool,
) -> Result<(), OutOfMemory>
    ensures { OnOk result (all.new ≡ all.old ++ (if is_counted then (0 ∷ []) ∷ [] else [])) }
{
    if is_counted {
        let mut words = Words::new(alloc);
        words.push(0)?;
        all.push(words)?;
    }
    Ok(())
}

/// The words of the globals of a program at the start.
fn all_words(
    alloc: Global,
    items: &[TopItem],
    recursive: &[bool],
) -> Result<Sequence<Words>, OutOfMemory>
    ensures { IfOk result (λ all. all ≡ map (λ g. object_words g.object) (globals items.now) ++ (if list_any (λ f. is_marked recursive.now f.name) (with_bodies items.now) then (0 ∷ []) ∷ [] else [])) }
{
    let mut all = global_words(alloc, items)?;
    push_counter(alloc, &mut all, any_marked(items, recursive))?;
    Ok(all)
}

/// The tables of a program, with no function entered.
fn table_of(
    alloc: Global,
    names: Names,
    items: &[TopItem],
    globals: Vec<Shape>,
    before: &[Known],
) -> Result<Table, OutOfMemory>
    requires { length (in_number_order names.main items.now) < 2 ^ 32 }
    ensures globals { IfOk result (λ t. t.globals.items ≡ globals.items) }
    ensures known { IfOk result (λ t. t.known.items ≡ before.now) }
    ensures callees { IfOk result (λ t. AreCallees (meant names) items.now t.callees.items) }
{
    let callees = callees(alloc, names, items)?;
    let known = Vec::from_slice(alloc, before)?;
    Ok(Table {
        variables: Vec::new(alloc),
        globals,
        known,
        callees,
    })
}

/// A program, lowered, with the room that was found for the stack. `recursive` says of each name whether its function is
/// recursive.
pub fn program(
    alloc: Global,
    items: &[TopItem],
    names: Names,
    recursive: &[bool],
    chain_pairs: u32,
) -> Result<Mid, OutOfMemory>
    requires nodes { sum (map item_nodes items.now) ≤ 1048576 }
    requires labels { sum (map bare_clauses (with_bodies items.now)) ≡ 0 }
    requires recursive { (name : ℕ) → slice_index_or recursive.now name false ≡ is_recursive items.now name }
    ensures { IfOk result (λ m. m ≡ low_program (meant names) (record { items = items.now }) chain_pairs) }
{
    let found = shapes(alloc, items)?;
    let before = outside(alloc, found.as_slice())?;
    let mut table = table_of(alloc, names, items, found, before.as_slice())?;
    let functions = all_functions(
        alloc,
        &mut table,
        before.as_slice(),
        recursive,
        names.main,
        items,
    )?;
    let globals = all_words(alloc, items, recursive)?;
    Ok(Mid {
        functions,
        globals,
        chain_pairs,
    })
}
