//! What calls lead to from one function, by a search that looks at each function once.

ghost use Rattle.std.specs.Prelude.{◌≡◌, ◌<◌, ◌≤◌, ◌+◌, ℕ, List, length, slice_index_or, All, IfOk, OnOk, IsTrue, ◌↔◌};
ghost use Rattle.c_syntax.specs.declared.tree.TopItem.{TopItem as Item};
ghost use Rattle.c_calls.specs.Reached.{IsGraph, AreRecursive, AreReached, AreFollowed};
ghost use Rattle.c_calls.specs.Lists.{IsClosed, Leads};
ghost use Rattle.c_calls.specs.Search.{Marked};

use crate::graph::{CallGraph, call_graph};
use c_syntax::TopItem;
use hard_words::OutOfMemory;
use sqlite_items::Items;
use std::alloc::Global;

// Marks each of the names that isn't marked yet, and puts it behind those that wait.
fn mark(
    names: &[u32],
    stamp: usize,
    marks: &mut [usize],
    waiting: &mut Items<usize>,
) -> Result<(), OutOfMemory>
    requires { All (λ name. name < length marks.old) names.now }
    ensures { OnOk result (Marked names.now stamp marks.old waiting.old marks.new waiting.new) }
{
    for name in names {
        let name = *name as usize;
        if marks[name] != stamp {
            marks[name] = stamp;
            waiting.push(name)?;
        }
    }
    Ok(())
}

// Marks all that calls lead to.
fn search(
    alloc: Global,
    graph: &CallGraph,
    start: usize,
    stamp: usize,
    marks: &mut [usize],
) -> Result<(), OutOfMemory>
    requires long { length marks.old ≡ length graph.now }
    requires fresh { (name : ℕ) → slice_index_or marks.old name 0 < stamp }
    ensures marked { OnOk result ((name : ℕ) → (slice_index_or marks.new name 0 ≡ stamp) ↔ Leads graph.now start name) }
    ensures below { OnOk result ((name : ℕ) → slice_index_or marks.new name 0 ≤ stamp) }
{
    let _closed = graph.len();
    let mut waiting = Items::new(alloc);
    waiting.push(start)?;
    let mut done = 0;
    while done < waiting.len() {
        let from = waiting.as_slice()[done];
        mark(graph.callees(from), stamp, marks, &mut waiting)?;
        done += 1;
    }
    Ok(())
}

// Whether calls lead from a function back to it.
fn leads_back(
    alloc: Global,
    graph: &CallGraph,
    name: usize,
    marks: &mut [usize],
) -> Result<bool, OutOfMemory>
    requires long { length marks.old ≡ length graph.now }
    requires within { name < length marks.old }
    requires fresh { (x : ℕ) → slice_index_or marks.old x 0 < name + 1 }
    ensures answer { IfOk result (λ b. IsTrue b ↔ Leads graph.now name name) }
    ensures below { OnOk result ((x : ℕ) → slice_index_or marks.new x 0 < name + 2) }
{
    search(alloc, graph, name, name + 1, marks)?;
    Ok(marks[name] == name + 1)
}

/// Under each name whether its function reaches itself by calls. The time grows with the names, and for each function with
/// the calls in the bodies that it reaches: at most with the number of functions times the number of calls.
pub fn recursive_in(alloc: Global, graph: &CallGraph) -> Result<Vec<bool>, OutOfMemory>
    ensures { IfOk result (λ r. (items : List Item) → IsGraph items graph.now → AreRecursive items r.items) }
{
    let count = graph.len();
    let mut marks = vec![in alloc; 0usize; count]?;
    let mut recursive = Vec::new(alloc);
    for name in 0..count {
        recursive.push(leads_back(alloc, graph, name, &mut marks)?)?;
    }
    Ok(recursive)
}

/// Under each name whether its function, by its name, reaches itself by calls. The time is that of [`recursive_in`] and of
/// the tree's size.
pub fn recursive_functions(alloc: Global, items: &[TopItem]) -> Result<Vec<bool>, OutOfMemory>
    ensures { IfOk result (λ r. AreRecursive items.now r.items) }
{
    let graph = call_graph(alloc, items)?;
    recursive_in(alloc, &graph)
}

/// Under each name whether calls lead to its function from one function. The time grows with the names, and with the calls
/// in the bodies that are reached.
pub fn reached_from(alloc: Global, graph: &CallGraph, name: u32) -> Result<Vec<bool>, OutOfMemory>
    ensures reached { IfOk result (λ r. (items : List Item) → IsGraph items graph.now → AreReached items name r.items) }
    ensures followed { IfOk result (λ r. AreFollowed graph.now name r.items) }
{
    let mut marks = vec![in alloc; 0usize; graph.len()]?;
    search(alloc, graph, name as usize, 1, &mut marks)?;
    let mut reached = Vec::new(alloc);
    for mark in &marks {
        reached.push(*mark == 1)?;
    }
    Ok(reached)
}
