//! The greatest weight of a chain of calls.

ghost use Rattle.std.specs.Prelude.{◌≡◌, ◌+◌, ◌-◌, ◌^◌, ℕ, [], map, min, length, slice_index_or, true, false, ◌∷◌, IfOk};
ghost use Rattle.c_syntax.specs.Sizes.{greatest};
ghost use Rattle.c_syntax.specs.Graph.{functions};
ghost use Rattle.c_calls.specs.Reached.{AreFollowed};
ghost use Rattle.check_limits.specs.Calls.{capped};
ghost use Rattle.check_limits.specs.Tables.{is_wanted, chain_over, AreFurther};

use crate::weights::weight_under;
use c_calls::CallGraph;
use c_syntax::TopItem;
use hard_words::OutOfMemory;
use sqlite_items::Items;
use std::alloc::Global;

/// What a list says under a name.
pub(crate) fn holds_under(list: &[bool], name: usize) -> bool
    ensures { result ≡ slice_index_or list.now name false }
{
    match list.get(name) {
        None => false,
        Some(holds) => *holds,
    }
}

/// How many functions there are, each as often as it is declared.
pub(crate) fn count_functions(items: &[TopItem]) -> usize
    ensures { result ≡ length (functions items.now) }
{
    let mut count = 0usize;
    for item in items {
        count += count_function(item);
    }
    count
}

fn count_function(item: &TopItem) -> usize
    ensures { result ≡ length (functions (item.now ∷ [])) }
{
    match item {
        TopItem::Globals(_) => 0,
        TopItem::Function(_) => 1,
    }
}

// The greatest of the numbers under these names.
fn greatest_under(numbers: &[u64], names: &[u32]) -> u64
    ensures { result ≡ greatest (map (λ n. slice_index_or numbers.now n 0) names.now) }
{
    let mut most = 0u64;
    for name in names {
        most = most.max(weight_under(numbers, *name as usize));
    }
    most
}

// Whether a function is the one that is begun with, or one that it reaches.
fn is_wanted(from: u32, reached: &[bool], name: usize) -> bool
    ensures { result ≡ is_wanted from reached.now name }
{
    name == from as usize || holds_under(reached, name)
}

// The number under a name, one call further.
fn number(
    graph: &CallGraph,
    weights: &[u64],
    from: u32,
    reached: &[bool],
    numbers: &[u64],
    name: usize,
) -> u64
    ensures { is_wanted from reached.now name ≡ true → result ≡ capped (slice_index_or weights.now name 0 + greatest (map (λ n. slice_index_or numbers.now n 0) (slice_index_or graph.now name []))) }
{
    if is_wanted(from, reached, name) {
        let most = greatest_under(numbers, graph.callees(name));
        weight_under(weights, name).saturating_add(most)
    } else {
        0
    }
}

// The numbers under the names, one call further.
fn further(
    alloc: Global,
    graph: &CallGraph,
    weights: &[u64],
    from: u32,
    reached: &[bool],
    numbers: &[u64],
) -> Result<Items<u64>, OutOfMemory>
    ensures { IfOk result (λ next. AreFurther graph.now weights.now from reached.now numbers.now next) }
{
    let mut next = Items::new(alloc);
    let count = graph.len().max(weights.len());
    for name in 0..count {
        next.push(number(graph, weights, from, reached, numbers, name))?;
    }
    Ok(next)
}

fn are_same(a: &[u64], b: &[u64]) -> bool
    ensures { result ≡ true → a.now ≡ b.now }
{
    a == b
}

/// The weight of the heaviest chain of at most so many calls from a function, or 18446744073709551615, where it is greater. The
/// time grows with the names and the calls, times the functions in the longest chain from it.
pub(crate) fn heaviest_chain(
    alloc: Global,
    graph: &CallGraph,
    weights: &[u64],
    from: u32,
    reached: &[bool],
    most: usize,
) -> Result<u64, OutOfMemory>
    requires { AreFollowed graph.now from reached.now }
    ensures { IfOk result (λ r. r ≡ capped (chain_over graph.now weights.now most from)) }
{
    let mut numbers: Items<u64> = Items::new(alloc);
    let mut done = 0;
    while done < most {
        let next = further(alloc, graph, weights, from, reached, numbers.as_slice())?;
        if are_same(next.as_slice(), numbers.as_slice()) {
            return Ok(weight_under(next.as_slice(), from as usize));
        }
        numbers = next;
        done += 1;
    }
    Ok(weight_under(numbers.as_slice(), from as usize))
}
