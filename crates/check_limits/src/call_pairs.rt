//! The pairs that the chains of calls from a function take at most.

ghost use Rattle.std.specs.Prelude.{◌≡◌, ◌+◌, ◌-◌, ◌^◌, ◌==◌, ◌&&◌, ◌||◌, not, false, true, if◌then◌else◌, [], ◌∷◌, map, sum, min, slice_index_or, IfOk, option_to_list};
ghost use Rattle.std.specs.Option.{option_copied};
ghost use Rattle.c_syntax.specs.Sizes.{greatest};
ghost use Rattle.c_syntax.specs.Costs.{function_weight};
ghost use Rattle.check_limits.specs.Calls.{capped, reached_from, counter_pairs, call_pairs};
ghost use Rattle.check_limits.specs.Tables.{chosen, AreWeights};

use crate::chains::{count_functions, heaviest_chain, holds_under};
use crate::weights::weights_of;
use c_calls::{call_graph, reached_from, recursive_in};
use c_costs::weight;
use c_syntax::{Function, TopItem};
use hard_words::OutOfMemory;
use std::alloc::Global;

/// The pairs that the chains of calls from a function take at most, and the one of the counter of nested calls, where one of
/// the functions that it reaches reaches itself.
#[derive(Clone, Copy)]
pub(crate) struct CallPairs {
    pub(crate) counter: u64,
    pub(crate) pairs: u64,
}

// Whether a function is the one that is begun with or one that it reaches, and reaches itself or doesn't.
fn is_chosen(
    function: &Function,
    from: u32,
    reached: &[bool],
    recursive: &[bool],
    is_deep: bool,
) -> bool
    ensures { result ≡ ((function.now.name == from || slice_index_or reached.now function.now.name false) && (if slice_index_or recursive.now function.now.name false then is_deep else not is_deep)) }
{
    let name = function.name as usize;
    let is_reached = function.name == from || holds_under(reached, name);
    let is_recursive = holds_under(recursive, name);
    is_reached && (if is_recursive { is_deep } else { !is_deep })
}

// The function of an item, if it has a body and is chosen.
fn chosen<'a>(
    item: &'a TopItem,
    from: u32,
    reached: &[bool],
    recursive: &[bool],
    is_deep: bool,
) -> Option<&'a Function>
    ensures { option_to_list (option_copied result) ≡ chosen from reached.now recursive.now is_deep (item.now ∷ []) }
{
    match item {
        TopItem::Globals(_) => None,
        TopItem::Function(function) => match &function.body {
            None => None,
            Some(_) => {
                if is_chosen(function, from, reached, recursive, is_deep) {
                    Some(function)
                } else {
                    None
                }
            }
        },
    }
}

// The weight of a function that reaches itself, with a return address and a number of pairs saved.
fn deep_weight(item: &TopItem, from: u32, reached: &[bool], recursive: &[bool]) -> u64
    ensures { result ≡ capped (greatest (map (λ f. function_weight f + 2) (chosen from reached.now recursive.now true (item.now ∷ [])))) }
{
    match chosen(item, from, reached, recursive, true) {
        None => 0,
        Some(function) => weight(function).saturating_add(2),
    }
}

// The greatest of these, 0 where there is none.
fn deepest(items: &[TopItem], from: u32, reached: &[bool], recursive: &[bool]) -> u64
    ensures { result ≡ capped (greatest (map (λ f. function_weight f + 2) (chosen from reached.now recursive.now true items.now))) }
{
    let mut most = 0u64;
    for item in items {
        most = most.max(deep_weight(item, from, reached, recursive));
    }
    most
}

// The weight of a function that doesn't reach itself.
fn flat_weight(item: &TopItem, from: u32, reached: &[bool], recursive: &[bool]) -> u64
    ensures { result ≡ capped (sum (map function_weight (chosen from reached.now recursive.now false (item.now ∷ [])))) }
{
    match chosen(item, from, reached, recursive, false) {
        None => 0,
        Some(function) => weight(function),
    }
}

// The sum of these.
fn flat_weights(items: &[TopItem], from: u32, reached: &[bool], recursive: &[bool]) -> u64
    ensures { result ≡ capped (sum (map function_weight (chosen from reached.now recursive.now false items.now))) }
{
    let mut pairs = 0u64;
    for item in items {
        pairs = pairs.saturating_add(flat_weight(item, from, reached, recursive));
    }
    pairs
}

/// The pairs of the chains of calls from a function, or 18446744073709551615, where they need more, and of the counter. The
/// time is that of [`recursive_in`] and of [`heaviest_chain`].
pub(crate) fn call_pairs(
    alloc: Global,
    items: &[TopItem],
    weights: &[u64],
    from: u32,
) -> Result<CallPairs, OutOfMemory>
    requires { AreWeights items.now weights.now }
    ensures counter { IfOk result (λ r. r.counter ≡ counter_pairs (reached_from from items.now true)) }
    ensures pairs { IfOk result (λ r. r.pairs ≡ capped (call_pairs from items.now)) }
{
    let graph = call_graph(alloc, items)?;
    let recursive = recursive_in(alloc, &graph)?;
    let reached = reached_from(alloc, &graph, from)?;
    let deep = deepest(items, from, &reached, &recursive);
    if deep == 0 {
        let most = count_functions(items);
        let pairs = heaviest_chain(alloc, &graph, weights, from, &reached, most)?;
        Ok(CallPairs { counter: 0, pairs })
    } else {
        let flat = flat_weights(items, from, &reached, &recursive);
        let calls = deep.saturating_mul(257);
        let pairs = calls.saturating_add(flat);
        Ok(CallPairs { counter: 1, pairs })
    }
}

/// The pairs that the chains of calls from a function take at most, or 18446744073709551615, where they take more: the weight
/// of its greatest chain, where it reaches no function that reaches itself; else 257 times the weight and two of the heaviest
/// of those, and the weight of each other function that it reaches.
pub fn pairs_of_calls(alloc: Global, items: &[TopItem], from: u32) -> Result<u64, OutOfMemory>
    ensures { IfOk result (λ r. r ≡ capped (call_pairs from items.now)) }
{
    let weights = weights_of(alloc, items)?;
    let calls = call_pairs(alloc, items, weights.as_slice(), from)?;
    Ok(calls.pairs)
}
