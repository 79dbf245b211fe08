//! Lowering.

ghost use Rattle.std.specs.Prelude.{◌≡◌, IfOk, map, sum, length};
ghost use Rattle.c_meaning.specs.Meaning.{globals};
ghost use Rattle.check_rules.specs.Leaf.{IsLightLeaf};
ghost use Rattle.check_rules.specs.Limits.{resolved_names};
ghost use Rattle.lower_rules.specs.Room.{room};
ghost use Rattle.c_syntax.specs.Labels.{bare_clauses};
ghost use Rattle.c_syntax.specs.Graph.{with_bodies};
ghost use Rattle.lower_rules.specs.Lowered.{IsLowered};
ghost use Rattle.mid_blocks.specs.Leaf.{IsOneLeaf};
ghost use Rattle.mid_lower.specs.Facts.{Facts};

use crate::call_room::room;
use crate::laws::composes;
use c_calls::recursive_functions;
use c_syntax::TopItem;
use check_rules::Checked;
use hard_words::OutOfMemory;
use lower_checked::{
    checked_fits, counter_unused, few_blocks, has_main, has_room, leads_inside, light_frames,
    light_leaf_is_small, lowered_room, none_recursive, one_each, tree_holds_words,
};
use lower_functions::program;
use lower_names::{Names, shapes};
use mid_blocks::Mid;
use mid_prune::{prune, reached, trim};
use std::alloc::Global;

/// What is known of a checked program where it is lowered.
fn facts(checked: &Checked)
    requires labelled { sum (map bare_clauses (with_bodies checked.now.program.items)) ≡ 0 }
    ensures { Facts checked.now }
{
    checked_fits();
    one_each();
    light_frames();
    has_main();
    few_blocks();
    has_room();
    lowered_room();
    none_recursive();
    counter_unused();
    tree_holds_words(checked.program().items.as_slice());
}

/// How many variables there are at file scope.
fn count_globals(alloc: Global, items: &[TopItem]) -> Result<usize, OutOfMemory>
    ensures { IfOk result (λ count. count ≡ length (globals items.now)) }
{
    let found = shapes(alloc, items)?;
    Ok(found.len())
}

/// The blocks of a checked program whose chains of calls take so many pairs.
fn lower_in_room(alloc: Global, checked: &Checked, chain_pairs: u32) -> Result<Mid, OutOfMemory>
    requires known { Facts checked.now }
    requires room { chain_pairs ≡ room checked.now.program.items checked.now.main }
    ensures lowered { IfOk result (λ mid. IsLowered checked.now mid) }
    ensures leaf { IfOk result (λ mid. IsLightLeaf (resolved_names checked.now) checked.now.program → IsOneLeaf mid) }
{
    composes();
    light_leaf_is_small();
    leads_inside();
    let items = checked.program().items.as_slice();
    let names = Names {
        main: checked.main(),
        in_word: 0,
        out_word: 1,
    };
    let count = count_globals(alloc, items)?;
    let recursive = recursive_functions(alloc, items)?;
    let low = program(alloc, items, names, recursive.as_slice(), chain_pairs)?;
    let marks = reached(alloc, &low)?;
    let kept = prune(alloc, low, marks.as_slice())?;
    Ok(trim(kept, count))
}

/// The blocks of a checked program: what it is lowered to, without what can't be reached, and without the counter of nested calls where
/// nothing uses it. Where `main` has a weight of at most 9 and calls no function with a body, they are one function that has at most
/// eight variables and calls nothing.
///
/// # Errors
///
/// [`OutOfMemory`] where there is no memory.
pub fn lower(alloc: Global, checked: &Checked) -> Result<Mid, OutOfMemory>
    requires { sum (map bare_clauses (with_bodies checked.now.program.items)) ≡ 0 }
    ensures lowered { IfOk result (λ mid. IsLowered checked.now mid) }
    ensures leaf { IfOk result (λ mid. IsLightLeaf (resolved_names checked.now) checked.now.program → IsOneLeaf mid) }
{
    facts(checked);
    let items = checked.program().items.as_slice();
    let chain_pairs = room(alloc, items, checked.main())?;
    lower_in_room(alloc, checked, chain_pairs)
}
