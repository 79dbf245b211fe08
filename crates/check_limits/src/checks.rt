//! What is looked at after the walk, in order.

ghost use Rattle.std.specs.Prelude.{◌≡◌, IsTrue, ◌↔◌, All, Option, not, nat_lt};
ghost use Rattle.std.specs.Result.{IsOk};
ghost use Rattle.c_syntax.specs.Costs.{program_cost};
ghost use Rattle.c_syntax.specs.Graph.{function_named};
ghost use Rattle.c_meaning.specs.Meaning.{source_names};
ghost use Rattle.check_rules.specs.Fault.{refuse, require};
ghost use Rattle.check_rules.specs.Walk.{walk_program};
ghost use Rattle.check_rules.specs.Limits.{first_without_body, is_main, first_too_heavy, most_cost, most_store, store, within_limits};
ghost use Rattle.check_rules.specs.declared.error.CheckKind.TheVariants.{NoBody, NoMain, FrameTooLarge, TooManyBlocks, StoreTooLarge};
ghost use Rattle.check_scopes.specs.Gave.{Gave};
ghost use Rattle.check_limits.specs.Tables.{AreWeights};

use crate::calls::in_items;
use crate::main_function::{has_main, heavy};
use crate::store::words_of_store;
use crate::weights::weights_of;
use c_costs::block_cost;
use c_syntax::{Program, TopItem};
use check_expressions::require;
use check_rules::{CheckError, CheckKind};
use std::alloc::Global;

fn refuse(at: Option<u32>, kind: CheckKind) -> Result<(), CheckError>
    ensures { Gave result (refuse at kind) }
{
    match at {
        None => Ok(()),
        Some(at) => Err(CheckError::Fault { kind, at }),
    }
}

fn bodies_are_there(items: &[TopItem], weights: &[u64]) -> Result<(), CheckError>
    requires { AreWeights items.now weights.now }
    ensures { Gave result (refuse (first_without_body source_names items.now) NoBody) }
{
    refuse(in_items(weights, items), CheckKind::NoBody)
}

fn main_is_there(items: &[TopItem]) -> Result<(), CheckError>
    ensures { Gave result (require (is_main (function_named 0 items.now)) NoMain 0) }
{
    require(has_main(items), CheckKind::NoMain, 0)
}

fn frames_fit(items: &[TopItem]) -> Result<(), CheckError>
    ensures { Gave result (refuse (first_too_heavy items.now) FrameTooLarge) }
{
    refuse(heavy(items), CheckKind::FrameTooLarge)
}

fn blocks_fit(alloc: Global, program: &Program) -> Result<(), CheckError>
    ensures { Gave result (require (not (nat_lt most_cost (program_cost program.now))) TooManyBlocks 0) }
{
    match block_cost(alloc, program) {
        Err(_) => Err(CheckError::OutOfMemory),
        Ok(cost) => require(cost <= 16000, CheckKind::TooManyBlocks, 0),
    }
}

fn store_fits(alloc: Global, program: &Program, weights: &[u64]) -> Result<(), CheckError>
    requires { AreWeights program.now.items weights.now }
    ensures { Gave result (require (not (nat_lt most_store (store source_names program.now))) StoreTooLarge 0) }
{
    match words_of_store(alloc, program.items.as_slice(), weights) {
        Err(_) => Err(CheckError::OutOfMemory),
        Ok(words) => require(words <= 32768, CheckKind::StoreTooLarge, 0),
    }
}

fn with_weights(alloc: Global, program: &Program, weights: &[u64]) -> Result<(), CheckError>
    requires { AreWeights program.now.items weights.now }
    ensures { Gave result (within_limits source_names program.now) }
{
    let items = program.items.as_slice();
    bodies_are_there(items, weights)?;
    main_is_there(items)?;
    frames_fit(items)?;
    blocks_fit(alloc, program)?;
    store_fits(alloc, program, weights)
}

/// What is looked at after the walk: that each function that is called has a body, that there is an `int main(void)` with a
/// body, and the limits of the sizes. The walk takes the program, so this is asked for before it and answered after it.
pub fn limits(alloc: Global, program: &Program) -> Result<(), CheckError>
    ensures { Gave result (within_limits source_names program.now) }
{
    match weights_of(alloc, program.items.as_slice()) {
        Err(_) => Err(CheckError::OutOfMemory),
        Ok(weights) => with_weights(alloc, program, weights.as_slice()),
    }
}
