//! From a checked program to its code made twice.

ghost use Rattle.std.specs.Prelude.{◌≡◌, IfOk, map, sum};
ghost use Rattle.c_syntax.specs.Labels.{bare_clauses};
ghost use Rattle.c_syntax.specs.Graph.{with_bodies};
ghost use Rattle.mid_blocks.specs.Valid.{Valid};
ghost use Rattle.double_law.specs.Law.{AllFit};
ghost use Rattle.hard_items.specs.WellFormed.{WellFormed};

use check_rules::Checked;
use duplicate_pass::duplicate;
use frame_plan::plan;
use hard_items::HardProgram;
use hard_words::OutOfMemory;
use mid_blocks::{Mid, Places};
use mid_lower::lower;
use register_halves::assign;
use std::alloc::Global;

/// The items of a checked program, whose code is made twice.
///
/// # Errors
///
/// [`OutOfMemory`] where there is no memory.
pub fn doubled_program(alloc: Global, checked: &Checked) -> Result<HardProgram, OutOfMemory>
    requires { sum (map bare_clauses (with_bodies checked.now.program.items)) ≡ 0 }
    ensures { IfOk result WellFormed }
{
    let mid = lower(alloc, checked)?;
    let places = all_places(alloc, &mid)?;
    let frames = plan(alloc, &mid)?;
    duplicate(alloc, &mid, places.as_slice(), &frames)
}

// Places that fit, for the variables of each function.
fn all_places(alloc: Global, mid: &Mid) -> Result<Vec<Places>, OutOfMemory>
    requires { Valid mid.now }
    ensures { IfOk result (λ places. AllFit mid.now places.items) }
{
    let mut out = Vec::new(alloc);
    for function in mid.functions.as_slice() {
        out.push(assign(alloc, function)?)?;
    }
    Ok(out)
}
