//! The first fault of a whole program (ISO/IEC 9899:1999; the refusals and their order are those of docs/LANGUAGE.md).

ghost use Rattle.std.specs.Prelude.{◌≡◌, ◌≤◌, IfOk};
ghost use Rattle.c_meaning.specs.Meaning.{source_names};
ghost use Rattle.c_syntax.specs.Shaped.{Shaped};
ghost use Rattle.c_syntax.specs.Sizes.{program_nodes};
ghost use Rattle.check_rules.specs.Limits.{checked, position_or_zero};
ghost use Rattle.check_rules.specs.Resolution.{most_nodes};
ghost use Rattle.check_rules.specs.Scopes.{lookup};
ghost use Rattle.check_scopes.specs.Gave.{Gave};

use crate::external::items;
use crate::names::bodies;
use c_syntax::Program;
use check_law::checked_again;
use check_limits::limits;
use check_rules::{CheckError, Checked};
use check_scopes::Scopes;
use std::alloc::Global;

fn main_position(scopes: &Scopes) -> u32
    ensures { result ≡ position_or_zero (lookup source_names.main scopes.now.file) }
{
    match scopes.known_in_file(0) {
        None => 0,
        Some(known) => known.position,
    }
}

/// Checks a program. It gives the program without fault in which each name is the position of its declaration, or the first
/// fault: that of the walk over its items in order, else of the calls of functions without body, of `main` and of the limits.
pub fn check(alloc: Global, program: Program) -> Result<Checked, CheckError>
    requires shaped { Shaped program }
    requires nodes { program_nodes program ≤ most_nodes }
    ensures ok { IfOk result (λ c. checked source_names program ≡ Ok c) }
    ensures fault { Gave result (checked source_names program) }
{
    let within = limits(alloc, &program);
    let names = bodies(alloc, program.items.as_slice())?;
    let Program { items: is } = program;
    let mut scopes = Scopes::first(alloc)?;
    let is = items(alloc, &mut scopes, &names, is)?;
    within?;
    let main = main_position(&scopes);
    let decls = scopes.into_decls(alloc)?;
    checked_again();
    Ok(Checked::new(Program { items: is }, decls, main))
}
