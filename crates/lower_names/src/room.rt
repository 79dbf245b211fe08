//! How many variables a function has with its temporaries.

ghost use Rattle.std.specs.Prelude.{◌≡◌, ◌+◌, ◌<◌, ◌≤◌, ◌^◌, map, length};
ghost use Rattle.c_syntax.specs.Graph.{body_of};
ghost use Rattle.c_syntax.specs.Sizes.{greatest};
ghost use Rattle.c_syntax.specs.Costs.{function_weight, statement_temps};
ghost use Rattle.lower_rules.specs.Programs.{param_variables, free_of};
ghost use Rattle.lower_names.specs.Parts.{variable_of_param};

use c_costs::weight;
use c_syntax::{Function, Param};

/// 1 for a parameter that has no name.
fn unnamed_one(param: &Param) -> usize
    ensures { result + length (variable_of_param param.now) ≡ 1 }
{
    match param.name {
        None => 1,
        Some(_) => 0,
    }
}

/// How many parameters have no name.
fn unnamed(params: &[Param]) -> usize
    ensures { result + length (param_variables params.now) ≡ length params.now }
{
    let mut count = 0;
    for param in params {
        count += unnamed_one(param);
    }
    count
}

/// The first variable behind all temporaries of a function.
#[tactic(auto, using(crate::proofs::Counted::variables_counted, crate::proofs::Counted::variables_light))]
pub fn behind_temporaries(f: &Function) -> u32
    requires { function_weight f.now < 2 ^ 32 }
    ensures first { result ≡ free_of f.now + greatest (map statement_temps (body_of f.now.body)) }
    ensures light { result + 1 ≤ function_weight f.now }
{
    (weight(f) - 1 - unnamed(f.params.as_slice()) as u64) as u32
}
