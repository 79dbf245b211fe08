//! The variables with which a call begins.

ghost use Rattle.std.specs.Prelude.{◌≡◌, ◌++◌, ◌∷◌, [], List, IfOk};
ghost use Rattle.c_meaning.specs.Run.{Entry};
ghost use Rattle.c_meaning.specs.Meaning.{bind, bound};
ghost use Rattle.c_meaning.specs.Operators.{is_unsigned_type};

use crate::scopes::Scopes;
use c_meaning::Value;
use c_syntax::{Param, Ty};
use std::alloc::{AllocError, Global};

/// One scope with the parameters, each with its argument.
pub(crate) fn params_in(
    alloc: Global,
    params: &[Param],
    args: &[Value],
) -> Result<Scopes, AllocError>
    ensures { IfOk result (λ scopes. scopes ≡ bound params.now args.now ∷ []) }
{
    let mut scopes = Scopes::new(alloc);
    scopes.open()?;
    for (i, param) in params.iter().enumerate() {
        match args.get(i) {
            None => return Ok(scopes),
            Some(arg) => take(&mut scopes, param, *arg)?,
        }
    }
    Ok(scopes)
}

/// A parameter takes its argument.
fn take(scopes: &mut Scopes, param: &Param, arg: Value) -> Result<(), AllocError>
    ensures { IfOk result (λ u. (scope : List Entry) → scopes.old ≡ scope ∷ [] → scopes.new ≡ (bind param.now.name (is_unsigned_type param.now.ty) arg ++ scope) ∷ []) }
{
    match param.name {
        None => Ok(()),
        Some(name) => scopes.enter(
            name,
            Value {
                word: arg.word,
                is_unsigned: param.ty == Ty::Unsigned,
            },
        ),
    }
}
