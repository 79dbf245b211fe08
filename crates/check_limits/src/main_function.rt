//! The function `main`, and the first function that is too heavy.

ghost use Rattle.std.specs.Prelude.{◌≡◌, [], ◌∷◌};
ghost use Rattle.std.specs.Option.{option_copied};
ghost use Rattle.c_syntax.specs.Graph.{function_named};
ghost use Rattle.c_syntax.specs.declared.tree.Ty.TheVariants.{Int};
ghost use Rattle.check_rules.specs.Walk.{same_type};
ghost use Rattle.check_rules.specs.Limits.{is_main, first_too_heavy};

use c_costs::weight;
use c_syntax::{Function, TopItem, Ty};

// The function of an item, if it has a body and this name.
fn named(item: &TopItem, name: u32) -> Option<&Function>
    ensures { option_copied result ≡ function_named name (item.now ∷ []) }
{
    match item {
        TopItem::Globals(_) => None,
        TopItem::Function(function) => match &function.body {
            None => None,
            Some(_) => {
                if function.name == name {
                    Some(function)
                } else {
                    None
                }
            }
        },
    }
}

// The function with a body that has this name.
fn find(items: &[TopItem], name: u32) -> Option<&Function>
    ensures { option_copied result ≡ function_named name items.now }
{
    for item in items {
        if let Some(function) = named(item, name) {
            return Some(function);
        }
    }
    None
}

fn is_int(ty: Ty) -> bool
    ensures { result ≡ same_type ty Int }
{
    match ty {
        Ty::Int => true,
        Ty::Unsigned | Ty::Void => false,
    }
}

/// Whether there is an `int main(void)` with a body (ISO/IEC 9899:1999, 5.1.2.2.1).
pub(crate) fn has_main(items: &[TopItem]) -> bool
    ensures { result ≡ is_main (function_named 0 items.now) }
{
    match find(items, 0) {
        None => false,
        Some(function) => is_int(function.ty) && function.params.len() == 0,
    }
}

fn too_heavy(item: &TopItem) -> Option<u32>
    ensures { result ≡ first_too_heavy (item.now ∷ []) }
{
    match item {
        TopItem::Globals(_) => None,
        TopItem::Function(function) => match &function.body {
            None => None,
            Some(_) => {
                if weight(function) > 4000 {
                    Some(function.at)
                } else {
                    None
                }
            }
        },
    }
}

/// The byte of the name of the first function with a body whose weight is above 4,000.
pub(crate) fn heavy(items: &[TopItem]) -> Option<u32>
    ensures { result ≡ first_too_heavy items.now }
{
    let mut first = None;
    for item in items {
        first = first.or(too_heavy(item));
    }
    first
}
