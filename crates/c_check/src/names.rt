//! The names of the functions with bodies (ISO/IEC 9899:1999, 6.9.1).

ghost use Rattle.std.specs.Prelude.{◌≡◌, ◌||◌, ℕ, IfOk, IfErr, OnOk};
ghost use Rattle.std.specs.BTreeSet.{contains};
ghost use Rattle.std.specs.Ordering.{nat_cmp};
ghost use Rattle.c_syntax.specs.Graph.{defines};
ghost use Rattle.check_rules.specs.Walk.{has_body_in};
ghost use Rattle.check_rules.specs.declared.error.CheckError.TheVariants.{OutOfMemory};

use c_syntax::TopItem;
use check_rules::CheckError;
use std::alloc::Global;
use std::collections::BTreeSet;

fn note(names: &mut BTreeSet<u32>, item: &TopItem) -> Result<(), CheckError>
    ensures ok { OnOk result ((name : ℕ) → contains nat_cmp names.new name ≡ (contains nat_cmp names.old name || defines name item.now)) }
    ensures err { IfErr result (λ e. e ≡ OutOfMemory) }
{
    match item {
        TopItem::Globals(_) => Ok(()),
        TopItem::Function(f) => match &f.body {
            None => Ok(()),
            Some(_) => {
                names.insert(f.name)?;
                Ok(())
            }
        },
    }
}

/// The names of the functions of which some item has the body.
pub fn bodies(alloc: Global, items: &[TopItem]) -> Result<BTreeSet<u32>, CheckError>
    ensures ok { IfOk result (λ names. (name : ℕ) → contains nat_cmp names name ≡ has_body_in items.now name) }
    ensures err { IfErr result (λ e. e ≡ OutOfMemory) }
{
    let mut names = BTreeSet::new(alloc);
    for item in items {
        note(&mut names, item)?;
    }
    Ok(names)
}
