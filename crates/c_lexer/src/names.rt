//! The numbers of names.

ghost use Rattle.std.specs.Prelude.{◌≡◌, ◌<◌, ◌^◌, ◌++◌, ◌∷◌, [], ℕ, List, IfOk, OnOk, Some, cond, length};
ghost use Rattle.std.specs.Borrow.{Bor};
ghost use Rattle.std.specs.BTreeMap.{get, is_at};
ghost use Rattle.c_lexer.specs.Names.{AreNumbered, name_cmp, spellings};
ghost use Rattle.c_lexer.specs.Tokens.{first_names, number_of, with_name};

use hard_words::OutOfMemory;
use std::alloc::Global;
use std::collections::BTreeMap;

/// The distinct spellings of a text, and the number of each. The map is ordered, so that no choice
/// of names makes a look-up slow.
#[derive(Drop)]
pub struct Names<'a> {
    /// The spellings in the order of their first occurrence, behind those that have their number
    /// from the start.
    in_order: Vec<&'a [u8]>,
    /// The place of each of them in that order.
    numbers: BTreeMap<&'a [u8], u32>,
}

/// The names that have their number from the start.
pub(crate) fn first_names<'a>(alloc: Global) -> Result<Names<'a>, OutOfMemory>
    ensures names { IfOk result (λ names. spellings names ≡ first_names) }
    ensures numbered { IfOk result AreNumbered }
{
    let mut names = Names {
        in_order: Vec::new(alloc),
        numbers: BTreeMap::new(alloc),
    };
    number_of(&mut names, b"main".as_slice())?;
    number_of(&mut names, b"in_word".as_slice())?;
    number_of(&mut names, b"out_word".as_slice())?;
    Ok(names)
}

/// The number of a name, which is noted where it is new.
pub(crate) fn number_of<'a>(names: &mut Names<'a>, spelling: &'a [u8]) -> Result<u32, OutOfMemory>
    requires few { length (spellings names.old) < 2 ^ 32 }
    requires numbered { AreNumbered names.old }
    ensures number { IfOk result (λ number. number ≡ number_of (spellings names.old) spelling.now) }
    ensures names { OnOk result (spellings names.new ≡ with_name (spellings names.old) spelling.now) }
    ensures still_numbered { OnOk result (AreNumbered names.new) }
{
    match names.numbers.get(&spelling) {
        Some(number) => Ok(*number),
        None => add(names, spelling),
    }
}

/// Notes a new name, and gives its number.
fn add<'a>(names: &mut Names<'a>, spelling: &'a [u8]) -> Result<u32, OutOfMemory>
    requires few { length (spellings names.old) < 2 ^ 32 }
    ensures number { IfOk result (λ number. number ≡ length (spellings names.old)) }
    ensures names { OnOk result (spellings names.new ≡ spellings names.old ++ spelling.now ∷ []) }
    ensures numbers { OnOk result ((q : Bor (List ℕ)) → get name_cmp names.new.numbers q ≡ cond (is_at (name_cmp spelling.entry) q) (Some (length (spellings names.old))) (get name_cmp names.old.numbers q)) }
{
    let number = names.in_order.len() as u32;
    names.numbers.insert(spelling, number)?;
    names.in_order.push(spelling)?;
    Ok(number)
}
