//! What a variable at file scope holds before the run (ISO/IEC 9899:1999, 6.7.8).

ghost use Rattle.std.specs.Prelude.{◌≡◌, IfOk, IfErr, OnOk, map};
ghost use Rattle.c_meaning.specs.Meaning.{constant, first_or_zero};
ghost use Rattle.check_rules.specs.declared.error.CheckError.TheVariants.{OutOfMemory};
ghost use Rattle.check_scopes.specs.Lookup.{declared};
ghost use Rattle.check_globals.specs.Globals.{decl_of};

use c_constants::constant_word;
use c_syntax::{Expr, Ty};
use check_rules::{CheckError, Decl};
use check_scopes::Scopes;
use sqlite_items::Items;
use std::alloc::Global;

/// The words of initialisers.
pub fn constants(alloc: Global, first: &[Expr]) -> Result<Items<u32>, CheckError>
    ensures ok { IfOk result (λ words. words ≡ map constant first.now) }
    ensures err { IfErr result (λ e. e ≡ OutOfMemory) }
{
    let mut words = Items::new(alloc);
    for e in first {
        words.push(constant_word(e))?;
    }
    Ok(words)
}

fn first_word(words: &[u32]) -> u32
    ensures { result ≡ first_or_zero words.now }
{
    match words.split_first() {
        None => 0,
        Some((word, _)) => *word,
    }
}

/// The declaration of a variable of so many elements, whose initialisers have these words.
pub fn declare(
    scopes: &mut Scopes,
    is_array: bool,
    ty: Ty,
    is_const: bool,
    count: usize,
    words: Items<u32>,
) -> Result<(), CheckError>
    ensures ok { OnOk result (scopes.new ≡ declared (decl_of is_array ty is_const count words) scopes.old) }
    ensures err { IfErr result (λ e. e ≡ OutOfMemory) }
{
    if is_array {
        scopes.declare_array(ty, is_const, count, words)
    } else {
        scopes.declare(Decl::Scalar {
            ty,
            is_const,
            is_global: true,
            first: first_word(words.as_slice()),
        })
    }
}
