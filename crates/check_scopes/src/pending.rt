//! Declarations whose arrays hold only what was written of them. A refused text can declare far more elements than there is
//! memory for, so the others are added once the text is found to be within its limits.

ghost use Rattle.std.specs.Prelude.{◌≡◌, map, IfOk, IfErr, slice_index};
ghost use Rattle.c_meaning.specs.Meaning.{padded};
ghost use Rattle.check_rules.specs.declared.error.CheckError.TheVariants.{OutOfMemory};
ghost use Rattle.check_scopes.specs.Pending.{whole};

use c_syntax::Ty;
use check_rules::{CheckError, Decl};
use hard_words::Words;
use sqlite_items::Items;
use std::alloc::Global;

/// A declaration.
#[derive(Drop)]
pub(crate) enum Pending {
    /// It is whole.
    Whole(Decl),
    /// An array.
    Array {
        /// The type of its elements.
        ty: Ty,
        /// Whether its elements can't be assigned to.
        is_const: bool,
        /// How many elements it has.
        count: usize,
        /// The words of its initialisers.
        first: Items<u32>,
    },
}

fn word_at(words: &[u32], place: usize) -> u32
    ensures { result ≡ slice_index words.now place }
{
    match words.get(place) {
        None => 0,
        Some(word) => *word,
    }
}

fn padded(alloc: Global, first: &[u32], count: usize) -> Result<Words, CheckError>
    ensures ok { IfOk result (λ words. words ≡ padded count first.now) }
    ensures err { IfErr result (λ e. e ≡ OutOfMemory) }
{
    let mut words = Vec::new(alloc);
    for i in 0..count {
        words.push(word_at(first, i))?;
    }
    Ok(Words::from_vec(words))
}

fn completed(alloc: Global, pending: Pending) -> Result<Decl, CheckError>
    ensures ok { IfOk result (λ d. d ≡ whole pending) }
    ensures err { IfErr result (λ e. e ≡ OutOfMemory) }
{
    match pending {
        Pending::Whole(decl) => Ok(decl),
        Pending::Array {
            ty,
            is_const,
            count,
            first,
        } => Ok(Decl::Array {
            ty,
            is_const,
            first: padded(alloc, first.as_slice(), count)?,
        }),
    }
}

/// The declarations with all elements of their arrays.
pub(crate) fn all_completed(
    alloc: Global,
    pending: Items<Pending>,
) -> Result<Items<Decl>, CheckError>
    ensures ok { IfOk result (λ decls. decls ≡ map whole pending) }
    ensures err { IfErr result (λ e. e ≡ OutOfMemory) }
{
    let mut pending = pending;
    let mut turned = Items::new(alloc);
    while let Some(p) = pending.pop() {
        turned.push(p)?;
    }
    let mut all = Items::new(alloc);
    while let Some(p) = turned.pop() {
        all.push(completed(alloc, p)?)?;
    }
    Ok(all)
}
