//! Reads the lists that a file holds, once its checks have passed.
ghost use Rattle.std.specs.Prelude.{◌≡◌, ◌+◌, ◌*◌, ◌≤◌, length, IfOk, IsTrue};
ghost use Rattle.std.specs.List.{list_all};
ghost use Rattle.elf_image.specs.Bounds.{has_register};
ghost use Rattle.elf_image.specs.Refusal.{words_at, pairs_at};

use super::numbers::{pair_at, word_at};
use std::alloc::{AllocError, Global};

/// So many words from an offset on.
#[tactic(auto, using(crate::proofs::Told::words_left, crate::proofs::Told::no_words_left))]
pub(crate) fn read_words(
    alloc: Global,
    bytes: &[u8],
    at: usize,
    count: usize,
) -> Result<Vec<u32>, AllocError>
    requires { at + 4 * count ≤ length bytes.now }
    ensures { IfOk result (λ words. words.items ≡ words_at count at bytes.now) }
{
    let mut words = Vec::with_capacity(alloc, count)?;
    let mut place = at;
    for i in 0..count {
        words.push(word_at(bytes, place))?;
        place += 4;
    }
    Ok(words)
}

/// So many windows from an offset on.
#[tactic(auto, using(crate::proofs::Told::pairs_left, crate::proofs::Told::no_pairs_left))]
pub(crate) fn read_windows(
    alloc: Global,
    bytes: &[u8],
    at: usize,
    count: usize,
) -> Result<Vec<(u32, u8)>, AllocError>
    requires room { at + 8 * count ≤ length bytes.now }
    requires registers { IsTrue (list_all has_register (pairs_at count at bytes.now)) }
    ensures { IfOk result (λ windows. windows.items ≡ pairs_at count at bytes.now) }
{
    let mut windows = Vec::with_capacity(alloc, count)?;
    let mut place = at;
    for i in 0..count {
        let pair = pair_at(bytes, place);
        windows.push((pair.0, pair.1 as u8))?;
        place += 8;
    }
    Ok(windows)
}

/// So many aliases from an offset on.
#[tactic(auto, using(crate::proofs::Told::pairs_left, crate::proofs::Told::no_pairs_left))]
pub(crate) fn read_aliases(
    alloc: Global,
    bytes: &[u8],
    at: usize,
    count: usize,
) -> Result<Vec<(u32, u32)>, AllocError>
    requires { at + 8 * count ≤ length bytes.now }
    ensures { IfOk result (λ aliases. aliases.items ≡ pairs_at count at bytes.now) }
{
    let mut aliases = Vec::with_capacity(alloc, count)?;
    let mut place = at;
    for i in 0..count {
        aliases.push(pair_at(bytes, place))?;
        place += 8;
    }
    Ok(aliases)
}
