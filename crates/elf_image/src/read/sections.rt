//! The checks of the sections and of the lists and names that they tell of.
ghost use Rattle.std.specs.Prelude.{◌≡◌, ◌+◌, ◌*◌, ◌≤◌, ◌<◌, ◌^◌, length, IsTrue, None};
ghost use Rattle.elf_image.specs.Bounds.{all_ascending, is_window, is_alias};
ghost use Rattle.elf_image.specs.Held.{number_at, has};
ghost use Rattle.elf_image.specs.Layout.{aliases_at, names_at, names};
ghost use Rattle.elf_image.specs.Refusal.{fixed_checks, list_checks, first_fault, segment_sizes, sizes_told, told_at, pairs_at, windows_hold, aliases_hold, names_hold, ends_before};

use super::ImageError;
use super::numbers::{has_bytes, has_words, pair_at, word_at};
use super::segments::segment_sizes;
use crate::bounds::{is_after, is_alias, is_window};
use crate::layout::{Sizes, aliases_at, data_at, names_at, windows_at};
use crate::limits::{MEMORY_START, TEXT_START};

/// The sizes that the segments and sections 3 and 4 tell.
pub(crate) fn sizes_told(bytes: &[u8]) -> Sizes
    requires room { 116 ≤ length bytes.now }
    requires whole { told_at bytes.now + 240 ≤ length bytes.now }
    ensures { result ≡ sizes_told bytes.now }
{
    let sizes = segment_sizes(bytes);
    let sections_at = word_at(bytes, 32) as usize;
    Sizes {
        text: sizes.text,
        initial: sizes.initial,
        memory_words: sizes.memory_words,
        windows: word_at(bytes, sections_at + 140) / 8,
        aliases: word_at(bytes, sections_at + 180) / 8,
    }
}

/// The first fault of sections 0 to 2.
#[tactic(auto, unfolding(crate::specs::Refusal::fixed_checks, crate::specs::Layout::no_section, crate::specs::Layout::text_section, crate::specs::Layout::data_section))]
pub(crate) fn fixed_fault(bytes: &[u8]) -> Option<ImageError>
    requires room { 116 ≤ length bytes.now }
    requires whole { told_at bytes.now + 240 ≤ length bytes.now }
    requires text { (segment_sizes bytes.now).text ≤ 66060288 }
    ensures { result ≡ first_fault (fixed_checks bytes.now) }
{
    let sizes = segment_sizes(bytes);
    let at = word_at(bytes, 32) as usize;
    let text = 4 * sizes.text;
    let initial = 4 * sizes.initial;
    if !has_words(bytes, at, &[0, 0, 0, 0, 0, 0, 0, 0, 0, 0]) {
        return Some(ImageError::BadSection { index: 0 });
    }
    if !has_words(
        bytes,
        at + 40,
        &[1, 1, 6, TEXT_START, 4096, text, 0, 0, 4, 0],
    ) {
        return Some(ImageError::BadSection { index: 1 });
    }
    if !has_words(
        bytes,
        at + 80,
        &[7, 1, 3, MEMORY_START, data_at(sizes), initial, 0, 0, 8, 0],
    ) {
        return Some(ImageError::BadSection { index: 2 });
    }
    None
}

/// The first fault of sections 3 to 5 and what they hold.
#[tactic(auto, unfolding(crate::specs::Refusal::list_checks))]
pub(crate) fn list_fault(bytes: &[u8]) -> Option<ImageError>
    requires room { 116 ≤ length bytes.now }
    requires whole { told_at bytes.now + 240 ≤ length bytes.now }
    requires text { (segment_sizes bytes.now).text ≤ 66060288 }
    requires initial { (segment_sizes bytes.now).initial ≤ 4194304 }
    ensures { result ≡ first_fault (list_checks bytes.now) }
{
    let sizes = sizes_told(bytes);
    if !windows_hold(bytes, sizes) {
        return Some(ImageError::BadSection { index: 3 });
    }
    if !aliases_hold(bytes, sizes) {
        return Some(ImageError::BadSection { index: 4 });
    }
    if !names_hold(bytes, sizes) {
        return Some(ImageError::BadSection { index: 5 });
    }
    None
}

/// Whether section 3 is right for the number of windows that it tells, and they are windows in order.
#[tactic(auto, unfolding(crate::specs::Layout::windows_section))]
fn windows_hold(bytes: &[u8], sizes: Sizes) -> bool
    requires room { 116 ≤ length bytes.now }
    requires whole { told_at bytes.now + 240 ≤ length bytes.now }
    requires text { sizes.text ≤ 66060288 }
    requires initial { sizes.initial ≤ 4194304 }
    requires told { sizes ≡ sizes_told bytes.now }
    ensures holds { result ≡ windows_hold bytes.now }
    ensures reach { IsTrue result → aliases_at sizes < 2 ^ 32 }
{
    let at = word_at(bytes, 32) as usize;
    let begin = windows_at(sizes);
    let size = word_at(bytes, at + 140) / 8 * 8;
    let end = begin as usize + size as usize;
    has_words(bytes, at + 120, &[13, 1, 0, 0, begin, size, 0, 0, 4, 8])
        && ends_before(bytes, end, at + 176)
        && windows_ascend(
            bytes,
            sizes.text as usize,
            begin as usize,
            sizes.windows as usize,
        )
}

/// Whether section 4 is right for the number of aliases that it tells, and they are aliases in order.
#[tactic(auto, unfolding(crate::specs::Layout::aliases_section))]
fn aliases_hold(bytes: &[u8], sizes: Sizes) -> bool
    requires room { 116 ≤ length bytes.now }
    requires whole { told_at bytes.now + 240 ≤ length bytes.now }
    requires text { sizes.text ≤ 66060288 }
    requires initial { sizes.initial ≤ 4194304 }
    requires reach { aliases_at sizes < 2 ^ 32 }
    requires told { sizes ≡ sizes_told bytes.now }
    ensures holds { result ≡ aliases_hold bytes.now }
    ensures reach { IsTrue result → names_at sizes < 2 ^ 32 }
{
    let at = word_at(bytes, 32) as usize;
    let begin = aliases_at(sizes);
    let size = word_at(bytes, at + 180) / 8 * 8;
    let end = begin as usize + size as usize;
    has_words(bytes, at + 160, &[27, 1, 0, 0, begin, size, 0, 0, 4, 8])
        && ends_before(bytes, end, at + 216)
        && aliases_ascend(
            bytes,
            sizes.text as usize,
            begin as usize,
            sizes.aliases as usize,
        )
}

/// Whether section 5 is right, and the names stand right before the sections.
#[tactic(auto, unfolding(crate::specs::Layout::names_section))]
fn names_hold(bytes: &[u8], sizes: Sizes) -> bool
    requires room { 116 ≤ length bytes.now }
    requires whole { told_at bytes.now + 240 ≤ length bytes.now }
    requires text { sizes.text ≤ 66060288 }
    requires initial { sizes.initial ≤ 4194304 }
    requires reach { names_at sizes < 2 ^ 32 }
    requires told { sizes ≡ sizes_told bytes.now }
    ensures { result ≡ names_hold bytes.now }
{
    let at = word_at(bytes, 32) as usize;
    let begin = names_at(sizes);
    has_words(bytes, at + 200, &[42, 3, 0, 0, begin, 52, 0, 0, 1, 0])
        && begin as usize + 52 == at
        && has_names(bytes, begin as usize)
}

/// Whether the names of the sections stand at an offset.
#[tactic(auto, unfolding(crate::specs::Layout::names))]
fn has_names(bytes: &[u8], at: usize) -> bool
    requires { at + 52 ≤ length bytes.now }
    ensures { result ≡ has 1 names at bytes.now }
{
    has_bytes(
        bytes,
        at,
        b"\0.text\0.data\0.eddi.windows\0.cfcss.aliases\0.shstrtab\0",
    )
}

/// Whether a part that ends at an offset ends in the file, and no later than the word at another offset says that the
/// next one begins.
fn ends_before(bytes: &[u8], end: usize, next: usize) -> bool
    requires { next + 4 ≤ length bytes.now }
    ensures holds { result ≡ ends_before end next bytes.now }
    ensures reach { IsTrue result → end < 2 ^ 32 }
{
    end <= word_at(bytes, next) as usize && end <= bytes.len()
}

/// Whether so many pairs from an offset on are windows of a text of so many words, and ascend strictly.
#[tactic(auto, using(crate::proofs::Told::pairs_left, crate::proofs::Told::no_pairs_left))]
fn windows_ascend(bytes: &[u8], words: usize, at: usize, count: usize) -> bool
    requires room { at + 8 * count ≤ length bytes.now }
    requires words { words ≤ 66060288 }
    ensures { result ≡ all_ascending (is_window words) None (pairs_at count at bytes.now) }
{
    let mut last: Option<(u32, u32)> = None;
    let mut place = at;
    for i in 0..count {
        let pair = pair_at(bytes, place);
        if !(is_after(last, pair) && is_window(words, pair)) {
            return false;
        }
        last = Some(pair);
        place += 8;
    }
    true
}

/// Whether so many pairs from an offset on are aliases of a text of so many words, and ascend strictly.
#[tactic(auto, using(crate::proofs::Told::pairs_left, crate::proofs::Told::no_pairs_left))]
fn aliases_ascend(bytes: &[u8], words: usize, at: usize, count: usize) -> bool
    requires room { at + 8 * count ≤ length bytes.now }
    requires words { words ≤ 66060288 }
    ensures { result ≡ all_ascending (is_alias words) None (pairs_at count at bytes.now) }
{
    let mut last: Option<(u32, u32)> = None;
    let mut place = at;
    for i in 0..count {
        let pair = pair_at(bytes, place);
        if !(is_after(last, pair) && is_alias(words, pair)) {
            return false;
        }
        last = Some(pair);
        place += 8;
    }
    true
}
