//! The checks of the segments, the entry and the file's size.
ghost use Rattle.std.specs.Prelude.{◌≡◌, ◌+◌, ◌*◌, ◌^◌, ◌<◌, ◌≤◌, length};
ghost use Rattle.elf_image.specs.Held.{number_at, has};
ghost use Rattle.elf_image.specs.Refusal.{segment_checks, size_checks, first_fault, segment_sizes, text_segment_holds, data_segment_holds};

use super::ImageError;
use super::numbers::{has_words, word_at};
use crate::bounds::is_in_text;
use crate::layout::{Sizes, data_at, windows_at};
use crate::limits::{MEMORY_START, MOST_MEMORY, MOST_TEXT, TEXT_START};

/// The first fault of the segments and the entry.
#[tactic(auto, unfolding(crate::specs::Refusal::segment_checks))]
pub(crate) fn segment_fault(bytes: &[u8]) -> Option<ImageError>
    ensures { result ≡ first_fault (segment_checks bytes.now) }
{
    if bytes.len() < 116 {
        return Some(ImageError::Truncated {
            need: 116,
            have: bytes.len() as u64,
        });
    }
    if !text_segment_holds(bytes) {
        return Some(ImageError::BadSegment { index: 0 });
    }
    if !data_segment_holds(bytes) {
        return Some(ImageError::BadSegment { index: 1 });
    }
    let sizes = segment_sizes(bytes);
    if !is_in_text(sizes.text as usize, word_at(bytes, 24)) {
        return Some(ImageError::BadHeader { field: 24 });
    }
    None
}

/// The sizes that the segments tell, with no windows and aliases.
pub(crate) fn segment_sizes(bytes: &[u8]) -> Sizes
    requires { 116 ≤ length bytes.now }
    ensures sizes { result ≡ segment_sizes bytes.now }
    ensures text { 4 * result.text < 2 ^ 32 }
    ensures initial { 4 * result.initial < 2 ^ 32 }
    ensures memory { 4 * result.memory_words < 2 ^ 32 }
{
    Sizes {
        text: word_at(bytes, 68) / 4,
        initial: word_at(bytes, 100) / 4,
        memory_words: word_at(bytes, 104) / 4,
        windows: 0,
        aliases: 0,
    }
}

/// Whether segment 0 is right for the number of words that it tells, which is in its bounds.
#[tactic(auto, unfolding(crate::specs::Layout::text_segment))]
fn text_segment_holds(bytes: &[u8]) -> bool
    requires { 116 ≤ length bytes.now }
    ensures { result ≡ text_segment_holds bytes.now }
{
    let text = word_at(bytes, 68) / 4;
    has_words(
        bytes,
        52,
        &[1, 4096, TEXT_START, TEXT_START, 4 * text, 4 * text, 5, 4096],
    ) && (1 <= text && text <= MOST_TEXT)
}

/// Whether segment 1 is right for the numbers of words that it tells, which are in their bounds.
#[tactic(auto, unfolding(crate::specs::Layout::data_segment))]
fn data_segment_holds(bytes: &[u8]) -> bool
    requires room { 116 ≤ length bytes.now }
    requires text { (segment_sizes bytes.now).text ≤ 66060288 }
    ensures { result ≡ data_segment_holds bytes.now }
{
    let sizes = segment_sizes(bytes);
    let initial = 4 * sizes.initial;
    let memory = 4 * sizes.memory_words;
    has_words(
        bytes,
        84,
        &[
            1,
            data_at(sizes),
            MEMORY_START,
            MEMORY_START,
            initial,
            memory,
            6,
            4096,
        ],
    ) && (1 <= sizes.memory_words
        && (sizes.memory_words <= MOST_MEMORY && sizes.initial <= sizes.memory_words))
}

/// The first fault of the place of the sections and of the file's size.
#[tactic(auto, unfolding(crate::specs::Refusal::size_checks))]
pub(crate) fn size_fault(bytes: &[u8]) -> Option<ImageError>
    requires room { 116 ≤ length bytes.now }
    requires text { (segment_sizes bytes.now).text ≤ 66060288 }
    requires initial { (segment_sizes bytes.now).initial ≤ 4194304 }
    ensures { result ≡ first_fault (size_checks bytes.now) }
{
    let sections_at = word_at(bytes, 32) as u64;
    let least = windows_at(segment_sizes(bytes)) as u64 + 52;
    if !(sections_at % 4 == 0 && least <= sections_at) {
        return Some(ImageError::BadHeader { field: 32 });
    }
    let need = sections_at + 240;
    let have = bytes.len() as u64;
    if have < need {
        return Some(ImageError::Truncated { need, have });
    }
    if have > need {
        return Some(ImageError::TrailingBytes { need, have });
    }
    None
}
