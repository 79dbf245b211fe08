//! Which images a file can hold.
ghost use Rattle.std.specs.Prelude.{◌≡◌, ◌+◌, ◌*◌, ◌<◌, ◌≤◌, ◌↔◌, IsTrue, length};
ghost use Rattle.elf_image.specs.Bounds.{Fits, SizesFit, is_after, is_in_text, is_window, is_alias, all_ascending};
ghost use Rattle.elf_image.specs.Layout.{fields_of, sizes_of, sections_at};

use crate::image::Image;
use crate::limits::{LONGEST_FILE, MOST_MEMORY, MOST_TEXT, TEXT_START};

/// Whether a file can hold the image: its fields are in their bounds, and the file has at most 3,221,225,472 bytes.
pub fn fits(image: &Image) -> bool
    ensures { IsTrue result ↔ Fits (fields_of image.now) }
{
    let words = image.text.len();
    sizes_fit(image)
        && is_in_text(words, image.entry)
        && windows_ascend(words, image.windows.as_slice())
        && aliases_ascend(words, image.aliases.as_slice())
}

/// Whether the numbers of words, windows and aliases are in their bounds, together those of a file that is small enough.
fn sizes_fit(image: &Image) -> bool
    ensures { IsTrue result ↔ (SizesFit (sizes_of (fields_of image.now)) × (sections_at (sizes_of (fields_of image.now)) + 240 ≤ 3221225472)) }
{
    let text = image.text.len();
    let initial = image.initial.len();
    let memory = image.memory_words as usize;
    let windows = image.windows.len();
    let aliases = image.aliases.len();
    if text < 1
        || text > MOST_TEXT as usize
        || memory < 1
        || memory > MOST_MEMORY as usize
        || initial > memory
    {
        return false;
    }
    if windows > 402_653_184 || aliases > 402_653_184 {
        return false;
    }
    let data_at = (4096 + 4 * text + 4095) / 4096 * 4096;
    data_at + 4 * initial + 8 * windows + 8 * aliases + 52 + 240 <= LONGEST_FILE as usize
}

/// Whether an address is that of a word of a text of so many words.
pub(crate) fn is_in_text(words: usize, address: u32) -> bool
    requires { words ≤ 66060288 }
    ensures { result ≡ is_in_text words address }
{
    address % 4 == 0
        && (TEXT_START <= address && (address as usize) < TEXT_START as usize + 4 * words)
}

/// Whether an address and a register make a window of a text of so many words.
pub(crate) fn is_window(words: usize, pair: (u32, u32)) -> bool
    requires { words ≤ 66060288 }
    ensures { result ≡ is_window words pair }
{
    is_in_text(words, pair.0) && (1 <= pair.1 && pair.1 <= 31)
}

/// Whether two addresses make an alias of a text of so many words.
pub(crate) fn is_alias(words: usize, pair: (u32, u32)) -> bool
    requires { words ≤ 66060288 }
    ensures { result ≡ is_alias words pair }
{
    is_in_text(words, pair.0) && is_in_text(words, pair.1)
}

/// Whether a pair comes strictly after the last one, by its first number and then by its second.
pub(crate) fn is_after(last: Option<(u32, u32)>, pair: (u32, u32)) -> bool
    ensures { result ≡ is_after last pair }
{
    match last {
        None => true,
        Some(before) => before.0 < pair.0 || (before.0 == pair.0 && before.1 < pair.1),
    }
}

/// Whether windows are those of a text of so many words, and ascend strictly.
fn windows_ascend(words: usize, windows: &[(u32, u8)]) -> bool
    requires { words ≤ 66060288 }
    ensures { result ≡ all_ascending (is_window words) None windows.now }
{
    let mut last: Option<(u32, u32)> = None;
    for w in windows {
        let pair = (w.0, w.1 as u32);
        if !(is_after(last, pair) && is_window(words, pair)) {
            return false;
        }
        last = Some(pair);
    }
    true
}

/// Whether aliases are those of a text of so many words, and ascend strictly.
fn aliases_ascend(words: usize, aliases: &[(u32, u32)]) -> bool
    requires { words ≤ 66060288 }
    ensures { result ≡ all_ascending (is_alias words) None aliases.now }
{
    let mut last: Option<(u32, u32)> = None;
    for a in aliases {
        let pair = *a;
        if !(is_after(last, pair) && is_alias(words, pair)) {
            return false;
        }
        last = Some(pair);
    }
    true
}
