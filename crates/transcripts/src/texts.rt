//! The parts of a line.

use crate::fault::Fault;
use std::alloc::Global;

/// The first word of a text, which a space ends, and what stands behind the space.
pub(crate) fn cut(text: &str) -> (&str, &str) {
    match text.split_once(' ') {
        None => (text, ""),
        Some((word, rest)) => (word, rest),
    }
}

/// The number that decimal digits say, or hexadecimal ones behind `0x`.
pub(crate) fn number(word: &str) -> Result<u32, Fault> {
    let read = match word.strip_prefix("0x") {
        None => word.parse::<u32>(),
        Some(digits) => u32::from_str_radix(digits, 16),
    };
    match read {
        Ok(number) => Ok(number),
        Err(_) => Err(Fault::Line),
    }
}

/// The number of a register that decimal digits say.
pub(crate) fn register(word: &str) -> Result<u8, Fault> {
    match word.parse::<u8>() {
        Ok(number) => Ok(number),
        Err(_) => Err(Fault::Line),
    }
}

/// The word that hexadecimal digits say.
pub(crate) fn hex_word(word: &str) -> Result<u32, Fault> {
    match u32::from_str_radix(word, 16) {
        Ok(number) => Ok(number),
        Err(_) => Err(Fault::Line),
    }
}

/// The bytes that pairs of hexadecimal digits say.
pub(crate) fn hex_bytes(alloc: Global, digits: &str) -> Result<Vec<u8>, Fault> {
    match hex::decode(alloc, digits) {
        Ok(bytes) => Ok(bytes),
        Err(_) => Err(Fault::Line),
    }
}

/// The bytes of a text, in which `\n`, `\r`, `\t`, `\v` and `\\` stand for a line feed, a carriage return, a tab, a vertical
/// tab and a backslash.
pub(crate) fn plain(alloc: Global, text: &str) -> Result<Vec<u8>, Fault> {
    let mut bytes = Vec::new(alloc);
    let mut escaped = false;
    for byte in text.as_bytes() {
        if escaped {
            bytes.push(escape(*byte)?)?;
            escaped = false;
        } else if *byte == b'\\' {
            escaped = true;
        } else {
            bytes.push(*byte)?;
        }
    }
    if escaped { Err(Fault::Line) } else { Ok(bytes) }
}

// The byte that a letter behind a backslash stands for.
fn escape(letter: u8) -> Result<u8, Fault> {
    match letter {
        b'n' => Ok(b'\n'),
        b'r' => Ok(b'\r'),
        b't' => Ok(b'\t'),
        b'v' => Ok(0x0b),
        b'\\' => Ok(b'\\'),
        _ => Err(Fault::Line),
    }
}

/// A text so many times, the numbers from 0 in place of its `%`.
pub(crate) fn numbered(alloc: Global, count: u32, text: &str) -> Result<String, Fault> {
    let mut all = String::new(alloc);
    for number in 0..count {
        let value = format!(in alloc; "{number}")?;
        for part in text.chars() {
            if part == '%' {
                all.push_str(value.as_str())?;
            } else {
                all.push(part)?;
            }
        }
    }
    Ok(all)
}
