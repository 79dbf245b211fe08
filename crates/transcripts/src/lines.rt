//! The lines of a list.

use crate::calls::{Failing, call};
use crate::fault::Fault;
use crate::files::Held;
use crate::images::{image, with_alias, with_window};
use crate::texts::{cut, hex_bytes, number, numbered, plain, register};
use std::alloc::Global;

/// A list as far as it was followed.
#[derive(Drop)]
pub(crate) struct Followed {
    held: Held,
    failing: Failing,
    open: Option<String>,
}

impl Followed {
    /// A list of which nothing was followed.
    pub(crate) fn new(alloc: Global) -> Followed {
        Followed {
            held: Held::new(alloc),
            failing: Failing::never(),
            open: None,
        }
    }
}

/// Follows one line. A NUMBER is decimal, or hexadecimal behind `0x`; a TEXT ends with the line, and has `\n`, `\r`, `\t`,
/// `\v` and `\\` for bytes that a line can't show.
///
/// | Line | What it does |
/// |---|---|
/// | an empty one, `# ..` | nothing |
/// | `$ hardcc WORD ..` | does what the words say; one space parts two words; then all calls and writes are sound again |
/// | `text NAME TEXT` | the file NAME holds the TEXT, without the end of the line |
/// | `file NAME`, lines, `end` | the file NAME holds these lines, each with its end |
/// | `more NAME TEXT` | the TEXT stands behind what the file holds |
/// | `times NAME NUMBER TEXT` | the TEXT so many times behind what the file holds |
/// | `numbered NAME NUMBER TEXT` | the same, with 0, 1 and so on in place of each `%` |
/// | `image NAME NUMBER WORD ..` | the file of an image with these words of text, each in hexadecimal digits, and so many words of memory |
/// | `window NAME NUMBER NUMBER`, `alias NAME NUMBER NUMBER` | one more entry of that list of the image NAME |
/// | `copy NAME NAME` | the second file holds what the first holds |
/// | `cut NAME NUMBER` | the first so many bytes of the file are left |
/// | `bytes NAME NUMBER HEX` | these bytes stand in the file from so many bytes on |
/// | `flip NAME NUMBER NUMBER` | in the byte behind so many, the bit of that number is inverted |
/// | `show NAME NUMBER NUMBER` | prints, from so many bytes on, so many, in lines of at most 32 and groups of 4 |
/// | `shelf fails NUMBER` | in the next command the call of the shelf of that number fails |
/// | `sink fails NUMBER NUMBER` | in the next command the write of that number fails, and keeps so many bytes |
/// | `sink room NUMBER` | in the next command the sink has room for so many bytes |
pub(crate) fn follow<R: Print + AllocGlobal>(
    rt: &R,
    list: &mut Followed,
    line: &str,
) -> Result<(), Fault> {
    if list.open.is_some() {
        return follow_open(list, line);
    }
    let (form, rest) = cut(line);
    match form.as_bytes() {
        b"" | b"#" => Ok(()),
        b"$" => follow_command(rt, list, rest),
        b"show" => show(rt, list, rest),
        b"shelf" | b"sink" => follow_failing(&mut list.failing, line),
        b"file" => {
            list.held.put(rest, Vec::new(rt.alloc()))?;
            list.open = Some(String::from_str(rt.alloc(), rest)?);
            Ok(())
        }
        _ => {
            let (name, parts) = cut(rest);
            follow_file(rt.alloc(), &mut list.held, form, name, parts)
        }
    }
}

// A line of a file that its end is awaited of.
fn follow_open(list: &mut Followed, line: &str) -> Result<(), Fault> {
    if line == "end" {
        list.open = None;
        return Ok(());
    }
    match &list.open {
        None => Err(Fault::Line),
        Some(name) => {
            list.held.append(name.as_str(), line.as_bytes())?;
            list.held.append(name.as_str(), b"\n")
        }
    }
}

// The command behind the sign of a command.
fn follow_command<R: Print + AllocGlobal>(
    rt: &R,
    list: &mut Followed,
    command: &str,
) -> Result<(), Fault> {
    let Some(line) = command.strip_prefix("hardcc") else {
        return Err(Fault::Line);
    };
    let mut words = Vec::new(rt.alloc());
    if let Some(line) = line.strip_prefix(' ') {
        for word in line.split(' ') {
            words.push(String::from_str(rt.alloc(), word)?)?;
        }
    }
    let failing = list.failing;
    list.failing = Failing::never();
    call(rt, &mut list.held, failing, &words)
}

// What is to fail in the next command.
fn follow_failing(failing: &mut Failing, line: &str) -> Result<(), Fault> {
    if let Some(call) = line.strip_prefix("shelf fails ") {
        failing.call = Some(number(call)? as u64);
    } else if let Some(room) = line.strip_prefix("sink room ") {
        failing.room = number(room)? as u64;
    } else if let Some(write) = line.strip_prefix("sink fails ") {
        let (write, keep) = cut(write);
        failing.write = Some((number(write)? as u64, number(keep)? as u64));
    } else {
        return Err(Fault::Line);
    }
    Ok(())
}

// A line that makes or changes a file.
fn follow_file(
    alloc: Global,
    held: &mut Held,
    form: &str,
    name: &str,
    parts: &str,
) -> Result<(), Fault> {
    match form.as_bytes() {
        b"text" => held.put(name, plain(alloc, parts)?),
        b"more" => held.append(name, plain(alloc, parts)?.as_slice()),
        b"copy" => held.put(parts, held.copy_of(name)?),
        b"cut" => {
            let mut bytes = held.copy_of(name)?;
            bytes.truncate(number(parts)? as usize);
            held.put(name, bytes)
        }
        _ => {
            let (first, second) = cut(parts);
            let first = number(first)?;
            follow_numbered(alloc, held, form, name, first, second)
        }
    }
}

// A line that makes or changes a file, with a number behind the file's name.
fn follow_numbered(
    alloc: Global,
    held: &mut Held,
    form: &str,
    name: &str,
    first: u32,
    rest: &str,
) -> Result<(), Fault> {
    match form.as_bytes() {
        b"times" => held.append(name, times(alloc, first, rest)?.as_slice()),
        b"numbered" => held.append(name, numbered(alloc, first, rest)?.as_bytes()),
        b"image" => held.put(name, image(alloc, first, rest)?),
        b"window" => {
            let file = with_window(alloc, &held.copy_of(name)?, first, register(rest)?)?;
            held.put(name, file)
        }
        b"alias" => {
            let file = with_alias(alloc, &held.copy_of(name)?, first, number(rest)?)?;
            held.put(name, file)
        }
        b"bytes" => {
            let file = changed(held.copy_of(name)?, first, &hex_bytes(alloc, rest)?)?;
            held.put(name, file)
        }
        b"flip" => {
            let file = flipped(held.copy_of(name)?, first, number(rest)?)?;
            held.put(name, file)
        }
        _ => Err(Fault::Line),
    }
}

// A text so many times.
fn times(alloc: Global, count: u32, text: &str) -> Result<Vec<u8>, Fault> {
    let part = plain(alloc, text)?;
    let mut bytes = Vec::new(alloc);
    for _ in 0..count {
        bytes.extend_from_slice(&part)?;
    }
    Ok(bytes)
}

// The bytes with others from a place on.
fn changed(mut bytes: Vec<u8>, at: u32, others: &[u8]) -> Result<Vec<u8>, Fault> {
    let mut at = at as usize;
    for other in others {
        match bytes.get_mut(at) {
            None => return Err(Fault::Line),
            Some(byte) => *byte = *other,
        }
        at = at.saturating_add(1);
    }
    Ok(bytes)
}

// The bytes with one bit inverted.
fn flipped(mut bytes: Vec<u8>, at: u32, bit: u32) -> Result<Vec<u8>, Fault> {
    if bit > 7 {
        return Err(Fault::Line);
    }
    match bytes.get_mut(at as usize) {
        None => Err(Fault::Line),
        Some(byte) => {
            *byte ^= 1u8 << bit;
            Ok(bytes)
        }
    }
}

// Prints a part of a file, in hexadecimal digits.
fn show<R: Print + AllocGlobal>(rt: &R, list: &Followed, rest: &str) -> Result<(), Fault> {
    let (name, parts) = cut(rest);
    let (first, count) = cut(parts);
    let first = number(first)? as usize;
    let end = first.saturating_add(number(count)? as usize);
    let Some(bytes) = list.held.get(name) else {
        return Err(Fault::Line);
    };
    let Some(part) = bytes.get(first..end) else {
        return Err(Fault::Line);
    };
    for row in part.chunks(32) {
        println!(rt; "{}", groups(rt.alloc(), row)?)?;
    }
    Ok(())
}

// Bytes in hexadecimal digits, four and four.
fn groups(alloc: Global, bytes: &[u8]) -> Result<String, Fault> {
    let mut text = String::new(alloc);
    for group in bytes.chunks(4) {
        if !text.is_empty() {
            text.push(' ')?;
        }
        text.push_str(hex::encode(alloc, group)?.as_str())?;
    }
    Ok(text)
}
