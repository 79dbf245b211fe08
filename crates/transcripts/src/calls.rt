//! A command, and what is printed of it.

use crate::fault::Fault;
use crate::files::Held;
use hard_shelf::{MemoryShelf, MemorySink};
use hardcc_core::run_tool;
use sha2::{Digest, Sha256};
use std::alloc::{AllocError, Global};

/// What fails in a command: the call of the shelf of a number, and the write of a number, which keeps so many bytes. Both are
/// counted from 1.
#[derive(Clone, Copy)]
pub(crate) struct Failing {
    /// The call of the shelf.
    pub(crate) call: Option<u64>,
    /// The write, and how many bytes it keeps.
    pub(crate) write: Option<(u64, u64)>,
    /// The bytes that the sink has room for.
    pub(crate) room: u64,
}

impl Failing {
    /// Nothing fails, in a room of 1,048,576 bytes.
    pub(crate) fn never() -> Failing {
        Failing {
            call: None,
            write: None,
            room: 1_048_576,
        }
    }
}

/// Does what words say over the files, and prints the text that is written, the status, and each file that is then another.
pub(crate) fn call<R: Print + AllocGlobal>(
    rt: &R,
    held: &mut Held,
    failing: Failing,
    words: &Vec<String>,
) -> Result<(), Fault> {
    let mut shelf = held.shelf(words)?;
    if let Some(call) = failing.call {
        shelf.fail_at(call)?;
    }
    let mut sink = MemorySink::new(rt.alloc(), failing.room)?;
    if let Some((write, keep)) = failing.write {
        sink.fail_at(write, keep)?;
    }
    let status = run_tool(rt.alloc(), words, &mut shelf, &mut sink);
    print_text(rt, sink.written())?;
    println!(rt; "status {status}")?;
    for word in words.iter() {
        print_put(rt, held, &shelf, word.as_str())?;
    }
    print_put(rt, held, &shelf, "self.img")
}

// The digest of bytes, in hexadecimal digits.
fn digest_of(alloc: Global, bytes: &[u8]) -> Result<String, AllocError> {
    hex::encode(alloc, Sha256::digest(bytes))
}

// Prints a text. Of one with more than 40 lines the first 8 and the last 4 are printed, between them the digest of the whole.
fn print_text<R: Print + AllocGlobal>(rt: &R, bytes: &[u8]) -> Result<(), Fault> {
    let Ok(text) = str::from_utf8(bytes) else {
        return Err(Fault::Line);
    };
    let count = text.lines().count();
    if count <= 40 {
        for line in text.lines() {
            println!(rt; "{line}")?;
        }
    } else {
        for line in text.lines().take(8) {
            println!(rt; "{line}")?;
        }
        let digest = digest_of(rt.alloc(), bytes)?;
        println!(rt; ".. {count} lines, sha256 {digest} ..")?;
        for line in text.lines().skip(count.saturating_sub(4)) {
            println!(rt; "{line}")?;
        }
    }
    if !text.is_empty() && !text.ends_with('\n') {
        println!(rt; "\\ no end of line")?;
    }
    Ok(())
}

// Prints how long a file is that the shelf holds and was not there before, or was another, and its digest, and keeps it.
fn print_put<R: Print + AllocGlobal>(
    rt: &R,
    held: &mut Held,
    shelf: &MemoryShelf,
    name: &str,
) -> Result<(), Fault> {
    let Some(bytes) = shelf.held(name) else {
        return Ok(());
    };
    if held.get(name) == Some(bytes) {
        return Ok(());
    }
    let length = bytes.len();
    let digest = digest_of(rt.alloc(), bytes)?;
    println!(rt; "put {name}: {length} bytes, sha256 {digest}")?;
    held.put(name, Vec::from_slice(rt.alloc(), bytes)?)
}
