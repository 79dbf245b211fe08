//! Reads an image from any bytes.
ghost use Rattle.std.specs.Prelude.{◌≡◌, IfOk, IsErrOf, None, Some};
ghost use Rattle.mips_isa.specs.Image.{ImageFields};
ghost use Rattle.elf_image.specs.declared.read.ImageError.{ImageError};
ghost use Rattle.elf_image.specs.declared.read.ImageError.TheVariants.{OutOfMemory};
ghost use Rattle.elf_image.specs.Held.{IsImage};
ghost use Rattle.elf_image.specs.Layout.{fields_of};
ghost use Rattle.elf_image.specs.Refusal.{refusal, fields_told};

use crate::image::{Aliases, Image, Windows};
use crate::layout::{data_at, windows_at};
use hard_words::Words;
use std::alloc::{AllocError, Global};
use thiserror::Error;

mod header;
mod lists;
mod numbers;
mod sections;
mod segments;

use header::header_fault;
use lists::{read_aliases, read_windows, read_words};
use numbers::word_at;
use sections::{fixed_fault, list_fault, sizes_told};
use segments::{segment_fault, size_fault};

/// Why bytes are no image, or that there was no memory to read one.
#[derive(Clone, Copy, Debug, PartialEq, Eq, Error)]
pub enum ImageError {
    /// There are fewer bytes than the parts told so far need.
    #[error("truncated: {need} bytes needed, {have} there")]
    Truncated { need: u64, have: u64 },
    /// The magic number at offset 0 differs.
    #[error("not an ELF file")]
    NotElf,
    /// The machine at offset 18 is not MIPS.
    #[error("not for MIPS")]
    NotMips,
    /// The header's field at this offset differs.
    #[error("bad header field at {field}")]
    BadHeader { field: u8 },
    /// The segment of this index, 0 or 1, differs.
    #[error("bad segment {index}")]
    BadSegment { index: u8 },
    /// The section of this index, 0 to 5, or what it holds differs.
    #[error("bad section {index}")]
    BadSection { index: u8 },
    /// There are more bytes than the image has.
    #[error("trailing bytes: {need} bytes needed, {have} there")]
    TrailingBytes { need: u64, have: u64 },
    /// There was no memory.
    #[error("out of memory")]
    OutOfMemory,
}

/// Reads the image that bytes hold.
///
/// # Errors
///
/// The first of the checks that fails says what is refused, whatever the memory: the checks take none. Only where none
/// fails, and there was no memory for the image, is it `OutOfMemory`.
pub fn read_image(alloc: Global, bytes: &[u8]) -> Result<Image, ImageError>
    ensures ok { IfOk result (λ i. IsImage bytes.now (fields_of i)) }
    ensures refused { (e : ImageError) → IsErrOf result e → (e ≡ OutOfMemory → ⊥) → (f : ImageFields) → IsImage bytes.now f → ⊥ }
    ensures first { (e : ImageError) → IsErrOf result e → (e ≡ OutOfMemory → ⊥) → refusal bytes.now ≡ Some e }
    ensures refuses { (e : ImageError) → refusal bytes.now ≡ Some e → IsErrOf result e }
{
    match refusal(bytes) {
        Some(fault) => Err(fault),
        None => match read_held(alloc, bytes) {
            Ok(image) => Ok(image),
            Err(_) => Err(ImageError::OutOfMemory),
        },
    }
}

/// Why the bytes hold no image, if they hold none.
fn refusal(bytes: &[u8]) -> Option<ImageError>
    ensures { result ≡ refusal bytes.now }
{
    match header_fault(bytes) {
        Some(fault) => return Some(fault),
        None => {}
    }
    match segment_fault(bytes) {
        Some(fault) => return Some(fault),
        None => {}
    }
    match size_fault(bytes) {
        Some(fault) => return Some(fault),
        None => {}
    }
    match fixed_fault(bytes) {
        Some(fault) => return Some(fault),
        None => {}
    }
    list_fault(bytes)
}

/// The image that bytes hold which no check refuses.
fn read_held(alloc: Global, bytes: &[u8]) -> Result<Image, AllocError>
    requires { refusal bytes.now ≡ None }
    ensures { IfOk result (λ i. fields_of i ≡ fields_told bytes.now) }
{
    let sizes = sizes_told(bytes);
    let initial_at = data_at(sizes) as usize;
    let windows_at = windows_at(sizes) as usize;
    let aliases_at = windows_at + 8 * sizes.windows as usize;
    let text = read_words(alloc, bytes, 4096, sizes.text as usize)?;
    let initial = read_words(alloc, bytes, initial_at, sizes.initial as usize)?;
    let windows = read_windows(alloc, bytes, windows_at, sizes.windows as usize)?;
    let aliases = read_aliases(alloc, bytes, aliases_at, sizes.aliases as usize)?;
    Ok(Image {
        entry: word_at(bytes, 24),
        text: Words::from_vec(text),
        initial: Words::from_vec(initial),
        memory_words: sizes.memory_words,
        windows: Windows::from_vec(windows),
        aliases: Aliases::from_vec(aliases),
    })
}
