//! Writes an image as a file.
ghost use Rattle.std.specs.Prelude.{◌≡◌, ◌≤◌, ◌<◌, ◌+◌, ◌-◌, ◌*◌, ◌++◌, length, OnOk, IfOk};
ghost use Rattle.std.specs.List.{flat_map};
ghost use Rattle.elf_image.specs.Bounds.{Fits, SizesFit};
ghost use Rattle.elf_image.specs.Held.{IsImage};
ghost use Rattle.hard_words.specs.Words.{AreWords};
ghost use Rattle.elf_image.specs.Layout.{fields_of, sizes_of, half, word, pair, ident, zeros, front, back, header, segments, names, sections, image_bytes, data_at, sections_at};

use crate::image::Image;
use crate::layout::{Sizes, aliases_at, data_at, names_at, sections_at, windows_at};
use crate::limits::{MEMORY_START, TEXT_START};
use byteorder::{BigEndian, ByteOrder};
use hard_words::OutOfMemory;
use std::alloc::{AllocError, Global};

/// The bytes of a file that holds the image, with zeros between its parts. [`crate::fits`] tells which images it takes.
pub fn write_image(alloc: Global, image: &Image) -> Result<Vec<u8>, OutOfMemory>
    requires { Fits (fields_of image.now) }
    ensures bytes { IfOk result (λ bytes. bytes.items ≡ image_bytes (fields_of image.now)) }
    ensures held { IfOk result (λ bytes. IsImage bytes.items (fields_of image.now)) }
{
    see_words(image.text.as_slice());
    see_words(image.initial.as_slice());
    let mut out = Vec::new(alloc);
    put_front(&mut out, image)?;
    put_back(&mut out, image)?;
    Ok(out)
}

/// Tells proofs that words have 32 bits; it does nothing.
fn see_words(words: &[u32])
    ensures { AreWords words.now }
{}

/// How many words, windows and aliases the image has.
fn sizes_of(image: &Image) -> Sizes
    requires { Fits (fields_of image.now) }
    ensures { result ≡ sizes_of (fields_of image.now) }
{
    Sizes {
        text: image.text.len() as u32,
        initial: image.initial.len() as u32,
        memory_words: image.memory_words,
        windows: image.windows.len() as u32,
        aliases: image.aliases.len() as u32,
    }
}

/// Adds the headers and the text.
#[tactic(auto, unfolding(crate::specs::Layout::front))]
fn put_front(out: &mut Vec<u8>, image: &Image) -> Result<(), AllocError>
    requires { Fits (fields_of image.now) }
    ensures { OnOk result (out.new.items ≡ out.old.items ++ front (fields_of image.now)) }
{
    let sizes = sizes_of(image);
    put_header(out, image)?;
    put_segments(out, sizes)?;
    put_zeros(out, 3980)?;
    put_words(out, image.text.as_slice())?;
    put_zeros(out, data_at(sizes) - (4096 + 4 * sizes.text))
}

/// Adds the initial words, windows, aliases, names and sections.
#[tactic(auto, unfolding(crate::specs::Layout::back))]
fn put_back(out: &mut Vec<u8>, image: &Image) -> Result<(), AllocError>
    requires { Fits (fields_of image.now) }
    ensures { OnOk result (out.new.items ≡ out.old.items ++ back (fields_of image.now)) }
{
    put_words(out, image.initial.as_slice())?;
    put_windows(out, image.windows.as_slice())?;
    put_aliases(out, image.aliases.as_slice())?;
    put_names(out)?;
    put_sections(out, sizes_of(image))
}

/// Adds the header.
#[tactic(auto, unfolding(crate::specs::Layout::header, crate::specs::Layout::kinds, crate::specs::Layout::places, crate::specs::Layout::counts))]
fn put_header(out: &mut Vec<u8>, image: &Image) -> Result<(), AllocError>
    requires { Fits (fields_of image.now) }
    ensures { OnOk result (out.new.items ≡ out.old.items ++ header (fields_of image.now)) }
{
    let sections = sections_at(sizes_of(image));
    put_ident(out)?;
    put_halves(out, &[2, 8])?;
    put_words(out, &[1, image.entry, 52, sections, 1])?;
    put_halves(out, &[52, 32, 2, 40, 6, 5])
}

/// Adds the header's first 16 bytes.
#[tactic(auto, unfolding(crate::specs::Layout::ident))]
fn put_ident(out: &mut Vec<u8>) -> Result<(), AllocError>
    ensures { OnOk result (out.new.items ≡ out.old.items ++ ident) }
{
    out.extend_from_slice(&[0x7f, 0x45, 0x4c, 0x46, 1, 2, 1, 0, 0, 0, 0, 0, 0, 0, 0, 0])
}

/// Adds what tells of the segments.
#[tactic(auto, unfolding(crate::specs::Layout::segments, crate::specs::Layout::text_segment, crate::specs::Layout::data_segment))]
fn put_segments(out: &mut Vec<u8>, sizes: Sizes) -> Result<(), AllocError>
    requires { SizesFit sizes }
    ensures { OnOk result (out.new.items ≡ out.old.items ++ segments sizes) }
{
    let text = 4 * sizes.text;
    let initial = 4 * sizes.initial;
    let memory = 4 * sizes.memory_words;
    let data = data_at(sizes);
    put_words(out, &[1, 4096, TEXT_START, TEXT_START, text, text, 5, 4096])?;
    put_words(
        out,
        &[
            1,
            data,
            MEMORY_START,
            MEMORY_START,
            initial,
            memory,
            6,
            4096,
        ],
    )
}

/// Adds what tells of the sections.
#[tactic(auto, unfolding(crate::specs::Layout::sections, crate::specs::Layout::no_section, crate::specs::Layout::text_section, crate::specs::Layout::data_section, crate::specs::Layout::windows_section, crate::specs::Layout::aliases_section, crate::specs::Layout::names_section))]
fn put_sections(out: &mut Vec<u8>, sizes: Sizes) -> Result<(), AllocError>
    requires sizes { SizesFit sizes }
    requires whole { sections_at sizes + 240 ≤ 3221225472 }
    ensures { OnOk result (out.new.items ≡ out.old.items ++ sections sizes) }
{
    let text = 4 * sizes.text;
    let initial = 4 * sizes.initial;
    let windows = 8 * sizes.windows;
    let aliases = 8 * sizes.aliases;
    put_words(out, &[0, 0, 0, 0, 0, 0, 0, 0, 0, 0])?;
    put_words(out, &[1, 1, 6, TEXT_START, 4096, text, 0, 0, 4, 0])?;
    put_words(
        out,
        &[7, 1, 3, MEMORY_START, data_at(sizes), initial, 0, 0, 8, 0],
    )?;
    put_words(out, &[13, 1, 0, 0, windows_at(sizes), windows, 0, 0, 4, 8])?;
    put_words(out, &[27, 1, 0, 0, aliases_at(sizes), aliases, 0, 0, 4, 8])?;
    put_words(out, &[42, 3, 0, 0, names_at(sizes), 52, 0, 0, 1, 0])
}

/// Adds words, high byte first.
fn put_words(out: &mut Vec<u8>, words: &[u32]) -> Result<(), AllocError>
    ensures { OnOk result (out.new.items ≡ out.old.items ++ flat_map word words.now) }
{
    for w in words {
        put_word(out, *w)?;
    }
    Ok(())
}

/// Adds numbers of 16 bits, high byte first.
fn put_halves(out: &mut Vec<u8>, halves: &[u16]) -> Result<(), AllocError>
    ensures { OnOk result (out.new.items ≡ out.old.items ++ flat_map half halves.now) }
{
    for h in halves {
        put_half(out, *h)?;
    }
    Ok(())
}

/// Adds windows, each an address and a register as words.
fn put_windows(out: &mut Vec<u8>, windows: &[(u32, u8)]) -> Result<(), AllocError>
    ensures { OnOk result (out.new.items ≡ out.old.items ++ flat_map pair windows.now) }
{
    for w in windows {
        put_pair(out, (w.0, w.1 as u32))?;
    }
    Ok(())
}

/// Adds aliases, each two addresses as words.
fn put_aliases(out: &mut Vec<u8>, aliases: &[(u32, u32)]) -> Result<(), AllocError>
    ensures { OnOk result (out.new.items ≡ out.old.items ++ flat_map pair aliases.now) }
{
    for a in aliases {
        put_pair(out, *a)?;
    }
    Ok(())
}

/// Adds two words.
#[tactic(auto, unfolding(crate::specs::Layout::pair))]
fn put_pair(out: &mut Vec<u8>, words: (u32, u32)) -> Result<(), AllocError>
    ensures { OnOk result (out.new.items ≡ out.old.items ++ pair words) }
{
    put_word(out, words.0)?;
    put_word(out, words.1)
}

/// Adds a word, high byte first.
#[tactic(auto, unfolding(crate::specs::Layout::word))]
fn put_word(out: &mut Vec<u8>, n: u32) -> Result<(), AllocError>
    ensures { OnOk result (out.new.items ≡ out.old.items ++ word n) }
{
    let mut bytes = [0; 4];
    BigEndian::write_u32(&mut bytes, n);
    out.extend_from_slice(&bytes)
}

/// Adds a number of 16 bits, high byte first.
#[tactic(auto, unfolding(crate::specs::Layout::half))]
fn put_half(out: &mut Vec<u8>, n: u16) -> Result<(), AllocError>
    ensures { OnOk result (out.new.items ≡ out.old.items ++ half n) }
{
    let mut bytes = [0; 2];
    BigEndian::write_u16(&mut bytes, n);
    out.extend_from_slice(&bytes)
}

/// Adds the names of the sections.
#[tactic(auto, unfolding(crate::specs::Layout::names))]
fn put_names(out: &mut Vec<u8>) -> Result<(), AllocError>
    ensures { OnOk result (out.new.items ≡ out.old.items ++ names) }
{
    out.extend_from_slice(b"\0.text\0.data\0.eddi.windows\0.cfcss.aliases\0.shstrtab\0")
}

/// Adds so many zero bytes.
#[tactic(auto, unfolding(crate::specs::Layout::zeros))]
fn put_zeros(out: &mut Vec<u8>, count: u32) -> Result<(), AllocError>
    requires { count ≤ 4096 }
    ensures { OnOk result (out.new.items ≡ out.old.items ++ zeros count) }
{
    let end = out.len() + count as usize;
    out.resize(end, 0)
}
