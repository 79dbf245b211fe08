//! Images that a line lays.

use crate::fault::Fault;
use crate::texts::hex_word;
use elf_image::{Aliases, Image, TEXT_START, Windows, fits, read_image, write_image};
use hard_words::Words;
use std::alloc::Global;

/// The file of an image with these words of text, from its first word on, so many words of memory, and no lists.
pub(crate) fn image(alloc: Global, memory_words: u32, words: &str) -> Result<Vec<u8>, Fault> {
    let mut text = Vec::new(alloc);
    for word in words.split(' ') {
        text.push(hex_word(word)?)?;
    }
    written(
        alloc,
        &Image {
            entry: TEXT_START,
            text: Words::from_vec(text),
            initial: Words::new(alloc),
            memory_words,
            windows: Windows::new(alloc),
            aliases: Aliases::new(alloc),
        },
    )
}

/// The file of the image of a file, with one more window.
pub(crate) fn with_window(
    alloc: Global,
    file: &[u8],
    address: u32,
    register: u8,
) -> Result<Vec<u8>, Fault> {
    let Ok(mut image) = read_image(alloc, file) else {
        return Err(Fault::Line);
    };
    let mut list = image.windows.into_vec();
    list.push((address, register))?;
    image.windows = Windows::from_vec(list);
    written(alloc, &image)
}

/// The file of the image of a file, with one more alias.
pub(crate) fn with_alias(alloc: Global, file: &[u8], from: u32, to: u32) -> Result<Vec<u8>, Fault> {
    let Ok(mut image) = read_image(alloc, file) else {
        return Err(Fault::Line);
    };
    let mut list = image.aliases.into_vec();
    list.push((from, to))?;
    image.aliases = Aliases::from_vec(list);
    written(alloc, &image)
}

fn written(alloc: Global, image: &Image) -> Result<Vec<u8>, Fault> {
    if fits(image) {
        Ok(write_image(alloc, image)?)
    } else {
        Err(Fault::Line)
    }
}
