//! Images and their files: what is read back, and which images fit.

use elf_image::{
    Aliases, Image, Windows, fits, image_or_refused, one_image, read_image, write_image,
    written_is_image,
};
use hard_words::{OutOfMemory, Words};
use std::alloc::Global;
use std::test::Fail;

/// A program that ends at once, `lui $4,0 ; ori $4,$4,0 ; ori $2,$0,17 ; syscall`, with memory, windows and aliases.
fn listed(alloc: Global) -> Result<Image, Fail> {
    let text = [0x3c04_0000, 0x3484_0000, 0x3402_0011, 0x0000_000c];
    let windows = [(0x0040_0000, 4), (0x0040_0000, 5), (0x0040_0004, 1)];
    let aliases = [(0x0040_0000, 0x0040_0008), (0x0040_0004, 0x0040_0000)];
    Ok(Image {
        entry: 0x0040_0004,
        text: Words::from_vec(text.to_vec(alloc)?),
        initial: Words::from_vec([7, 0xffff_fffe].to_vec(alloc)?),
        memory_words: 16,
        windows: Windows::from_vec(windows.to_vec(alloc)?),
        aliases: Aliases::from_vec(aliases.to_vec(alloc)?),
    })
}

/// The file of an image, or nothing where it does not fit.
fn file_of(alloc: Global, image: &Image) -> Result<Vec<u8>, OutOfMemory> {
    if fits(image) {
        write_image(alloc, image)
    } else {
        Ok(Vec::new(alloc))
    }
}

#[test]
fn reads_back_what_was_written(rt: HostRuntime) -> Result<(), Fail> {
    let alloc = rt.alloc();
    let image = listed(alloc)?;
    let mut bytes = file_of(alloc, &image)?;
    for at in [200, 4095, 5000, 8191] {
        if at < bytes.len() {
            bytes[at] = 0xff;
        }
    }
    let read = read_image(alloc, &bytes)?;
    let same = (read.entry, read.memory_words) == (image.entry, image.memory_words)
        && read.text.as_slice() == image.text.as_slice()
        && read.initial.as_slice() == [7, 0xffff_fffe].as_slice()
        && read.windows.as_slice() == image.windows.as_slice()
        && read.aliases.as_slice() == image.aliases.as_slice();
    assert!(rt; same);
    written_is_image();
    one_image();
    image_or_refused();
    Ok(())
}

#[test]
fn says_which_images_fit(rt: HostRuntime) -> Result<(), Fail> {
    let alloc = rt.alloc();
    let mut image = listed(alloc)?;
    for (entry, memory_words, wanted) in [
        (0x0040_000c, 2, true),
        (0x0040_0010, 2, false),
        (0x0040_0002, 2, false),
        (0x0040_000c, 1, false),
        (0x0040_000c, 4_194_304, true),
        (0x0040_000c, 4_194_305, false),
    ] {
        image.entry = entry;
        image.memory_words = memory_words;
        assert!(rt; fits(&image) == wanted, "{entry} {memory_words}");
    }
    Ok(())
}
