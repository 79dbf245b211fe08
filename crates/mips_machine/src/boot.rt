//! The machine at its start.

ghost use Rattle.std.specs.Prelude.{◌≡◌, ◌≤◌, length, IfOk};
ghost use Rattle.elf_image.specs.Bounds.{Fits};
ghost use Rattle.elf_image.specs.Layout.{fields_of};
ghost use Rattle.mips_isa.specs.Image.{boot_state};
ghost use Rattle.mips_machine.specs.View.{state_of};

use crate::Machine;
use elf_image::Image;
use hard_words::{OutOfMemory, Words};
use std::alloc::Global;

impl Machine {
    /// The machine with an image in it, about to execute the entry: all registers are 0, and memory
    /// holds the image's initial words and then zeros. It takes memory for the text, the memory and
    /// the registers; the feed is moved in.
    ///
    /// # Errors
    ///
    /// There was no memory.
    pub fn boot(alloc: Global, image: &Image, feed: Vec<u32>) -> Result<Machine, OutOfMemory>
        requires fits { Fits (fields_of image.now) }
        requires feed { length feed.items ≤ 1000000 }
        ensures { IfOk result (λ m. state_of m ≡ boot_state (fields_of image.now) feed.items) }
    {
        let text = Vec::from_slice(alloc, image.text.as_slice())?;
        let mut memory = Vec::from_slice(alloc, image.initial.as_slice())?;
        memory.resize(image.memory_words as usize, 0)?;
        let regs = Vec::from_slice(alloc, &[0; 32])?;
        Ok(Machine {
            pc: image.entry,
            npc: image.entry.wrapping_add(4),
            regs: Words::from_vec(regs),
            hi: 0,
            lo: 0,
            text: Words::from_vec(text),
            memory: Words::from_vec(memory),
            feed: Words::from_vec(feed),
            fed: 0,
            last_load: 0,
            quiet: 0,
            slot: false,
            end: None,
        })
    }
}
