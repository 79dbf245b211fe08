//! The image.

ghost use Rattle.std.specs.Prelude.{◌≡◌, IfOk};
ghost use Rattle.hard_words.specs.Words.{AreWords};
ghost use Rattle.elf_image.specs.Layout.{fields_of};
ghost use Rattle.harden.specs.Blocks.{IsReady, IsImageOfBlocks, IsSplitImageOfBlocks};
ghost use Rattle.harden.specs.CompileBlocksSteps.{IsDoubled};

use crate::items_image::{harden, harden_split};
use crate::places::all_places;
use double_law::doubled_reloads;
use duplicate_pass::duplicate;
use elf_image::Image;
use frame_plan::plan;
use hard_items::HardProgram;
use hard_words::OutOfMemory;
use layout_hardened::{aliases_are_few, hardened_fits};
use mid_blocks::Mid;
use register_halves::leaf_has_no_slots;
use std::alloc::Global;

/// Numbers of 32 bits are words.
fn see_words(words: &[u32])
    ensures { AreWords words.now }
{}

/// The program in blocks made twice, in two streams.
fn double(alloc: Global, mid: &Mid) -> Result<HardProgram, OutOfMemory>
    requires { IsReady mid.now }
    ensures { IfOk result (IsDoubled mid.now) }
{
    doubled_reloads();
    leaf_has_no_slots();
    let places = all_places(alloc, mid)?;
    let frames = plan(alloc, mid)?;
    duplicate(alloc, mid, places.as_slice(), &frames)
}

/// The hardened image of a program in blocks.
///
/// # Errors
///
/// [`OutOfMemory`] where there is no memory.
pub fn compile_blocks(alloc: Global, mid: &Mid) -> Result<Image, OutOfMemory>
    requires { IsReady mid.now }
    ensures { IfOk result (λ image. IsImageOfBlocks mid.now (fields_of image)) }
{
    hardened_fits();
    aliases_are_few();
    let doubled = double(alloc, mid)?;
    let image = harden(alloc, doubled)?;
    see_words(image.text.as_slice());
    Ok(image)
}

/// The hardened image of a program in blocks with its critical edges split, so that it has no aliases.
///
/// # Errors
///
/// [`OutOfMemory`] where there is no memory.
pub fn compile_blocks_split(alloc: Global, mid: &Mid) -> Result<Image, OutOfMemory>
    requires { IsReady mid.now }
    ensures { IfOk result (λ image. IsSplitImageOfBlocks mid.now (fields_of image)) }
{
    hardened_fits();
    let doubled = double(alloc, mid)?;
    let image = harden_split(alloc, doubled)?;
    see_words(image.text.as_slice());
    Ok(image)
}
