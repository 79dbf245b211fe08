//! The image of a signed program.

ghost use Rattle.std.specs.Prelude.{◌≡◌, ◌≤◌, ◌<◌, ◌+◌, ◌*◌, IfOk, List, All, length};
ghost use Rattle.mips_text.specs.Text.{IsText};
ghost use Rattle.hard_items.specs.Rules.{Guarded, Twin};
ghost use Rattle.hard_items.specs.Counts.{room};
ghost use Rattle.hard_items.specs.Counted.{HasNoFreeNop, AreBusy};
ghost use Rattle.elf_image.specs.Layout.{fields_of};
ghost use Rattle.lint_words.specs.WindowList.{AreWindows};
ghost use Rattle.harden_lint.specs.Rules.{WellTyped};
ghost use Rattle.harden_lint.specs.Rows.{AreRows};
ghost use Rattle.harden_lint.specs.declared.TypingRow.{TypingRow};
ghost use Rattle.layout_law.specs.Laws.{Prepared};
ghost use Rattle.harden.specs.Image.{most_blocks, most_split_blocks, IsImageOf, IsSplitImageOf};
ghost use Rattle.harden.specs.HardenChainSteps.{IsInOrder, IsImageOfOrdered, IsImageOfSigned, addressed};

use crate::items::{order, order_split, signed};
use alias_lister::aliases;
use code_layout::layout;
use elf_image::{Aliases, Image, Windows};
use hard_items::{HardProgram, Signed};
use hard_words::OutOfMemory;
use harden_lint::{LintError, lint};
use layout_facts::{
    no_word_is_dead, reloads_are_loads, text_turned, text_turned_through, windows_are_few,
};
use layout_hardened::{prepared_has_starts, words_are_hardened, words_have_ways, words_run_as};
use layout_law::{starts_are_blocks, text_length, words_are_typed};
use layout_moves_law::smooth_words_have_no_alias;
use std::alloc::Global;
use window_lister::windows;

/// The address of the first word of a text.
const TEXT: u32 = 0x0040_0000;

/// The windows of a text that keeps the rules.
fn listed(alloc: Global, text: &[u32]) -> Result<Vec<(u32, u8)>, OutOfMemory>
    requires text { IsText text.now }
    requires typed { WellTyped text.now 4194304 }
    ensures windows { IfOk result (λ list. AreWindows text.now list.items) }
    ensures rows { IfOk result (λ list. (rows : List TypingRow) × AreRows text.now 4194304 rows) }
{
    match lint(alloc, text, TEXT) {
        Ok(typing) => windows(alloc, text, &typing),
        Err(LintError::OutOfMemory) => Err(OutOfMemory),
        Err(LintError::BadAt { .. }) => unreachable!(),
    }
}

/// Pairs of blocks as pairs of the addresses at which they start.
fn at_addresses(
    alloc: Global,
    starts: &[u32],
    pairs: &[(u32, u32)],
) -> Result<Vec<(u32, u32)>, OutOfMemory>
    requires { All (λ p. (p.0 < length starts.now) × (p.1 < length starts.now)) pairs.now }
    ensures { IfOk result (λ list. list.items ≡ addressed starts.now pairs.now) }
{
    let mut list = Vec::new(alloc);
    for (from, to) in pairs {
        list.push((starts[*from as usize], starts[*to as usize]))?;
    }
    Ok(list)
}

/// The image of a signed program: its words, and the lists of its windows and aliases.
fn image_of(alloc: Global, signed: Signed) -> Result<Image, OutOfMemory>
    requires prepared { Prepared signed }
    requires guarded { Guarded signed.program }
    requires few { length signed.program.blocks ≤ 65535 }
    ensures { IfOk result (λ image. IsImageOfSigned signed (fields_of image)) }
{
    words_are_hardened();
    words_run_as();
    words_have_ways();
    words_are_typed();
    starts_are_blocks();
    text_length();
    windows_are_few();
    reloads_are_loads();
    no_word_is_dead();
    prepared_has_starts();
    smooth_words_have_no_alias();
    text_turned();
    text_turned_through();
    let pairs = aliases(alloc, &signed)?;
    let laid = layout(alloc, &signed)?;
    let windows = listed(alloc, laid.text.as_slice())?;
    let aliases = at_addresses(alloc, laid.starts.as_slice(), pairs.as_slice())?;
    let HardProgram {
        initial,
        memory_words,
        ..
    } = signed.program;
    Ok(Image {
        entry: TEXT,
        text: laid.text,
        initial,
        memory_words,
        windows: Windows::from_vec(windows),
        aliases: Aliases::from_vec(aliases),
    })
}

/// The image of a program with its checks and in its order.
fn image_of_ordered(alloc: Global, program: HardProgram) -> Result<Image, OutOfMemory>
    requires in_order { IsInOrder program }
    requires few { most_blocks program ≤ 65535 }
    requires room { room program ≤ 66060288 }
    ensures { IfOk result (λ image. IsImageOfOrdered program (fields_of image)) }
{
    let signed = signed(alloc, program)?;
    image_of(alloc, signed)
}

/// The hardened image of a program whose streams are twins.
///
/// # Errors
///
/// [`OutOfMemory`] where there is no memory.
pub fn harden(alloc: Global, program: HardProgram) -> Result<Image, OutOfMemory>
    requires twin { Twin program }
    requires no_free_nop { HasNoFreeNop program }
    requires busy { AreBusy program }
    requires few { most_blocks program ≤ 65535 }
    requires room { room program ≤ 66060288 }
    ensures { IfOk result (λ image. IsImageOf program (fields_of image)) }
{
    let ordered = order(alloc, program)?;
    image_of_ordered(alloc, ordered)
}

/// The hardened image of a program whose streams are twins, with its critical edges split, so that it has no aliases.
///
/// # Errors
///
/// [`OutOfMemory`] where there is no memory.
pub fn harden_split(alloc: Global, program: HardProgram) -> Result<Image, OutOfMemory>
    requires twin { Twin program }
    requires no_free_nop { HasNoFreeNop program }
    requires busy { AreBusy program }
    requires few { most_split_blocks program ≤ 65535 }
    requires room { room program + 45 * length program.blocks ≤ 66060288 }
    ensures { IfOk result (λ image. IsSplitImageOf program (fields_of image)) }
{
    let ordered = order_split(alloc, program)?;
    image_of_ordered(alloc, ordered)
}
