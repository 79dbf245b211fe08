//! How many windows a text has.

ghost use Rattle.std.specs.Prelude.{IfOk};
ghost use Rattle.elf_image.specs.Bounds.{Fits};
ghost use Rattle.elf_image.specs.Layout.{fields_of};
ghost use Rattle.run_audit.specs.Audits.{CountsWindows};

use elf_image::Image;
use hard_words::OutOfMemory;
use harden_lint::{Typing, TypingRows};
use std::alloc::Global;
use window_lister::windows;

/// The number of windows of an image's text: of the pairs of an address and a register at which a fault may go unseen. It is a
/// function of the text alone, whatever list the image has.
pub fn window_count(alloc: Global, image: &Image) -> Result<u64, OutOfMemory>
    requires { Fits (fields_of image.now) }
    ensures { IfOk result (λ count. CountsWindows image.now.text count) }
{
    // The windows are a function of the text: no rows are read.
    let typing = Typing {
        rows: TypingRows::from_vec(Vec::new(alloc)),
    };
    let list = windows(alloc, image.text.as_slice(), &typing)?;
    Ok(list.len() as u64)
}
