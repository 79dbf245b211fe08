//! The addresses of blocks.

ghost use Rattle.std.specs.Prelude.{◌≡◌, ℕ, ◌+◌, ◌*◌, ◌^◌, ◌≤◌, length, IfOk};
ghost use Rattle.layout_law.specs.Layout.{words};
ghost use Rattle.code_layout.specs.Starts.{starts_from};

use hard_items::HardBlock;
use hard_words::OutOfMemory;
use std::alloc::Global;

/// The address of each block, each with a head of so many words, and last the end of the text.
pub(crate) fn block_starts(
    alloc: Global,
    blocks: &[HardBlock],
    head: u32,
) -> Result<Vec<u32>, OutOfMemory>
    requires { 0x00400000 + 4 * (words blocks.now + head * length blocks.now) ≤ 2 ^ 28 }
    ensures { IfOk result (λ starts. starts.items ≡ starts_from head 0x00400000 blocks.now) }
{
    let mut starts = Vec::new(alloc);
    let mut at: u32 = 0x0040_0000;
    for block in blocks {
        starts.push(at)?;
        at += 4 * (head + block.items.len() as u32);
    }
    starts.push(at)?;
    Ok(starts)
}
