//! A signed program as the words of a text.

ghost use Rattle.std.specs.Prelude.{◌≡◌, ℕ, ◌+◌, ◌*◌, ◌%◌, ◌^◌, ◌<◌, ◌≤◌, ◌++◌, IfOk, OnOk, length};
ghost use Rattle.hard_items.specs.declared.code.Class.TheVariants as Class;
ghost use Rattle.hard_items.specs.Streams.{plain};
ghost use Rattle.hard_items.specs.Heads.{head_items, headed};
ghost use Rattle.hard_items.specs.Run.{items_of};
ghost use Rattle.layout_law.specs.Layout.{address, addresses, text, items_words};
ghost use Rattle.layout_law.specs.Level.{Laying};
ghost use Rattle.code_layout.specs.Starts.{starts_from, put_words, AllPut};

use crate::emit::put_items;
use crate::table::block_starts;
use hard_items::{Class, Fix, Item, Mark, Signed};
use hard_words::{OutOfMemory, Words};
use mips_isa::Instr;
use std::alloc::{AllocError, Global};

/// How many words the head of a block has.
const HEAD_WORDS: u32 = 7;

/// A text and where its blocks begin.
#[derive(Debug, Drop)]
pub struct Laid {
    /// The words of the text, which stands at 0x00400000.
    pub text: Words,
    /// The address of each block's first word, in the order of the blocks.
    pub starts: Words,
}

/// An item of a head.
fn of_head(instr: Instr) -> Item
    ensures { result ≡ plain instr Class.Head }
{
    Item {
        instr,
        class: Class::Head,
        fix: Fix::Plain,
    }
}

/// The items of the head with a mark's numbers: the check of the signature, after CFCSS (IEEE Transactions on Reliability 51(1),
/// 2002), in the project's own form.
fn head(mark: &Mark) -> [Item; 7]
    ensures { result ≡ head_items mark.now }
{
    let nop = Instr::Sll {
        rd: 0,
        rt: 0,
        sh: 0,
    };
    let differs = Instr::Xori {
        rt: 24,
        rs: 24,
        imm: mark.d,
    };
    let adjusts = Instr::Xor {
        rd: 24,
        rs: 24,
        rt: 28,
    };
    let wants = Instr::Ori {
        rt: 1,
        rs: 0,
        imm: mark.s,
    };
    let leaves = Instr::Ori {
        rt: 28,
        rs: 0,
        imm: mark.adjust,
    };
    let compares = Instr::Beq {
        rs: 24,
        rt: 1,
        imm: 2,
    };
    let reports = Instr::Break { code: 2 };
    [
        of_head(differs),
        of_head(if mark.fan { adjusts } else { nop }),
        of_head(wants),
        of_head(leaves),
        of_head(compares),
        of_head(nop),
        of_head(reports),
    ]
}

/// Adds the words of a head and of the items behind it, from an address on, before the block at another.
fn put_headed(
    out: &mut Vec<u32>,
    mark: &Mark,
    items: &[Item],
    first: u32,
    back: u32,
    starts: &[u32],
    entries: &[u32],
) -> Result<(), AllocError>
    requires aligned { first % 4 ≡ 0 }
    requires low { first + 4 * length (head_items mark.now ++ items.now) ≤ 2 ^ 28 }
    requires back_low { back ≤ 2 ^ 28 }
    requires fits { AllPut starts.now entries.now back first (head_items mark.now ++ items.now) }
    ensures { OnOk result (out.new.items ≡ out.old.items ++ put_words starts.now entries.now back first (head_items mark.now ++ items.now)) }
{
    put_items(out, &head(mark), first, back, starts, entries)?;
    put_items(out, items, first + 4 * HEAD_WORDS, back, starts, entries)
}

/// Adds the words of a block: those of its head, where there are marks, and those of its items.
fn put_block(
    out: &mut Vec<u32>,
    signed: &Signed,
    block: usize,
    starts: &[u32],
) -> Result<(), AllocError>
    requires laying { Laying signed.now }
    requires there { block < length signed.now.program.blocks }
    requires table { starts.now ≡ starts_from 0 0x00400000 (headed signed.now).blocks }
    ensures { OnOk result (out.new.items ≡ out.old.items ++ items_words (headed signed.now) block (address (headed signed.now) block) (items_of (headed signed.now) block)) }
{
    let first = starts[block];
    let back = starts[block + 1];
    let entries = signed.program.entries.as_slice();
    let blocks = signed.program.blocks.as_slice();
    let items = blocks[block].items.as_slice();
    match signed.marks.get(block) {
        Some(mark) => put_headed(out, mark, items, first, back, starts, entries),
        None => put_items(out, items, first, back, starts, entries),
    }
}

/// The address of each block, and last the end of the text.
fn all_starts(alloc: Global, signed: &Signed) -> Result<Vec<u32>, OutOfMemory>
    requires { Laying signed.now }
    ensures { IfOk result (λ starts. starts.items ≡ starts_from 0 0x00400000 (headed signed.now).blocks) }
{
    let blocks = signed.program.blocks.as_slice();
    if signed.marks.len() == 0 {
        block_starts(alloc, blocks, 0)
    } else {
        block_starts(alloc, blocks, HEAD_WORDS)
    }
}

/// The words of all blocks.
fn put_blocks(alloc: Global, signed: &Signed, starts: &[u32]) -> Result<Vec<u32>, AllocError>
    requires laying { Laying signed.now }
    requires table { starts.now ≡ starts_from 0 0x00400000 (headed signed.now).blocks }
    ensures { IfOk result (λ words. words.items ≡ text (headed signed.now)) }
{
    let mut out = Vec::new(alloc);
    for block in 0..signed.program.blocks.len() {
        put_block(&mut out, signed, block, starts)?;
    }
    Ok(out)
}

/// The words of a signed program and the addresses of its blocks. The conditions: the program is well formed and calm, each of
/// its blocks is made of the forms, halves of return addresses stand in pairs, there is a mark for each block or none, each
/// branch reaches its target, and there are at most 66,060,288 words, those of the heads counted.
///
/// # Errors
///
/// [`OutOfMemory`] where there is no memory.
pub fn layout(alloc: Global, signed: &Signed) -> Result<Laid, OutOfMemory>
    requires { Laying signed.now }
    ensures text { IfOk result (λ laid. laid.text ≡ text (headed signed.now)) }
    ensures starts { IfOk result (λ laid. laid.starts ≡ addresses (headed signed.now)) }
{
    let mut starts = all_starts(alloc, signed)?;
    let text = put_blocks(alloc, signed, starts.as_slice())?;
    starts.truncate(signed.program.blocks.len());
    Ok(Laid {
        text: Words::from_vec(text),
        starts: Words::from_vec(starts),
    })
}
