//! The words of a text with the instruction of each, decoded once.
ghost use Rattle.std.specs.Prelude.{◌≡◌, ◌<◌, ◌≤◌, length, slice_index, IfOk, IfSome, map, take};
ghost use Rattle.mips_isa.specs.Table.{decoded, IsInRange};
ghost use Rattle.lint_words.specs.Decoded.{AreDecoded};

use hard_words::OutOfMemory;
use mips_isa::{Instr, decode};
use std::alloc::Global;
use std::marker::Model;

/// The words of a text, and the instruction of each. Contracts see the words.
#[derive(Drop)]
pub struct WordTable<'a> {
    words: &'a [u32],
    instrs: Vec<Option<Instr>>,
}

impl<'a> Model for WordTable<'a> {
    ghost use Rattle.std.specs.Prelude.{List, ℕ};
    ghost use Rattle.hard_words.specs.Words.{AreWords};
    ghost use Rattle.lint_words.specs.Decoded.{AreDecoded};

    ghost Value = { List ℕ };

    ghost view = { λ t. t.words.now };

    ghost invariant = { λ t. AreDecoded t.words.now t.instrs.items × AreWords t.words.now };
}

// The instruction of each word.
fn decode_all(alloc: Global, words: &[u32]) -> Result<Vec<Option<Instr>>, OutOfMemory>
    ensures { IfOk result (λ instrs. AreDecoded words.now instrs.items) }
{
    let mut instrs: Vec<Option<Instr>> = Vec::with_capacity(alloc, words.len())?;
    for k in 0..words.len() {
        instrs.push(decode(words[k]))?;
    }
    Ok(instrs)
}

impl<'a> WordTable<'a> {
    /// The table of a text: 8 bytes or 12 for each word.
    pub fn new(alloc: Global, words: &'a [u32]) -> Result<WordTable<'a>, OutOfMemory>
        ensures { IfOk result (λ table. table ≡ words.now) }
    {
        let instrs = decode_all(alloc, words)?;
        Ok(WordTable { words, instrs })
    }

    /// How many words there are.
    pub fn len(&self) -> usize
        ensures { result ≡ length self.now }
    {
        self.words.len()
    }

    /// The instruction of the word at a place, counted from 0.
    pub fn at(&self, k: usize) -> Option<Instr>
        requires { k < length self.now }
        ensures instr { result ≡ decoded (slice_index self.now k) }
        ensures range { IfSome result (λ instr. IsInRange instr) }
    {
        self.instrs[k]
    }
}
