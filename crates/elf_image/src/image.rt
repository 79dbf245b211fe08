//! The fields of an image, and the lists in it.
ghost use Rattle.std.specs.Prelude.{◌≡◌, [], length};

use hard_words::Words;
use std::alloc::Global;
use std::marker::Model;

/// A program with all that its file holds.
#[derive(Debug, Drop)]
pub struct Image {
    /// The address of the first instruction, a multiple of 4 in the text.
    pub entry: u32,
    /// The words of the instructions, from address 0x00400000 on; 1 to 66,060,288 words.
    pub text: Words,
    /// The words that memory begins with, from address 0x10010000 on; at most `memory_words`.
    pub initial: Words,
    /// How many words the memory has, 1 to 4,194,304.
    pub memory_words: u32,
    /// Addresses of the text with a register each, at which a flip of that register may go unseen.
    pub windows: Windows,
    /// Pairs of addresses of the text: from where a jump may go astray unseen, and to where.
    pub aliases: Aliases,
}

/// Addresses with a register each, in order; contracts see the list of pairs.
#[derive(Debug, Drop)]
pub struct Windows {
    list: Vec<(u32, u8)>,
}

impl Model for Windows {
    ghost use Rattle.std.specs.Prelude.{List, ℕ};

    ghost Value = { List (ℕ × ℕ) };

    ghost view = { λ w. w.list.items };
}

impl Windows {
    /// No windows. It takes no memory.
    pub fn new(alloc: Global) -> Windows
        ensures { result ≡ [] }
    {
        Windows {
            list: Vec::new(alloc),
        }
    }

    /// The windows of a vector. It takes no memory.
    pub fn from_vec(list: Vec<(u32, u8)>) -> Windows
        ensures { result ≡ list.items }
    {
        Windows { list }
    }

    /// The vector of these windows. It takes no memory.
    pub fn into_vec(self) -> Vec<(u32, u8)>
        ensures { result.items ≡ self }
    {
        self.list
    }

    /// The windows as a slice.
    pub fn as_slice(&self) -> &[(u32, u8)]
        ensures { result.now ≡ self.now }
    {
        self.list.as_slice()
    }

    /// How many windows there are.
    pub fn len(&self) -> usize
        ensures { result ≡ length self.now }
    {
        self.list.len()
    }
}

/// Pairs of addresses, in order; contracts see the list of pairs.
#[derive(Debug, Drop)]
pub struct Aliases {
    list: Vec<(u32, u32)>,
}

impl Model for Aliases {
    ghost use Rattle.std.specs.Prelude.{List, ℕ};

    ghost Value = { List (ℕ × ℕ) };

    ghost view = { λ a. a.list.items };
}

impl Aliases {
    /// No aliases. It takes no memory.
    pub fn new(alloc: Global) -> Aliases
        ensures { result ≡ [] }
    {
        Aliases {
            list: Vec::new(alloc),
        }
    }

    /// The aliases of a vector. It takes no memory.
    pub fn from_vec(list: Vec<(u32, u32)>) -> Aliases
        ensures { result ≡ list.items }
    {
        Aliases { list }
    }

    /// The vector of these aliases. It takes no memory.
    pub fn into_vec(self) -> Vec<(u32, u32)>
        ensures { result.items ≡ self }
    {
        self.list
    }

    /// The aliases as a slice.
    pub fn as_slice(&self) -> &[(u32, u32)]
        ensures { result.now ≡ self.now }
    {
        self.list.as_slice()
    }

    /// How many aliases there are.
    pub fn len(&self) -> usize
        ensures { result ≡ length self.now }
    {
        self.list.len()
    }
}
