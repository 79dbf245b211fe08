//! The lint of any text: whether its words keep the streams of registers apart, check what they use where a wrong word would be
//! seen, and begin each block with the check of its signature; and what a text that it accepts promises of its runs under one
//! fault.
//!
//! It knows nothing of a compiler. A word is judged by the words within 28 bytes of it and by a table of the starts, so [`lint`]
//! takes time in proportion to the words, and at most 40 bytes of memory for each, its answer counted.
#![tactic(auto)]

ghost use Rattle.std.specs.Prelude.{◌≡◌, length};

mod error;
mod laws;
mod pairs;
mod pass;
mod roles;
mod rules;
mod starts;
pub mod table;

pub use error::LintError;
pub use laws::{shows, shows_flip, shows_flip_within, shows_within, typed_or_bad, windows_inside};
pub use pairs::window_mask;
pub use pass::lint;
use std::marker::Model;

/// A stream of the computation, or none.
#[derive(Clone, Copy, Debug, PartialEq, Eq)]
pub enum Stream {
    /// The computation.
    Master,
    /// Its copy.
    Shadow,
    /// Neither.
    Nobody,
}

/// What holds at a word. The masks have bit r for register r, 0 to 31.
#[derive(Clone, Copy, Debug, PartialEq, Eq)]
pub struct TypingRow {
    /// The master stream's registers.
    pub master: u32,
    /// The shadow stream's.
    pub shadow: u32,
    /// The signatures'.
    pub signs: u32,
    /// The registers that are guarded here.
    pub guarded: u32,
    /// The stream that HI and LO come from.
    pub products: Stream,
}

/// Rows in order; contracts see the list of them.
#[derive(Debug, Drop)]
pub struct TypingRows {
    list: Vec<TypingRow>,
}

impl Model for TypingRows {
    ghost use Rattle.std.specs.Prelude.{List};
    ghost use Rattle.harden_lint.specs.declared.TypingRow.{TypingRow};

    ghost Value = { List TypingRow };

    ghost view = { λ r. r.list.items };
}

impl TypingRows {
    /// The rows of a vector. It takes no memory.
    pub fn from_vec(list: Vec<TypingRow>) -> TypingRows
        ensures { result ≡ list.items }
    {
        TypingRows { list }
    }

    /// The vector of these rows. It takes no memory.
    pub fn into_vec(self) -> Vec<TypingRow>
        ensures { result.items ≡ self }
    {
        self.list
    }

    /// The rows as a slice.
    pub fn as_slice(&self) -> &[TypingRow]
        ensures { result.now ≡ self.now }
    {
        self.list.as_slice()
    }

    /// How many rows there are.
    pub fn len(&self) -> usize
        ensures { result ≡ length self.now }
    {
        self.list.len()
    }
}

/// The rows of a text, one for each word.
#[derive(Debug, Drop)]
pub struct Typing {
    /// The rows.
    pub rows: TypingRows,
}
