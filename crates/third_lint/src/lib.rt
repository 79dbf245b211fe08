//! The lint of any text of three streams: whether its words keep the streams apart and vote on what they use; and what a text that
//! it accepts promises of its runs under one fault.
//!
//! It knows nothing of a compiler. A word is judged by the words within 32 bytes of it and by four tables of the words, so
//! [`lint_third`] takes time in proportion to the words, and at most 40 bytes of memory for each, its answer counted.
#![tactic(auto)]

ghost use Rattle.std.specs.Prelude.{◌≡◌, length};

mod error;
mod flow;
mod laws;
mod marks;
mod masks;
mod pass;
mod rules;
mod shapes;
pub mod table;
mod windows;

pub use error::ThirdError;
pub use laws::{
    few_windows, four_registers, masks_flips, masks_sets, masks_sets_within, never_reported,
    windows_inside,
};
pub use pass::lint_third;
use std::marker::Model;
pub use windows::windows_third;

/// What holds at a word. The masks have bit r for register r, 0 to 31.
#[derive(Clone, Copy, Debug, PartialEq, Eq)]
pub struct ThirdRow {
    /// The registers of stream A.
    pub a: u32,
    /// Those of stream B.
    pub b: u32,
    /// Those of stream C.
    pub c: u32,
    /// The registers that are voted here.
    pub voted: u32,
    /// The stream that HI and LO come from: 0 for none, 1, 2 and 3 for A, B and C.
    pub products: u8,
}

/// Rows in order; contracts see the list of them.
#[derive(Debug, Drop)]
pub struct ThirdRows {
    list: Vec<ThirdRow>,
}

impl Model for ThirdRows {
    ghost use Rattle.std.specs.Prelude.{List};
    ghost use Rattle.third_lint.specs.declared.ThirdRow.{ThirdRow};

    ghost Value = { List ThirdRow };

    ghost view = { λ r. r.list.items };
}

impl ThirdRows {
    /// The rows of a vector. It takes no memory.
    pub fn from_vec(list: Vec<ThirdRow>) -> ThirdRows
        ensures { result ≡ list.items }
    {
        ThirdRows { list }
    }

    /// The vector of these rows. It takes no memory.
    pub fn into_vec(self) -> Vec<ThirdRow>
        ensures { result.items ≡ self }
    {
        self.list
    }

    /// The rows as a slice.
    pub fn as_slice(&self) -> &[ThirdRow]
        ensures { result.now ≡ self.now }
    {
        self.list.as_slice()
    }

    /// How many rows there are.
    pub fn len(&self) -> usize
        ensures { result ≡ length self.now }
    {
        self.list.len()
    }
}

/// The rows of a text, one for each word.
#[derive(Debug, Drop)]
pub struct TypingThird {
    /// The rows.
    pub rows: ThirdRows,
}
