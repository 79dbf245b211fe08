//! Where the variables of a function stand.

use hard_words::Sequence;

/// Where a variable stands.
#[derive(Clone, Copy, Debug, PartialEq, Eq)]
pub enum Place {
    /// In one of eight pairs of registers, a master and its shadow, 0 to 7.
    Pair(u8),
    /// In a slot of the call's frame.
    Slot(u32),
}

/// The place of each variable of a function.
#[derive(Debug, Drop)]
pub struct Places {
    /// The places, by the variables' numbers.
    pub list: Sequence<Place>,
}
