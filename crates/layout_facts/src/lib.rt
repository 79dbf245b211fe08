//! Facts of laid-out texts: few windows, as many loads as in the items, streams that take turns, no dead words, signatures and aliases
//! as in the program. Each call does nothing; its contract is the law.
#![tactic(auto)]

mod laid_signs;
mod layout_counts;
mod layout_turns;
mod reached_words;
mod word_aliases;

pub use laid_signs::signed_is_laid;
pub use layout_counts::{reloads_are_loads, windows_are_few};
pub use layout_turns::{text_turned, text_turned_through};
pub use reached_words::no_word_is_dead;
pub use word_aliases::{aliases_of_words, signs_of_words};
