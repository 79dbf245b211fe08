//! The laws on how many blocks and words a lowered program has. Each call does nothing; its contract is the law.
#![tactic(auto)]

mod lowering_blocks;
mod lowering_words;

pub use lowering_blocks::few_blocks;
pub use lowering_words::stays_words;
