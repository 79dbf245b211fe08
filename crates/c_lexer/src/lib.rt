//! The tokens of the C subset.
#![tactic(auto)]

mod byte;
mod constant;
mod error;
mod lexer;
mod meaning;
mod names;
mod piece;
mod spelling;
mod token;

pub use error::LexError;
pub use lexer::{each_text_has_a_result, one_result, tokens};
pub use token::{Keyword, Punct, Token, TokenKind};
