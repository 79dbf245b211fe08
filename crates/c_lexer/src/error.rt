//! Why a text has no tokens.

ghost use Rattle.std.specs.Prelude.{◌≡◌};
ghost use Rattle.c_lexer.specs.declared.error.LexError.TheVariants as errors;

use std::alloc::AllocFailed;
use thiserror::Error;

/// The first fault of a text, with the byte at which it stands, counted from 0; or no memory.
#[derive(Clone, Copy, Debug, PartialEq, Eq, Error)]
pub enum LexError {
    /// No token, blank or comment begins here, or what begins as a number is none.
    #[error("bad token at {at}")]
    BadToken { at: u32 },
    /// A constant is past the greatest value of its types (ISO/IEC 9899 clause 6.4.4.1).
    #[error("constant too large at {at}")]
    LiteralTooLarge { at: u32 },
    /// A comment that begins here has no end (ISO/IEC 9899 clause 6.4.9).
    #[error("comment without end at {at}")]
    CommentOpen { at: u32 },
    /// There was no memory.
    #[error("out of memory")]
    OutOfMemory,
}

impl From<hard_words::OutOfMemory> for LexError {
    ghost from_gives = { λ _ e. e ≡ errors.OutOfMemory };

    fn from(_error: hard_words::OutOfMemory) -> LexError {
        LexError::OutOfMemory
    }
}

impl<T: Drop> From<AllocFailed<T>> for LexError {
    ghost from_gives = { λ _ e. e ≡ errors.OutOfMemory };

    fn from(_error: AllocFailed<T>) -> LexError {
        LexError::OutOfMemory
    }
}
