//! Why a source is not compiled.

ghost use Rattle.compile_rules.specs.Refusals.{lexer_refusal, parser_refusal, checker_refusal};
ghost use Rattle.std.specs.Prelude.{◌≡◌};

use c_lexer::LexError;
use c_parser::ParseError;
use check_rules::CheckError;
use hard_words::OutOfMemory;
use thiserror::Error;

/// Why a source is not compiled.
#[derive(Clone, Copy, Debug, PartialEq, Eq, Error)]
pub enum Refusal {
    /// The source has more than 1,048,576 bytes.
    #[error("the source is too long")]
    TooLong,
    /// The source has a fault in its tokens, of which this is the first.
    #[error("{0}")]
    Lex(LexError),
    /// The source's tokens are no program of depth at most 256.
    #[error("{0}")]
    Parse(ParseError),
    /// The source's program has a fault in its names, types or sizes, of which this is the first.
    #[error("{0}")]
    Check(CheckError),
    /// There was no memory.
    #[error("out of memory")]
    OutOfMemory,
}

impl From<LexError> for Refusal {
    ghost from_gives = { λ error refusal. refusal ≡ lexer_refusal error };

    fn from(error: LexError) -> Refusal {
        match error {
            LexError::OutOfMemory => Refusal::OutOfMemory,
            _ => Refusal::Lex(error),
        }
    }
}

impl From<ParseError> for Refusal {
    ghost from_gives = { λ error refusal. refusal ≡ parser_refusal error };

    fn from(error: ParseError) -> Refusal {
        match error {
            ParseError::OutOfMemory => Refusal::OutOfMemory,
            _ => Refusal::Parse(error),
        }
    }
}

impl From<CheckError> for Refusal {
    ghost from_gives = { λ error refusal. refusal ≡ checker_refusal error };

    fn from(error: CheckError) -> Refusal {
        match error {
            CheckError::OutOfMemory => Refusal::OutOfMemory,
            _ => Refusal::Check(error),
        }
    }
}

impl From<OutOfMemory> for Refusal {
    ghost use Rattle.compile_rules.specs.declared.refusal.Refusal.TheVariants as refusals;

    ghost from_gives = { λ _ refusal. refusal ≡ refusals.OutOfMemory };

    fn from(_error: OutOfMemory) -> Refusal {
        Refusal::OutOfMemory
    }
}
