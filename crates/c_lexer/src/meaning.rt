//! What a piece of the text means.

ghost use Rattle.std.specs.Prelude.{◌≡◌, ◌<◌, ◌^◌, ℕ, Bool, List, IfOk, OnOk, length};
ghost use Rattle.c_lexer.specs.declared.piece.Kind.TheVariants.{Digits, Word};
ghost use Rattle.c_lexer.specs.Bytes.{line_after};
ghost use Rattle.c_lexer.specs.Names.{AreNumbered, names_behind, spellings};
ghost use Rattle.c_lexer.specs.Tokens.{Means, names_after};

use crate::byte::line_after;
use crate::constant::{Constant, constant_of};
use crate::error::LexError;
use crate::names::{Names, number_of};
use crate::piece::Kind;
use crate::spelling::keyword_of;
use crate::token::TokenKind;
use hard_words::OutOfMemory;

/// What a piece is to the list of tokens.
#[derive(Clone, Copy, Debug, PartialEq, Eq)]
pub enum Meaning {
    /// It is a blank or a comment. Whether only spaces and tabs stand on the line behind it.
    Skipped(bool),
    /// It is a token.
    Is(TokenKind),
    /// It is wrong.
    Wrong(LexError),
}

/// What a piece of these bytes at a place means. A name is noted where it is new.
pub(crate) fn meaning_of<'a>(
    names: &mut Names<'a>,
    kind: Kind,
    bytes: &'a [u8],
    starts_line: bool,
    at: u32,
) -> Result<Meaning, OutOfMemory>
    requires few { length (spellings names.old) < 2 ^ 32 }
    requires numbered { AreNumbered names.old }
    ensures means { IfOk result (λ m. Means starts_line (spellings names.old) at bytes.now kind m) }
    ensures names { IfOk result (λ m. spellings names.new ≡ names_behind (spellings names.old) bytes.now m) }
    ensures still_numbered { OnOk result (AreNumbered names.new) }
{
    match kind {
        Kind::Blank(byte) => Ok(Meaning::Skipped(line_after(starts_line, byte))),
        Kind::LineComment => Ok(Meaning::Skipped(false)),
        Kind::BlockComment => Ok(Meaning::Skipped(false)),
        Kind::LineMarker => Ok(Meaning::Skipped(false)),
        Kind::OpenComment => Ok(Meaning::Wrong(LexError::CommentOpen { at })),
        Kind::Word => Ok(Meaning::Is(word_kind(names, bytes)?)),
        Kind::Digits => Ok(digits_meaning(bytes, at)),
        Kind::Sign(sign) => Ok(Meaning::Is(TokenKind::Sign(sign))),
    }
}

/// The token that a name or a reserved word is.
fn word_kind<'a>(names: &mut Names<'a>, bytes: &'a [u8]) -> Result<TokenKind, OutOfMemory>
    requires few { length (spellings names.old) < 2 ^ 32 }
    requires numbered { AreNumbered names.old }
    ensures means { IfOk result (λ k. (starts_line : Bool) (at : ℕ) → Means starts_line (spellings names.old) at bytes.now Word (Meaning.Is k)) }
    ensures names { IfOk result (λ k. spellings names.new ≡ names_after (spellings names.old) bytes.now k) }
    ensures still_numbered { OnOk result (AreNumbered names.new) }
{
    match keyword_of(bytes) {
        Some(word) => Ok(TokenKind::Word(word)),
        None => Ok(TokenKind::Name(number_of(names, bytes)?)),
    }
}

/// What a run that begins with a digit means.
fn digits_meaning(bytes: &[u8], at: u32) -> Meaning
    ensures { (starts_line : Bool) (names : List (List ℕ)) → Means starts_line names at bytes.now Digits result }
{
    match constant_of(bytes) {
        Constant::NotOne => Meaning::Wrong(LexError::BadToken { at }),
        Constant::TooLarge => Meaning::Wrong(LexError::LiteralTooLarge { at }),
        Constant::Fits { value, unsigned } => Meaning::Is(TokenKind::Number {
            value,
            is_unsigned: unsigned,
        }),
    }
}
