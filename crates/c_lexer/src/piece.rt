//! Pieces of a text: its tokens before they have a meaning, and what stands between them.

ghost use Rattle.std.specs.Prelude.{◌≡◌, ◌≢◌, ◌<◌, ◌≤◌, ◌+◌, ◌↔◌, ℕ, Bool, IfNone, IfSome, IsTrue, MatchOption, length, slice_index};
ghost use Rattle.c_lexer.specs.declared.byte.Class.TheVariants.{Other};
ghost use Rattle.c_lexer.specs.declared.token.Punct.{Punct};
ghost use Rattle.c_lexer.specs.Bytes.{class_of};
ghost use Rattle.c_lexer.specs.Fronts.{AreSpaces, HasNoClose, IsFirstClose, IsFront, IsLineByte, IsLongestSign, IsWordByte, MarksLine, SpellsSign};
ghost use Rattle.c_lexer.specs.Pieces.{HasNoPiece, IsLongest};

use crate::byte::{Class, class_of, continues, is_space};
use crate::spelling::punct_of;
use crate::token::Punct;

/// What a piece of the text is, before it has a meaning.
#[derive(Clone, Copy, Debug, PartialEq, Eq)]
pub enum Kind {
    /// A blank, with its byte.
    Blank(u8),
    /// `//` to the end of the line.
    LineComment,
    /// `/*` to the first `*/`.
    BlockComment,
    /// `/*` with no `*/`.
    OpenComment,
    /// `#` at the start of a line, with a digit after it, to the end of the line.
    LineMarker,
    /// A name or a reserved word.
    Word,
    /// A number, or what is none but begins with a digit.
    Digits,
    /// A punctuator.
    Sign(Punct),
}

/// A piece at the front of a text.
#[derive(Clone, Copy, Debug, PartialEq, Eq)]
pub struct Piece {
    pub kind: Kind,
    /// How many bytes it has.
    pub size: usize,
}

/// The longest piece at the front of a text, where `starts_line` says whether only spaces and
/// tabs stand before it on its line.
pub(crate) fn piece_at(text: &[u8], starts_line: bool) -> Option<Piece>
    requires { 0 < length text.now }
    ensures found { IfSome result (λ p. IsLongest starts_line text.now p.size p.kind) }
    ensures none { IfNone result (HasNoPiece starts_line text.now) }
{
    match class_of(text[0]) {
        Class::Blank => Some(Piece {
            kind: Kind::Blank(text[0]),
            size: 1,
        }),
        Class::Letter => Some(Piece {
            kind: Kind::Word,
            size: word_size(text),
        }),
        Class::Digit => Some(Piece {
            kind: Kind::Digits,
            size: word_size(text),
        }),
        Class::Other => other_at(text, starts_line),
    }
}

/// The longest piece at the front of a text that begins with no blank, letter or digit.
fn other_at(text: &[u8], starts_line: bool) -> Option<Piece>
    requires some { 0 < length text.now }
    requires other { class_of (slice_index text.now 0) ≡ Other }
    ensures found { IfSome result (λ p. IsLongest starts_line text.now p.size p.kind) }
    ensures none { IfNone result (HasNoPiece starts_line text.now) }
{
    if begins_with(text, b'/', b'/') {
        Some(Piece {
            kind: Kind::LineComment,
            size: line_size(text),
        })
    } else if begins_with(text, b'/', b'*') {
        Some(comment_at(text))
    } else if starts_line && marks_line(text) {
        Some(Piece {
            kind: Kind::LineMarker,
            size: line_size(text),
        })
    } else {
        sign_at(text)
    }
}

/// Whether a text begins with these two bytes.
fn begins_with(text: &[u8], first: u8, second: u8) -> bool
    ensures { IsTrue result ↔ ((2 ≤ length text.now) × (slice_index text.now 0 ≡ first) × (slice_index text.now 1 ≡ second)) }
{
    2 <= text.len() && text[0] == first && text[1] == second
}

/// How many bytes at the front go on with a name or a number.
fn word_size(text: &[u8]) -> usize
    ensures { IsFront IsWordByte text.now result }
{
    let mut size = 0;
    while size < text.len() && continues(text[size]) {
        size += 1;
    }
    size
}

/// How many bytes stand before the first line feed or the end.
fn line_size(text: &[u8]) -> usize
    ensures { IsFront IsLineByte text.now result }
{
    let mut size = 0;
    while size < text.len() && text[size] != b'\n' {
        size += 1;
    }
    size
}

/// The comment at the front of a text that begins with `/*`.
fn comment_at(text: &[u8]) -> Piece
    requires two { 2 ≤ length text.now }
    requires first { slice_index text.now 0 ≡ 47 }
    requires second { slice_index text.now 1 ≡ 42 }
    ensures { (starts_line : Bool) → IsLongest starts_line text.now result.size result.kind }
{
    match close_at(text) {
        Some(at) => Piece {
            kind: Kind::BlockComment,
            size: at + 2,
        },
        None => Piece {
            kind: Kind::OpenComment,
            size: text.len(),
        },
    }
}

/// The place of the first `*/`, from place 2 on.
fn close_at(text: &[u8]) -> Option<usize>
    requires { 2 ≤ length text.now }
    ensures { MatchOption result (HasNoClose text.now) (λ at. IsFirstClose text.now at) }
{
    let mut at = 2;
    while at + 1 < text.len() {
        if text[at] == b'*' && text[at + 1] == b'/' {
            return Some(at);
        }
        at += 1;
    }
    None
}

/// Whether a text begins with `#`, spaces and tabs, and a digit.
fn marks_line(text: &[u8]) -> bool
    requires { 0 < length text.now }
    ensures { IsTrue result ↔ ((digit : ℕ) × MarksLine text.now digit) }
{
    let digit = spaces_end(text, 1);
    text[0] == b'#' && digit < text.len() && class_of(text[digit]) == Class::Digit
}

/// Where the spaces and tabs end that stand from a place on.
fn spaces_end(text: &[u8], from: usize) -> usize
    requires { from ≤ length text.now }
    ensures { AreSpaces text.now from result }
{
    let mut end = from;
    while end < text.len() && is_space(text[end]) {
        end += 1;
    }
    end
}

/// The longest punctuator at the front of a text.
fn sign_at(text: &[u8]) -> Option<Piece>
    ensures found { IfSome result (λ p. IsLongestSign text.now p.size p.kind) }
    ensures none { IfNone result ((size : ℕ) (sign : Punct) → SpellsSign text.now size sign → ⊥) }
{
    if let Some(sign) = sign_of_size(text, 3) {
        return Some(Piece {
            kind: Kind::Sign(sign),
            size: 3,
        });
    }
    if let Some(sign) = sign_of_size(text, 2) {
        return Some(Piece {
            kind: Kind::Sign(sign),
            size: 2,
        });
    }
    if let Some(sign) = sign_of_size(text, 1) {
        return Some(Piece {
            kind: Kind::Sign(sign),
            size: 1,
        });
    }
    None
}

/// The punctuator that the first bytes of a text spell.
fn sign_of_size(text: &[u8], size: usize) -> Option<Punct>
    ensures found { IfSome result (λ sign. SpellsSign text.now size sign) }
    ensures none { IfNone result ((sign : Punct) → SpellsSign text.now size sign → ⊥) }
{
    if size <= text.len() {
        punct_of(&text[..size])
    } else {
        None
    }
}
