//! The text of numbers that a program is fed with.

ghost use Rattle.std.specs.Prelude.{◌≡◌, ◌≤◌, ◌+◌, ◌⊎◌, Ok, Err, IfOk, IfErr, OnOk, length, drop};
ghost use Rattle.std.specs.List.{position_or_len};
ghost use Rattle.hard_lines.specs.Inputs.{is_blank, is_line_feed, placed_piece, placed_line, inputs, Took, IsRefused};

use crate::numbers::value_of;
use std::alloc::Global;
use thiserror::Error;

/// Why a text of numbers is refused.
#[derive(Clone, Copy, Debug, PartialEq, Eq, Drop, Error)]
pub enum LinesError {
    /// The first fault is a word that is no number in range; lines are counted from 1.
    #[error("number on line {line}")]
    BadNumber { line: u32 },
    /// The first fault is the word numbered 1,000,001.
    #[error("too many numbers")]
    TooMany,
    /// There was no memory.
    #[error("out of memory")]
    OutOfMemory,
}

const MOST: usize = 1_000_000;

/// The numbers of a text, at most 1,000,000, as words of 32 bits: decimal digits, with a minus sign before them or
/// not, from -2147483648 to 4294967295 and taken modulo 2^32, between spaces, tabs, carriage
/// returns and line feeds. A line ends with a line feed.
///
/// # Errors
///
/// The first fault in reading order: `BadNumber` at a word that is not of that form, `TooMany` at
/// the word numbered 1,000,001, of whatever form. Else `OutOfMemory`.
pub fn read_inputs(alloc: Global, bytes: &[u8]) -> Result<Vec<u32>, LinesError>
    requires { length bytes.now ≤ 16777216 }
    ensures ok { IfOk result (λ numbers. inputs bytes.now ≡ Ok numbers.items) }
    ensures few { IfOk result (λ numbers. length numbers.items ≤ 1000000) }
    ensures err { IfErr result (λ error. (error ≡ LinesError.OutOfMemory) ⊎ (inputs bytes.now ≡ Err error)) }
{
    let mut numbers = Vec::new(alloc);
    let mut rest = bytes;
    let mut line = 1;
    while !rest.is_empty() {
        let end = line_end(rest);
        read_line(line, &rest[..end], &mut numbers)?;
        rest = behind(rest, end);
        line += 1;
    }
    Ok(numbers)
}

// Takes the numbers of a line.
fn read_line(line: u32, text: &[u8], numbers: &mut Vec<u32>) -> Result<(), LinesError>
    ensures ok { OnOk result (Took (placed_line line text.now) numbers.old.items numbers.new.items) }
    ensures err { IfErr result (λ error. IsRefused (placed_line line text.now) numbers.old.items error) }
{
    let mut rest = text;
    while !rest.is_empty() {
        let end = piece_end(rest);
        read_piece(line, &rest[..end], numbers)?;
        rest = behind(rest, end);
    }
    Ok(())
}

// Takes the number between two blanks, if any.
fn read_piece(line: u32, piece: &[u8], numbers: &mut Vec<u32>) -> Result<(), LinesError>
    ensures ok { OnOk result (Took (placed_piece line piece.now) numbers.old.items numbers.new.items) }
    ensures err { IfErr result (λ error. IsRefused (placed_piece line piece.now) numbers.old.items error) }
{
    if piece.is_empty() {
        return Ok(());
    }
    if numbers.len() >= MOST {
        return Err(LinesError::TooMany);
    }
    let Some(value) = value_of(piece) else {
        return Err(LinesError::BadNumber { line });
    };
    match numbers.push(value) {
        Ok(()) => Ok(()),
        Err(_) => Err(LinesError::OutOfMemory),
    }
}

// Where the first line of a text ends.
#[tactic(auto, using(std::proofs::lemmas::List::Sums::position_or_len_is))]
fn line_end(text: &[u8]) -> usize
    ensures { result ≡ position_or_len is_line_feed text.now }
{
    for (at, b) in text.iter().enumerate() {
        if is_line_feed(*b) {
            return at;
        }
    }
    text.len()
}

// Where the first piece of a text ends.
#[tactic(auto, using(std::proofs::lemmas::List::Sums::position_or_len_is))]
fn piece_end(text: &[u8]) -> usize
    ensures { result ≡ position_or_len is_blank text.now }
{
    for (at, b) in text.iter().enumerate() {
        if is_blank(*b) {
            return at;
        }
    }
    text.len()
}

/// What follows the byte at a place, if anything.
pub(crate) fn behind(text: &[u8], at: usize) -> &[u8]
    ensures { result.now ≡ drop (at + 1) text.now }
{
    if at < text.len() {
        &text[at + 1..]
    } else {
        &[]
    }
}

fn is_blank(b: u8) -> bool
    ensures { result ≡ is_blank b }
{
    b == b' ' || (b == b'\t' || (b == b'\r' || b == b'\n'))
}

fn is_line_feed(b: u8) -> bool
    ensures { result ≡ is_line_feed b }
{
    b == b'\n'
}
