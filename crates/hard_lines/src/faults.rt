//! A file of one fault: the change of one step of a run.

ghost use Rattle.std.specs.Prelude.{◌≡◌, ◌≤◌, IfOk};
ghost use Rattle.std.specs.Option.{option_map};
ghost use Rattle.std.specs.List.{list_any, position_or_len};
ghost use Rattle.hard_lines.specs.Faults.{IsInBounds, line_of, is_line_byte, is_gap, word_at, number_at, read_at, number_in, within, is_number, address_of, is_signed, new_word_of, register_of, memory_of, place_of, named, last_before, flip_of, divert_of, set_of, change_by, change_of, fault_of};

use crate::hex::hex_of;
use crate::inputs::behind;
use crate::numbers::{are_digits, digits_value, value_of};
use hard_words::{Change, ChangeKind, SetPlace};
use thiserror::Error;

/// Why a file of a fault is refused. Words are counted from 1.
#[derive(Clone, Copy, Debug, PartialEq, Eq, Drop, Error)]
pub enum FaultError {
    /// It is not one line.
    #[error("not one line")]
    NotOneLine,
    /// The first bad word is not of the form, is missing, or is one too many.
    #[error("word {word}")]
    BadWord { word: u8 },
    /// The first bad word is of the form and out of range.
    #[error("range of word {word}")]
    OutOfRange { word: u8 },
}

/// What is wrong with one word.
#[derive(Clone, Copy, Debug, PartialEq, Eq)]
pub(crate) enum Trouble {
    /// It is not of the form.
    Form,
    /// It is of the form and out of range.
    Range,
}

// The greatest number of a step.
const MOST_STEPS: u64 = 10_000_000;

/// The change that a file of one line stands for: `flip STEP REG BIT`, `divert STEP ADDRESS` or `set STEP PLACE WORD`.
///
/// One LF or CR LF may end the line. Words stand between spaces and tabs. STEP (0 to 10,000,000), REG (1 to 31) and BIT (0 to
/// 31) are 1 to 20 decimal digits; ADDRESS is that, up to 4294967295, or `0x` and 1 to 8 hexadecimal digits; PLACE is `$` and 1
/// or 2 decimal digits (a register, 1 to 31), `hi`, `lo`, or `0x` and 1 to 8 hexadecimal digits (the address of a word of memory,
/// a multiple of 4); WORD is 1 to 20 decimal digits with a minus sign before them or not, from -2147483648 to 4294967295 and
/// taken modulo 2^32, or `0x` and 1 to 8 hexadecimal digits. It takes no memory.
///
/// # Errors
///
/// `NotOneLine`, where another CR or LF stands in the file; else the first bad word decides: `BadWord`, where it is not of the
/// form, missing or one too many, and `OutOfRange`, where it is of the form and out of range.
pub fn read_fault(bytes: &[u8]) -> Result<Change, FaultError>
    ensures change { result ≡ fault_of bytes.now }
    ensures bounds { IfOk result IsInBounds }
{
    change_of(line_of(bytes))
}

// The text without one line end behind it.
fn line_of(text: &[u8]) -> &[u8]
    ensures { result.now ≡ line_of text.now }
{
    match text {
        [line @ .., b'\r', b'\n'] => line,
        [line @ .., b'\n'] => line,
        _ => text,
    }
}

// What a line stands for.
fn change_of(line: &[u8]) -> Result<Change, FaultError>
    ensures { result ≡ change_of line.now }
{
    if has_line_byte(line) {
        return Err(FaultError::NotOneLine);
    }
    change_by(word_at(line, 1), line)
}

// What a line with a first word stands for.
fn change_by(word: Option<&[u8]>, line: &[u8]) -> Result<Change, FaultError>
    ensures { result ≡ change_by (option_map (λ w. w.now) word.entry) line.now }
{
    match word {
        None => Err(FaultError::BadWord { word: 1 }),
        Some(word) => {
            if word == b"flip".as_slice() {
                flip_of(line)
            } else if word == b"divert".as_slice() {
                divert_of(line)
            } else if word == b"set".as_slice() {
                set_of(line)
            } else {
                Err(FaultError::BadWord { word: 1 })
            }
        }
    }
}

fn flip_of(line: &[u8]) -> Result<Change, FaultError>
    ensures { result ≡ flip_of line.now }
{
    let step = number_at(line, 2, 0, MOST_STEPS)?;
    let reg = number_at(line, 3, 1, 31)?;
    let bit = number_at(line, 4, 0, 31)?;
    let kind = ChangeKind::Flip {
        reg: reg as u8,
        bit: bit as u8,
    };
    last_before(line, 5, Change { step, kind })
}

fn divert_of(line: &[u8]) -> Result<Change, FaultError>
    ensures { result ≡ divert_of line.now }
{
    let step = number_at(line, 2, 0, MOST_STEPS)?;
    let to = address_at(line, 3)?;
    let kind = ChangeKind::Divert { to };
    last_before(line, 4, Change { step, kind })
}

fn set_of(line: &[u8]) -> Result<Change, FaultError>
    ensures { result ≡ set_of line.now }
{
    let step = number_at(line, 2, 0, MOST_STEPS)?;
    let place = place_at(line, 3)?;
    let word = new_word_at(line, 4)?;
    let kind = ChangeKind::Set { place, word };
    last_before(line, 5, Change { step, kind })
}

// The change, where no word of this number stands.
fn last_before(line: &[u8], word: u8, change: Change) -> Result<Change, FaultError>
    requires { 1 ≤ word }
    ensures { result ≡ last_before line.now word change }
{
    match word_at(line, word) {
        None => Ok(change),
        Some(_) => Err(FaultError::BadWord { word }),
    }
}

fn number_at(line: &[u8], word: u8, low: u64, high: u64) -> Result<u64, FaultError>
    requires { 1 ≤ word }
    ensures value { result ≡ number_at line.now word low high }
    ensures most { IfOk result (λ value. value ≤ high) }
{
    match word_at(line, word) {
        None => Err(FaultError::BadWord { word }),
        Some(text) => named(word, number_in(text, low, high)),
    }
}

fn address_at(line: &[u8], word: u8) -> Result<u32, FaultError>
    requires { 1 ≤ word }
    ensures { result ≡ read_at line.now word address_of }
{
    match word_at(line, word) {
        None => Err(FaultError::BadWord { word }),
        Some(text) => named(word, address_of(text)),
    }
}

fn place_at(line: &[u8], word: u8) -> Result<SetPlace, FaultError>
    requires { 1 ≤ word }
    ensures { result ≡ read_at line.now word place_of }
{
    match word_at(line, word) {
        None => Err(FaultError::BadWord { word }),
        Some(text) => named(word, place_of(text)),
    }
}

fn new_word_at(line: &[u8], word: u8) -> Result<u32, FaultError>
    requires { 1 ≤ word }
    ensures { result ≡ read_at line.now word new_word_of }
{
    match word_at(line, word) {
        None => Err(FaultError::BadWord { word }),
        Some(text) => named(word, new_word_of(text)),
    }
}

// A trouble is told with the number of the word.
fn named<T>(word: u8, found: Result<T, Trouble>) -> Result<T, FaultError>
    ensures { result ≡ named word found }
{
    match found {
        Ok(value) => Ok(value),
        Err(Trouble::Form) => Err(FaultError::BadWord { word }),
        Err(Trouble::Range) => Err(FaultError::OutOfRange { word }),
    }
}

fn number_in(word: &[u8], low: u64, high: u64) -> Result<u64, Trouble>
    ensures value { result ≡ number_in low high word.now }
    ensures most { IfOk result (λ value. value ≤ high) }
{
    if !is_number(word) {
        return Err(Trouble::Form);
    }
    let value = digits_value(word);
    if low as u128 <= value && value <= high as u128 {
        Ok(value as u64)
    } else {
        Err(Trouble::Range)
    }
}

fn is_number(word: &[u8]) -> bool
    ensures { result ≡ is_number word.now }
{
    word.len() <= 20 && are_digits(word)
}

fn address_of(word: &[u8]) -> Result<u32, Trouble>
    ensures { result ≡ address_of word.now }
{
    match hex_of(word) {
        Some(value) => Ok(value),
        None => match number_in(word, 0, 4_294_967_295) {
            Ok(value) => Ok(value as u32),
            Err(trouble) => Err(trouble),
        },
    }
}

fn new_word_of(word: &[u8]) -> Result<u32, Trouble>
    ensures { result ≡ new_word_of word.now }
{
    if let Some(value) = hex_of(word) {
        return Ok(value);
    }
    if !is_signed(word) {
        return Err(Trouble::Form);
    }
    match value_of(word) {
        None => Err(Trouble::Range),
        Some(value) => Ok(value),
    }
}

// A decimal number with a minus sign before it or not.
fn is_signed(word: &[u8]) -> bool
    ensures { result ≡ is_signed word.now }
{
    match word {
        [] => false,
        [b'-', digits @ ..] => is_number(digits),
        _ => is_number(word),
    }
}

fn place_of(word: &[u8]) -> Result<SetPlace, Trouble>
    ensures { result ≡ place_of word.now }
{
    match word {
        [] => Err(Trouble::Form),
        [b'$', digits @ ..] => register_of(digits),
        _ => {
            if word == b"hi".as_slice() {
                Ok(SetPlace::Hi)
            } else if word == b"lo".as_slice() {
                Ok(SetPlace::Lo)
            } else {
                memory_of(hex_of(word))
            }
        }
    }
}

fn register_of(digits: &[u8]) -> Result<SetPlace, Trouble>
    ensures { result ≡ register_of digits.now }
{
    if digits.len() > 2 || !are_digits(digits) {
        return Err(Trouble::Form);
    }
    let value = digits_value(digits);
    if 1 <= value && value <= 31 {
        Ok(SetPlace::Reg(value as u8))
    } else {
        Err(Trouble::Range)
    }
}

fn memory_of(address: Option<u32>) -> Result<SetPlace, Trouble>
    ensures { result ≡ memory_of address }
{
    match address {
        None => Err(Trouble::Form),
        Some(address) => {
            if address % 4 == 0 {
                Ok(SetPlace::Memory(address))
            } else {
                Err(Trouble::Range)
            }
        }
    }
}

// The word of a number, counted from 1.
fn word_at(line: &[u8], word: u8) -> Option<&[u8]>
    requires { 1 ≤ word }
    ensures { option_map (λ w. w.now) result ≡ word_at line.now word }
{
    let mut rest = line;
    let mut left = word;
    while !rest.is_empty() {
        let end = word_end(rest);
        if end > 0 {
            if left == 1 {
                return Some(&rest[..end]);
            }
            left -= 1;
        }
        rest = behind(rest, end);
    }
    None
}

// Where the first piece of a line ends.
#[tactic(auto, using(std::proofs::lemmas::List::Sums::position_or_len_is))]
fn word_end(line: &[u8]) -> usize
    ensures { result ≡ position_or_len is_gap line.now }
{
    for (at, b) in line.iter().enumerate() {
        if is_gap(*b) {
            return at;
        }
    }
    line.len()
}

fn is_gap(b: u8) -> bool
    ensures { result ≡ is_gap b }
{
    b == b' ' || b == b'\t'
}

fn has_line_byte(line: &[u8]) -> bool
    ensures { result ≡ list_any is_line_byte line.now }
{
    for b in line {
        if is_line_byte(*b) {
            return true;
        }
    }
    false
}

fn is_line_byte(b: u8) -> bool
    ensures { result ≡ is_line_byte b }
{
    b == b'\n' || b == b'\r'
}
