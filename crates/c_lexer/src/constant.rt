//! Integer constants (ISO/IEC 9899 clause 6.4.4.1).

ghost use Rattle.std.specs.Prelude.{◌≡◌, ◌<◌, ◌≤◌, ◌^◌, ◌↔◌, IsTrue, length, min, take};
ghost use Rattle.c_lexer.specs.declared.constant.Base.{Base};
ghost use Rattle.c_lexer.specs.Constants.{HasMark, IsConstant, IsSplit, Reads, digit_worth, greatest, is_suffix, is_unsigned, radix, worth};
ghost use Rattle.c_lexer.specs.Fronts.{IsFront};

use crate::byte::rest_of;

/// The base of a constant.
#[derive(Clone, Copy, Debug, PartialEq, Eq)]
pub enum Base {
    /// 1 to 9, then digits.
    Decimal,
    /// 0, then digits below 8.
    Octal,
    /// `0x` or `0X`, then digits of 16.
    Hexadecimal,
}

/// What a run of letters, digits and `_` is as a constant.
#[derive(Clone, Copy, Debug, PartialEq, Eq)]
pub enum Constant {
    /// It has not the form of one.
    NotOne,
    /// It has the form, and is past its range.
    TooLarge,
    /// It has a value, and whether its type is unsigned.
    Fits { value: u32, unsigned: bool },
}

/// Where values that are all too large begin.
const TOO_LARGE: u64 = 1 << 32;

/// The constant that a run is.
pub(crate) fn constant_of(run: &[u8]) -> Constant
    ensures { Reads (λ digits suffix base. IsConstant run.now base digits suffix) result }
{
    if is_hexadecimal(run) {
        split(Base::Hexadecimal, rest_of(run, 2))
    } else if is_octal(run) {
        split(Base::Octal, run)
    } else {
        split(Base::Decimal, run)
    }
}

/// Whether a run begins with `0x` or `0X`.
fn is_hexadecimal(run: &[u8]) -> bool
    ensures mark { IsTrue result ↔ HasMark Base.Hexadecimal run.now }
    ensures two { IsTrue result → 2 ≤ length run.now }
{
    run.len() >= 2 && run[0] == b'0' && (run[1] == b'x' || run[1] == b'X')
}

/// Whether a run begins with `0`.
fn is_octal(run: &[u8]) -> bool
    ensures { IsTrue result ↔ HasMark Base.Octal run.now }
{
    !run.is_empty() && run[0] == b'0'
}

/// The constant of a base that digits and a suffix are.
fn split(base: Base, text: &[u8]) -> Constant
    ensures { Reads (λ digits suffix other. (other ≡ base) × IsSplit base text.now digits suffix) result }
{
    let (size, worth) = digits(radix(base), text);
    let suffix = rest_of(text, size);
    if size == 0 {
        return Constant::NotOne;
    }
    if !is_suffix(suffix) {
        return Constant::NotOne;
    }
    if worth > greatest(base, suffix) {
        return Constant::TooLarge;
    }
    Constant::Fits {
        value: worth as u32,
        unsigned: is_unsigned(suffix, worth),
    }
}

/// How many digits stand at the front, and what they are worth, or 2^32 where they are worth more.
fn digits(base: u64, text: &[u8]) -> (usize, u64)
    requires some { 0 < base }
    requires few { base ≤ 16 }
    ensures front { IsFront (λ b. digit_worth b < base) text.now result.0 }
    ensures worth { result.1 ≡ min (worth base (take result.0 text.now)) (2 ^ 32) }
{
    let mut size = 0;
    let mut worth = 0;
    while size < text.len() && digit_worth(text[size]) < base {
        worth = (base * worth + digit_worth(text[size])).min(TOO_LARGE);
        size += 1;
    }
    (size, worth)
}

/// How many digits a base has.
fn radix(base: Base) -> u64
    ensures { result ≡ radix base }
{
    match base {
        Base::Decimal => 10,
        Base::Octal => 8,
        Base::Hexadecimal => 16,
    }
}

/// What a digit is worth; 16 where the byte is none.
fn digit_worth(byte: u8) -> u64
    ensures value { result ≡ digit_worth byte }
    ensures most { result ≤ 16 }
{
    if 48 <= byte && byte <= 57 {
        byte as u64 - 48
    } else if 97 <= byte && byte <= 102 {
        byte as u64 - 87
    } else if 65 <= byte && byte <= 70 {
        byte as u64 - 55
    } else {
        16
    }
}

/// Whether a text is a suffix: nothing, or one `u` or `U`.
fn is_suffix(text: &[u8]) -> bool
    ensures { result ≡ is_suffix text.now }
{
    if text.is_empty() {
        return true;
    }
    text.len() == 1 && (text[0] == b'u' || text[0] == b'U')
}

/// The greatest value of a constant.
fn greatest(base: Base, suffix: &[u8]) -> u64
    ensures value { result ≡ greatest base suffix.now }
    ensures most { result < 2 ^ 32 }
{
    if base == Base::Decimal && suffix.is_empty() {
        2147483647
    } else {
        4294967295
    }
}

/// Whether a constant is unsigned.
fn is_unsigned(suffix: &[u8], value: u64) -> bool
    ensures { result ≡ is_unsigned suffix.now value }
{
    !suffix.is_empty() || value > 2147483647
}
