//! Bytes, and what they may begin.

ghost use Rattle.std.specs.Prelude.{◌≡◌, ◌≤◌, drop, length, take};
ghost use Rattle.c_lexer.specs.Bytes.{class_of, continues, is_space, line_after};

/// What a byte may begin (ISO/IEC 9899 clause 5.2.1).
#[derive(Clone, Copy, Debug, PartialEq, Eq)]
pub enum Class {
    /// Space, tab, line feed, vertical tab, form feed or carriage return.
    Blank,
    /// `_` or a letter of ASCII.
    Letter,
    /// `0` to `9`.
    Digit,
    /// All else.
    Other,
}

/// The class of a byte.
pub fn class_of(byte: u8) -> Class
    ensures { result ≡ class_of byte }
{
    if byte == 32 || 9 <= byte && byte <= 13 {
        Class::Blank
    } else if byte == 95 || 65 <= byte && byte <= 90 || 97 <= byte && byte <= 122 {
        Class::Letter
    } else if 48 <= byte && byte <= 57 {
        Class::Digit
    } else {
        Class::Other
    }
}

/// Whether a byte goes on with a name or a number.
pub fn continues(byte: u8) -> bool
    ensures { result ≡ continues (class_of byte) }
{
    match class_of(byte) {
        Class::Letter | Class::Digit => true,
        Class::Blank | Class::Other => false,
    }
}

/// Whether a byte is a space or a tab.
pub fn is_space(byte: u8) -> bool
    ensures { result ≡ is_space byte }
{
    byte == 32 || byte == 9
}

/// Whether only spaces and tabs stand on the line behind a blank, if `starts_line` says so of the
/// place before it.
pub fn line_after(starts_line: bool, byte: u8) -> bool
    ensures { result ≡ line_after starts_line byte }
{
    if byte == b'\n' {
        true
    } else if is_space(byte) {
        starts_line
    } else {
        false
    }
}

/// The bytes of a text from a place on.
pub fn rest_of(text: &[u8], at: usize) -> &[u8]
    requires { at ≤ length text.now }
    ensures { result.now ≡ drop at text.now }
{
    &text[at..]
}

/// The first bytes of a text.
pub fn front_of(text: &[u8], size: usize) -> &[u8]
    requires { size ≤ length text.now }
    ensures { result.now ≡ take size text.now }
{
    &text[..size]
}
