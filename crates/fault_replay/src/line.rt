//! Lines of text, made without an allocation.

ghost use Rattle.std.specs.Prelude.{◌≡◌, ◌+◌, ◌≤◌, ◌<◌, ◌++◌, length, codes, decimal};
ghost use Rattle.std.specs.Fmt.{signed_decimal};
ghost use Rattle.hard_words.specs.Words.{signed};
ghost use Rattle.fault_replay.specs.Show.{line, word_line, end_line, address, hex_digit, exception_name, check_name, cause_at};

use arrayvec::ArrayVec;
use hard_lines::print_word;
use itoa::Buffer;
use mips_machine::End;

/// Room for each line of the tool: the longest have 83 bytes.
pub type Line = ArrayVec<u8, 128>;

/// The line of a word that was put out.
#[tactic(auto, unfolding(crate::specs::Show::word_line))]
pub fn word_line(word: u32) -> Line
    ensures { result.items ≡ word_line word }
{
    let mut line = ArrayVec::new();
    put_word(&mut line, word);
    line.push(b'\n');
    line
}

/// The line of how a run stands.
#[tactic(auto, unfolding(crate::specs::Show::end_line))]
pub fn end_line(end: Option<End>) -> Line
    ensures { result.items ≡ end_line end }
{
    match end {
        None => plain_line(b"going"),
        Some(End::Exited(word)) => exit_line(word),
        Some(End::Trapped(number)) => trap_line(number),
        Some(End::Starved) => plain_line(b"starved"),
        Some(End::Reported { code, at }) => cause_line(b"reported ", check_name(code), at),
        Some(End::Exception { code, at }) => cause_line(b"exception ", exception_name(code), at),
        Some(End::Hazard { at }) => cause_line(b"hazard", b"", at),
    }
}

fn plain_line(text: &[u8]) -> Line
    requires { length text.now ≤ 20 }
    ensures { result.items ≡ line text.now }
{
    let mut line = ArrayVec::new();
    put(&mut line, text);
    line.push(b'\n');
    line
}

fn exit_line(word: u32) -> Line
    ensures { result.items ≡ line (codes "exit " ++ signed_decimal (signed word)) }
{
    let mut line = ArrayVec::new();
    put(&mut line, b"exit ");
    put_word(&mut line, word);
    line.push(b'\n');
    line
}

fn trap_line(number: u32) -> Line
    ensures { result.items ≡ line (codes "trap " ++ decimal number) }
{
    let mut line = ArrayVec::new();
    put(&mut line, b"trap ");
    put_number(&mut line, number as u64);
    line.push(b'\n');
    line
}

// A cause in two parts, and an address.
#[tactic(auto, unfolding(crate::specs::Show::cause_at))]
fn cause_line(kind: &[u8], name: &[u8], at: u32) -> Line
    requires kind { length kind.now ≤ 20 }
    requires name { length name.now ≤ 20 }
    ensures { result.items ≡ line (cause_at (kind.now ++ name.now) at) }
{
    let mut line = ArrayVec::new();
    put(&mut line, kind);
    put(&mut line, name);
    put(&mut line, b" at ");
    put_address(&mut line, at);
    line.push(b'\n');
    line
}

fn exception_name(code: u32) -> &'static [u8]
    ensures name { result.now ≡ exception_name code }
    ensures fits { length result.now ≤ 4 }
{
    match code {
        4 => b"AdEL",
        5 => b"AdES",
        6 => b"IBE",
        7 => b"DBE",
        8 => b"Sys",
        9 => b"Bp",
        10 => b"RI",
        _ => b"Ov",
    }
}

fn check_name(code: u32) -> &'static [u8]
    ensures name { result.now ≡ check_name code }
    ensures fits { length result.now ≤ 5 }
{
    if code == 1 { b"eddi" } else { b"cfcss" }
}

/// Adds bytes to a line; together they have at most 128.
pub fn put(line: &mut Line, bytes: &[u8])
    requires { length line.old.items + length bytes.now ≤ 128 }
    ensures { line.new.items ≡ line.old.items ++ bytes.now }
{
    for b in bytes {
        line.push(*b);
    }
}

/// Adds a number in decimal digits, at most 20, to a line of at most 108 bytes.
pub fn put_number(line: &mut Line, number: u64)
    requires { length line.old.items + 20 ≤ 128 }
    ensures text { line.new.items ≡ line.old.items ++ decimal number }
    ensures fits { length line.new.items ≤ length line.old.items + 20 }
{
    let mut buffer = Buffer::new();
    put(line, buffer.format(number).as_bytes());
}

fn put_word(line: &mut Line, word: u32)
    requires { length line.old.items + 11 ≤ 128 }
    ensures text { line.new.items ≡ line.old.items ++ signed_decimal (signed word) }
    ensures fits { length line.new.items ≤ length line.old.items + 11 }
{
    let mut text = [0; 12];
    let length = print_word(word, &mut text);
    put(line, &text[..length]);
}

/// Adds an address, `0x` and eight small hexadecimal digits, to a line of at most 118 bytes.
#[tactic(auto, unfolding(crate::specs::Show::address))]
pub fn put_address(line: &mut Line, at: u32)
    requires { length line.old.items + 10 ≤ 128 }
    ensures text { line.new.items ≡ line.old.items ++ address at }
    ensures fits { length line.new.items ≡ length line.old.items + 10 }
{
    put(
        line,
        &[
            b'0',
            b'x',
            hex_digit((at >> 28) % 16),
            hex_digit((at >> 24) % 16),
            hex_digit((at >> 20) % 16),
            hex_digit((at >> 16) % 16),
            hex_digit((at >> 12) % 16),
            hex_digit((at >> 8) % 16),
            hex_digit((at >> 4) % 16),
            hex_digit(at % 16),
        ],
    )
}

fn hex_digit(digit: u32) -> u8
    requires { digit < 16 }
    ensures { result ≡ hex_digit digit }
{
    if digit < 10 {
        b'0' + digit as u8
    } else {
        b'a' - 10 + digit as u8
    }
}
