//! A word as a decimal number.

ghost use Rattle.std.specs.Prelude.{◌≡◌, ◌≤◌, take, length};
ghost use Rattle.std.specs.Fmt.{signed_decimal};
ghost use Rattle.hard_words.specs.Words.{signed};

use itoa::Buffer;

/// Writes the number that a word stands for in two's complement, in decimal digits, behind a minus
/// sign where it is below 0, and answers how many bytes that takes: 1 to 11.
pub fn print_word(word: u32, into: &mut [u8; 12]) -> usize
    ensures text { take result into.new ≡ signed_decimal (signed word) }
    ensures length { result ≡ length (signed_decimal (signed word)) }
    ensures fits { result ≤ 11 }
{
    let mut buffer = Buffer::new();
    let text = buffer.format(word.cast_signed()).as_bytes();
    into[..text.len()].copy_from_slice(text);
    text.len()
}
