//! Numbers at offsets of a file.
ghost use Rattle.std.specs.Prelude.{◌≡◌, ◌+◌, ◌*◌, ◌≤◌, length, IfOk};
ghost use Rattle.elf_image.specs.Held.{number_at, has};

use byteorder::{BigEndian, ByteOrder};

/// The byte at an offset.
#[tactic(auto, unfolding(crate::specs::Held::number_at))]
pub(crate) fn byte_at(bytes: &[u8], at: usize) -> u8
    requires { at + 1 ≤ length bytes.now }
    ensures { result ≡ number_at 1 at bytes.now }
{
    (&bytes[at..])[0]
}

/// The number of 16 bits at an offset, high byte first.
#[tactic(auto, unfolding(crate::specs::Held::number_at))]
pub(crate) fn half_at(bytes: &[u8], at: usize) -> u16
    requires { at + 2 ≤ length bytes.now }
    ensures { result ≡ number_at 2 at bytes.now }
{
    BigEndian::read_u16(&bytes[at..])
}

/// The number of 32 bits at an offset, high byte first.
#[tactic(auto, unfolding(crate::specs::Held::number_at))]
pub(crate) fn word_at(bytes: &[u8], at: usize) -> u32
    requires { at + 4 ≤ length bytes.now }
    ensures { result ≡ number_at 4 at bytes.now }
{
    BigEndian::read_u32(&bytes[at..])
}

/// The two words from an offset on.
pub(crate) fn pair_at(bytes: &[u8], at: usize) -> (u32, u32)
    requires { at + 8 ≤ length bytes.now }
    ensures { result ≡ (number_at 4 at bytes.now, number_at 4 (at + 4) bytes.now) }
{
    (word_at(bytes, at), word_at(bytes, at + 4))
}

/// Whether the file has these words from an offset on.
#[tactic(auto, unfolding(crate::specs::Held::has))]
pub(crate) fn has_words(bytes: &[u8], at: usize, words: &[u32]) -> bool
    requires { at + 4 * length words.now ≤ length bytes.now }
    ensures { result ≡ has 4 words.now at bytes.now }
{
    let mut place = at;
    for w in words {
        if word_at(bytes, place) != *w {
            return false;
        }
        place += 4;
    }
    true
}

/// Whether the file has these bytes from an offset on.
#[tactic(auto, unfolding(crate::specs::Held::has))]
pub(crate) fn has_bytes(bytes: &[u8], at: usize, wanted: &[u8]) -> bool
    requires { at + length wanted.now ≤ length bytes.now }
    ensures { result ≡ has 1 wanted.now at bytes.now }
{
    let mut place = at;
    for w in wanted {
        if byte_at(bytes, place) != *w {
            return false;
        }
        place += 1;
    }
    true
}
