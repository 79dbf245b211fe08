//! The streams of registers, and which registers are guarded at a word.
ghost use Rattle.std.specs.Prelude.{◌≡◌, ◌≤◌, ◌<◌};
ghost use Rattle.mips_text.specs.Typing.{master, shadow, signs};
ghost use Rattle.harden_lint.specs.StreamTests.{of, two_streams, streams_by, guarded_from, guarded};

use lint_words::{WordTable, check_at, leads, window};

/// Whether a register is of the master stream.
pub(crate) fn of_master(r: u8) -> bool
    ensures { result ≡ of master r }
{
    (4 <= r && r <= 13) || (r == 29 || r == 31)
}

/// Whether a register is of the shadow stream.
pub(crate) fn of_shadow(r: u8) -> bool
    ensures { result ≡ of shadow r }
{
    (14 <= r && r <= 23) || (r == 25 || r == 30)
}

/// Whether a register is of the signatures.
pub(crate) fn of_signs(r: u8) -> bool
    ensures { result ≡ of signs r }
{
    r == 1 || (r == 24 || r == 28)
}

fn two_streams(x: u8, y: u8) -> bool
    ensures { result ≡ two_streams x y }
{
    (of_master(x) && of_shadow(y)) || (of_shadow(x) && of_master(y))
}

/// Whether the registers that a check compares are of the master and the shadow stream.
pub(crate) fn streams_by(pair: Option<(u8, u8)>) -> bool
    ensures { result ≡ streams_by pair }
{
    match pair {
        None => false,
        Some(p) => two_streams(p.0, p.1),
    }
}

/// Whether the check at c guards a register at a word.
pub(crate) fn guarded_from(text: &WordTable, bits: &[bool], r: u8, c: u32, a: u32) -> bool
    requires low { 64 ≤ a }
    requires high { a < 4294967288 }
    requires check { c ≤ 4294967264 }
    ensures { result ≡ guarded_from text.now bits.now r c a }
{
    streams_by(check_at(text, c)) && (window(text, r, c, a) && leads(text, bits, r, c, a))
}

/// Whether a register is guarded at a word.
pub(crate) fn guarded(text: &WordTable, bits: &[bool], a: u32, r: u8) -> bool
    requires low { 64 ≤ a }
    requires high { a ≤ 4294967264 }
    ensures { result ≡ guarded text.now bits.now a r }
{
    guarded_from(text, bits, r, a - 4, a)
        || (guarded_from(text, bits, r, a - 8, a)
            || (guarded_from(text, bits, r, a - 12, a) || guarded_from(text, bits, r, a - 16, a)))
}
