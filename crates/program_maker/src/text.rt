//! The lines of a made program.

ghost use Rattle.std.specs.Prelude.{◌≡◌, ◌<◌, ◌++◌, OnOk};
ghost use Rattle.program_maker.specs.Text.{numbered, head_line, start_line, loop_line, mix_line, store_line, split_line, call_line, out_line};

use crate::draws::Numbers;
use itoa::Buffer;
use std::alloc::AllocError;

/// Adds a piece of text.
pub(crate) fn put(text: &mut Vec<u8>, piece: &[u8]) -> Result<(), AllocError>
    ensures { OnOk result (text.new.items ≡ text.old.items ++ piece.now) }
{
    text.extend_from_slice(piece)
}

/// Adds a number between two pieces of text.
#[tactic(auto, using(std::proofs::Common::append_assoc), unfolding(crate::specs::Text::numbered))]
fn put_numbered(
    text: &mut Vec<u8>,
    before: &[u8],
    number: u32,
    behind: &[u8],
) -> Result<(), AllocError>
    ensures { OnOk result (text.new.items ≡ text.old.items ++ numbered before.now number behind.now) }
{
    let mut buffer = Buffer::new();
    put(text, before)?;
    put(text, buffer.format(number).as_bytes())?;
    put(text, behind)
}

/// Adds `int fK(int a, int b) {`.
#[tactic(auto, unfolding(crate::specs::Text::head_line))]
pub(crate) fn put_head(text: &mut Vec<u8>, k: u32) -> Result<(), AllocError>
    ensures { OnOk result (text.new.items ≡ text.old.items ++ head_line k) }
{
    put_numbered(text, b"int f", k, b"(int a, int b) {\n")
}

/// Adds `int c = L1;`.
#[tactic(auto, unfolding(crate::specs::Text::start_line))]
pub(crate) fn put_start(text: &mut Vec<u8>, numbers: Numbers) -> Result<(), AllocError>
    ensures { OnOk result (text.new.items ≡ text.old.items ++ start_line numbers) }
{
    put_numbered(text, b"int c = ", numbers.first, b";\n")
}

/// Adds `for (int i = 0; i < N; i++) {`.
#[tactic(auto, unfolding(crate::specs::Text::loop_line))]
pub(crate) fn put_loop(text: &mut Vec<u8>, numbers: Numbers) -> Result<(), AllocError>
    ensures { OnOk result (text.new.items ≡ text.old.items ++ loop_line numbers) }
{
    put_numbered(text, b"for (int i = 0; i < ", numbers.turns, b"; i++) {\n")
}

/// Adds `c = (c O1 a) O2 (b O3 L2);`.
#[tactic(auto, using(std::proofs::Common::append_assoc), unfolding(crate::specs::Text::mix_line))]
pub(crate) fn put_mix(text: &mut Vec<u8>, numbers: Numbers) -> Result<(), AllocError>
    ensures { OnOk result (text.new.items ≡ text.old.items ++ mix_line numbers) }
{
    put(
        text,
        &[
            b'c',
            b' ',
            b'=',
            b' ',
            b'(',
            b'c',
            b' ',
            numbers.inner,
            b' ',
            b'a',
            b')',
            b' ',
        ],
    )?;
    put(text, &[numbers.outer, b' ', b'(', b'b', b' '])?;
    put(text, &[numbers.other])?;
    put_numbered(text, b" ", numbers.constant, b");\n")
}

/// Adds `t[c & 63] = t[(c >> 3) & 63] O4 i;`.
#[tactic(auto, using(std::proofs::Common::append_assoc), unfolding(crate::specs::Text::store_line))]
pub(crate) fn put_store(text: &mut Vec<u8>, numbers: Numbers) -> Result<(), AllocError>
    ensures { OnOk result (text.new.items ≡ text.old.items ++ store_line numbers) }
{
    put(text, b"t[c & 63] = t[(c >> 3) & 63] ")?;
    put(text, &[numbers.stored, b' ', b'i', b';', b'\n'])
}

/// Adds `if (c < b || (c & 1) == 0) c = c / L3; else c = c + 1;`.
#[tactic(auto, unfolding(crate::specs::Text::split_line))]
pub(crate) fn put_split(text: &mut Vec<u8>, numbers: Numbers) -> Result<(), AllocError>
    ensures { OnOk result (text.new.items ≡ text.old.items ++ split_line numbers) }
{
    put_numbered(
        text,
        b"if (c < b || (c & 1) == 0) c = c / ",
        numbers.divisor,
        b"; else c = c + 1;\n",
    )
}

/// Adds `c = c + fJ(c, a);` in a function of an odd index.
#[tactic(auto, unfolding(crate::specs::Text::call_line))]
pub(crate) fn put_call(text: &mut Vec<u8>, k: u32) -> Result<(), AllocError>
    ensures { OnOk result (text.new.items ≡ text.old.items ++ call_line k) }
{
    if k % 2 == 1 {
        put_numbered(text, b"c = c + f", k - 1, b"(c, a);\n")
    } else {
        Ok(())
    }
}

/// Adds `out_word(fK(K, K+1));`.
#[tactic(auto, using(std::proofs::Common::append_assoc), unfolding(crate::specs::Text::out_line))]
pub(crate) fn put_out(text: &mut Vec<u8>, k: u32) -> Result<(), AllocError>
    requires { k < 1000 }
    ensures { OnOk result (text.new.items ≡ text.old.items ++ out_line k) }
{
    put_numbered(text, b"out_word(f", k, b"(")?;
    put_numbered(text, b"", k, b", ")?;
    put_numbered(text, b"", k + 1, b"));\n")
}
