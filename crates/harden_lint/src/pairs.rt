//! Which registers have a window at a word.
ghost use Rattle.std.specs.Prelude.{◌≡◌, ◌≤◌, ◌<◌, ◌%◌, ◌^◌, ◌==◌, ◌&&◌, ◌↔◌, ℕ};
ghost use Rattle.std.specs.Int.{bit_at};
ghost use Rattle.mips_text.specs.Text.{Near};
ghost use Rattle.lint_words.specs.Windows.{window};
ghost use Rattle.harden_lint.specs.Masks.{IsMask};

use lint_words::{WordTable, check_at, service_near, window};

// The mask of one register.
fn bit(r: u8) -> u32
    requires { r < 32 }
    ensures { result ≡ 2 ^ r }
{
    1 << r
}

/// The mask of a register, where a test of it holds; else 0.
pub(crate) fn bit_if(r: u8, holds: bool) -> u32
    ensures { IsMask (λ q. (q == r) && holds) result }
{
    if holds && r < 32 { bit(r) } else { 0 }
}

// The registers that have a window at a word by the check at c.
fn mask_by(text: &WordTable, c: u32, a: u32) -> u32
    requires { c ≤ 4294967264 }
    ensures { IsMask (λ r. window text.now r c a) result }
{
    match check_at(text, c) {
        None => 0,
        Some((x, y)) => {
            let left = bit_if(x, window(text, x, c, a));
            let right = bit_if(y, window(text, y, c, a));
            left | right
        }
    }
}

/// The registers that have a window at the word at an address, as a mask: bit r is for register r. A window is of a checked
/// register that awaits a critical use, or of register 2 at a syscall and where its answer is read.
pub fn window_mask(text: &WordTable, a: u32) -> u32
    requires low { 64 ≤ a }
    requires high { a ≤ 4294967264 }
    requires word { a % 4 ≡ 0 }
    ensures { (r : ℕ) → r < 32 → (bit_at result r ≡ 1) ↔ Near text.now a r }
{
    let first = mask_by(text, a - 4, a);
    let second = mask_by(text, a - 8, a);
    let third = mask_by(text, a - 12, a);
    let fourth = mask_by(text, a - 16, a);
    let service = bit_if(2, service_near(text, a));
    (first | (second | (third | fourth))) | service
}
