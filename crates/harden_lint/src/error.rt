//! Why a text is refused.

ghost use Rattle.std.specs.Prelude.{◌≡◌};
ghost use Rattle.harden_lint.specs.declared.error.LintError.TheVariants as errors;

use thiserror::Error;

/// Why a text is refused.
#[derive(Clone, Copy, Debug, PartialEq, Eq, Error)]
pub enum LintError {
    /// A rule, 1 to 10, is broken at an address: the lowest address at which one is, and the lowest rule there.
    #[error("rule {rule} is broken at {address}")]
    BadAt { address: u32, rule: u8 },
    /// There was no memory.
    #[error("out of memory")]
    OutOfMemory,
}

impl From<hard_words::OutOfMemory> for LintError {
    ghost from_gives = { λ _ e. e ≡ errors.OutOfMemory };

    fn from(_error: hard_words::OutOfMemory) -> LintError {
        LintError::OutOfMemory
    }
}
