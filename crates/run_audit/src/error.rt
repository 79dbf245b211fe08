//! Why the audit of an image does not pass.

ghost use Rattle.std.specs.Prelude.{◌≡◌};
ghost use Rattle.run_audit.specs.declared.error.AuditError.TheVariants as errors;
ghost use Rattle.harden_lint.specs.declared.error.LintError.{LintError};
ghost use Rattle.run_audit.specs.Errors.{of_lint};

use harden_lint::LintError;
use thiserror::Error;

/// Why the audit of an image does not pass.
#[derive(Clone, Copy, Debug, PartialEq, Eq, Error)]
pub enum AuditError {
    /// The lint refuses the text: the lowest address at which it breaks a rule, and the lowest such rule, 1 to 10.
    #[error("lint rule {rule} at {address}")]
    Lint { address: u32, rule: u8 },
    /// The clean run ended by a report at this step, counted from 0.
    #[error("reported at step {step}")]
    Reports { step: u64 },
    /// The clean run stood at this step, counted from 0, at this address, in a state that is not placed.
    #[error("misplaced at {at}, step {step}")]
    Misplaced { step: u64, at: u32 },
    /// There was no memory.
    #[error("out of memory")]
    OutOfMemory,
}

impl From<hard_words::OutOfMemory> for AuditError {
    ghost from_gives = { λ _ e. e ≡ errors.OutOfMemory };

    fn from(_error: hard_words::OutOfMemory) -> AuditError {
        AuditError::OutOfMemory
    }
}

impl From<LintError> for AuditError {
    ghost from_gives = { λ l e. e ≡ of_lint l };

    fn from(error: LintError) -> AuditError {
        match error {
            LintError::BadAt { address, rule } => AuditError::Lint { address, rule },
            LintError::OutOfMemory => AuditError::OutOfMemory,
        }
    }
}
