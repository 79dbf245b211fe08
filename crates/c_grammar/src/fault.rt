//! Why reading gave up.

ghost use Rattle.std.specs.Prelude.{◌≡◌};
ghost use Rattle.c_grammar.specs.declared.fault.Fault.TheVariants.{OutOfMemory};

use std::alloc::{AllocError, AllocFailed};

/// Why reading gave up.
#[derive(Clone, Copy)]
pub enum Fault {
    /// No program goes on with the token before which `left` tokens stood from the end, itself counted.
    NoProgram { left: usize },
    /// There was no memory.
    OutOfMemory,
}

impl From<AllocError> for Fault {
    ghost from_gives = { λ _ e. e ≡ OutOfMemory };

    fn from(_error: AllocError) -> Fault {
        Fault::OutOfMemory
    }
}

impl<T: Drop> From<AllocFailed<T>> for Fault {
    ghost from_gives = { λ _ e. e ≡ OutOfMemory };

    fn from(_error: AllocFailed<T>) -> Fault {
        Fault::OutOfMemory
    }
}
