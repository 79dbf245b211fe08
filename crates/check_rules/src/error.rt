//! Why a program is refused.

ghost use Rattle.std.specs.Prelude.{◌≡◌};
ghost use Rattle.check_rules.specs.declared.error.CheckError.TheVariants as errors;

use std::alloc::{AllocError, AllocFailed};
use thiserror::Error;

/// What is wrong with a program.
#[derive(Clone, Copy, Debug, PartialEq, Eq)]
pub enum CheckKind {
    /// A scope has the name already, other than a function that is declared again; or a function has a second body.
    NameTwice,
    /// A function is declared again with another type, or with another number or other types of parameters.
    PrototypeDiffers,
    /// An array has neither a length nor initialisers, or a length that isn't from 1 to 32,768.
    BadLength,
    /// A length, an initialiser of a variable of the file or the value of a `case` has a name, a call or an assignment in it, or no value.
    NotConstant,
    /// A variable of the file has more initialisers than elements.
    TooManyInitialisers,
    /// No declaration of the name is in force.
    NameUnknown,
    /// What is called is no function.
    NotAFunction,
    /// What is indexed is no array.
    NotAnArray,
    /// An array or a function is used without index or call.
    NotScalar,
    /// There aren't as many arguments as parameters.
    ArgCount,
    /// A call that has no value stands where a value is needed.
    VoidUsed,
    /// What is assigned to is neither a name nor an indexed name, or it is const.
    NotAssignable,
    /// A void function returns a value, or another function none.
    BadReturn,
    /// `break` stands outside loops and `switch`, or `continue` outside loops.
    BreakOutside,
    /// A `switch` has the word of a case, or `default`, a second time.
    CaseTwice,
    /// A function is called that has no body.
    NoBody,
    /// There is no `int main(void)` with a body.
    NoMain,
    /// The weight of a function is above 4,000.
    FrameTooLarge,
    /// The block cost is above 16,000.
    TooManyBlocks,
    /// The variables of the file and the deepest chain of calls need more than 32,768 pairs of words.
    StoreTooLarge,
}

/// The first fault of a program, with the byte at which it stands, counted from 0; or no memory.
#[derive(Clone, Copy, Debug, PartialEq, Eq, Error)]
pub enum CheckError {
    /// A fault.
    #[error("{kind:?} at {at}")]
    Fault {
        /// What is wrong.
        kind: CheckKind,
        /// The byte at which it stands.
        at: u32,
    },
    /// There was no memory.
    #[error("out of memory")]
    OutOfMemory,
}

impl From<AllocError> for CheckError {
    ghost from_gives = { λ _ e. e ≡ errors.OutOfMemory };

    fn from(_error: AllocError) -> CheckError {
        CheckError::OutOfMemory
    }
}

impl<T: Drop> From<AllocFailed<T>> for CheckError {
    ghost from_gives = { λ _ e. e ≡ errors.OutOfMemory };

    fn from(_error: AllocFailed<T>) -> CheckError {
        CheckError::OutOfMemory
    }
}
