//! Why a list is not followed to its end.

use hard_words::OutOfMemory;
use std::alloc::{AllocError, AllocFailed};
use std::{fmt, io};

/// Why a list is not followed to its end, at the line that was printed last.
#[derive(Clone, Copy, Debug, PartialEq, Eq)]
pub(crate) enum Fault {
    /// There was no memory.
    Memory,
    /// A list can't be read, or nothing can be printed.
    Outside,
    /// The line has no form, or names a file or a place that is not there.
    Line,
}

impl fmt::Display for Fault {
    fn fmt<W: fmt::Write>(&self, f: &mut fmt::Formatter<W>) -> fmt::Result {
        match self {
            Fault::Memory => write!(f, "no memory"),
            Fault::Outside => write!(f, "no list or no output"),
            Fault::Line => write!(f, "no such line"),
        }
    }
}

impl From<AllocError> for Fault {
    fn from(_error: AllocError) -> Fault {
        Fault::Memory
    }
}

impl<T: Drop> From<AllocFailed<T>> for Fault {
    fn from(_error: AllocFailed<T>) -> Fault {
        Fault::Memory
    }
}

impl From<OutOfMemory> for Fault {
    fn from(_error: OutOfMemory) -> Fault {
        Fault::Memory
    }
}

impl From<io::Error> for Fault {
    fn from(_error: io::Error) -> Fault {
        Fault::Outside
    }
}
