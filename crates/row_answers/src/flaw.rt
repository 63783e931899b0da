//! Why there is no answer: want of memory, or a line that is no line of a row.

use std::alloc::{AllocError, AllocFailed};
use std::fmt;

/// What is wrong with a line or with a row, or want of memory.
#[derive(Clone, Copy)]
pub enum Flaw {
    NoMemory,
    Says(&'static str),
}

impl From<AllocError> for Flaw {
    fn from(_: AllocError) -> Flaw {
        Flaw::NoMemory
    }
}

impl<T: Drop> From<AllocFailed<T>> for Flaw {
    fn from(_: AllocFailed<T>) -> Flaw {
        Flaw::NoMemory
    }
}

impl fmt::Display for Flaw {
    fn fmt<W: fmt::Write>(&self, f: &mut fmt::Formatter<W>) -> fmt::Result {
        match self {
            Flaw::NoMemory => write!(f, "out of memory"),
            Flaw::Says(says) => write!(f, "{says}"),
        }
    }
}
