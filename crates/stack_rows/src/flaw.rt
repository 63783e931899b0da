//! Why a row can't be tried.

use hs_base::NoMemory;
use std::alloc::{AllocError, AllocFailed};
use std::fmt;

/// Want of memory, or what is wrong with a row.
#[derive(Clone, Copy, Debug, PartialEq, Eq)]
pub enum Flaw {
    NoMemory,
    Says(&'static str),
    /// The line of this number, from 1, is no line of a row.
    Line(usize),
}

impl From<AllocError> for Flaw {
    fn from(_: AllocError) -> Flaw {
        Flaw::NoMemory
    }
}

impl<T: Drop> From<AllocFailed<T>> for Flaw {
    fn from(_: AllocFailed<T>) -> Flaw {
        Flaw::NoMemory
    }
}

impl From<NoMemory> for Flaw {
    fn from(_: NoMemory) -> Flaw {
        Flaw::NoMemory
    }
}

impl fmt::Display for Flaw {
    fn fmt<W: fmt::Write>(&self, f: &mut fmt::Formatter<W>) -> fmt::Result {
        match self {
            Flaw::NoMemory => write!(f, "out of memory"),
            Flaw::Says(says) => write!(f, "{says}"),
            Flaw::Line(number) => write!(f, "line {number} is no line of a row"),
        }
    }
}
