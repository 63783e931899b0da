//! An entry of a history, as a row writes it.

use std::fmt;

/// A line of a history (`docs/TRACES.md`): `L T K`, `O T`, `R T`, `W T`, `F T`, `T AT` or `S`.
#[derive(Clone, Copy, PartialEq, Eq)]
pub enum EntryLine {
    Local { t: u32, k: u32 },
    Op { t: u32 },
    Receive { t: u32 },
    Wake { t: u32 },
    Finish { t: u32 },
    Tick { at: u64 },
    Stranded,
}

impl fmt::Display for EntryLine {
    fn fmt<W: fmt::Write>(&self, f: &mut fmt::Formatter<W>) -> fmt::Result {
        match self {
            EntryLine::Local { t, k } => write!(f, "L {t} {k}"),
            EntryLine::Op { t } => write!(f, "O {t}"),
            EntryLine::Receive { t } => write!(f, "R {t}"),
            EntryLine::Wake { t } => write!(f, "W {t}"),
            EntryLine::Finish { t } => write!(f, "F {t}"),
            EntryLine::Tick { at } => write!(f, "T {at}"),
            EntryLine::Stranded => write!(f, "S"),
        }
    }
}
