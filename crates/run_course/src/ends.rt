use hs_rules::{Entry, LimitKind};

/// How a run ended.
#[derive(Clone, Copy, Debug, PartialEq, Eq)]
pub enum RunEnd {
    /// The main thread finished by a value.
    Done,
    /// The main thread finished by an exception.
    Uncaught,
    /// No entry but a tick is legal and nobody sleeps.
    Deadlock,
    /// The steps are the fuel.
    Fuel,
    /// Want of memory.
    Memory,
    /// A put of the run failed.
    Write,
    /// This entry would exceed this limit. It is not in the history.
    Limit(LimitKind, Entry),
}
