use crate::tally::touch::Touch;

/// What a thread did.
#[derive(Clone, Copy, Debug, PartialEq, Eq)]
pub struct ThreadCounts {
    /// The steps that it made by itself.
    pub local: u32,
    /// Its operations.
    pub ops: u32,
    /// How often it began to wait.
    pub waits: u32,
    /// The exceptions that it received.
    pub receives: u32,
}

/// What happened at a cell.
#[derive(Clone, Copy, Debug, PartialEq, Eq)]
pub struct CellCounts {
    /// The values that came out.
    pub out: u32,
    /// How often a thread began to wait there.
    pub waits: u32,
    /// The greatest length of its line.
    pub longest: usize,
}

/// What can be seen of an entry that is an operation, before it and after it.
#[derive(Clone, Copy, Debug, PartialEq, Eq)]
pub struct Seen {
    /// What the operation has to do with a cell.
    pub touch: Touch,
    /// Whether that cell was full.
    pub was_full: bool,
    /// Whether it is full now.
    pub is_full: bool,
    /// How many wait in its line now.
    pub line: usize,
    /// Whether the thread is blocked now.
    pub blocked: bool,
}
