/// What a thread in a line waits for. A value is a number.
#[derive(Clone, Copy, Debug, PartialEq, Eq)]
pub enum Want {
    Take,
    Read,
    Put(u32),
}

/// A place in the line of a cell.
#[derive(Clone, Copy, Debug, PartialEq, Eq)]
pub struct Place {
    pub thread: u32,
    pub want: Want,
}

/// What a call on a cell answers a thread.
#[derive(Clone, Copy, Debug, PartialEq, Eq)]
pub enum Answer {
    Took(u32),
    Saw(u32),
    Gave,
    TriedTake(Option<u32>),
    TriedPut(bool),
}

/// An answer, and the thread that gets it.
#[derive(Clone, Copy, Debug, PartialEq, Eq)]
pub struct Reply {
    pub thread: u32,
    pub answer: Answer,
}
