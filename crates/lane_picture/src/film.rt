//! What a picture shows of a history.
use hs_base::{Exn, Mask, Txt};
use hs_items::Items;

/// What a thread does that hasn't finished.
#[derive(Clone, Copy)]
pub enum Doing {
    /// It isn't blocked.
    Running,
    /// It waits to take from this cell.
    Taking(u32),
    Reading(u32),
    Putting(u32),
    /// It waits until this thread has received what it throws.
    Throwing(u32),
    /// It sleeps until this moment, in microseconds.
    Sleeping(u64),
}

/// A thread that hasn't finished.
#[derive(Clone, Copy)]
pub struct Pose {
    pub doing: Doing,
    pub mask: Mask,
}

/// What an operation does.
#[derive(Drop)]
pub enum Deed {
    /// It prints this text to standard output.
    Prints(Txt),
    /// It prints this text to standard error.
    Reports(Txt),
    MakesCell,
    Takes(u32),
    Reads(u32),
    Puts(u32),
    TriesToTake(u32),
    TriesToPut(u32),
    Forks,
    /// It throws at this thread.
    Throws(u32, Exn),
    Delays,
    Acquires,
    Releases,
    /// It asks for what changes nothing, as the time.
    Asks,
}

/// What an entry does. A thread is named by its number, and comes first.
#[derive(Drop)]
pub enum Event {
    Nothing,
    /// So many local steps.
    Steps(u32, u32),
    Does(u32, Deed),
    /// The exception comes from this thread.
    Receives(u32, u32, Exn),
    Wakes(u32),
    /// It finishes by a value.
    Returns(u32),
    /// It finishes by this exception.
    Fails(u32, Exn),
    /// The clock is at this moment, in microseconds.
    Ticks(u64),
    /// All that wait at cells for ever are hit.
    Strands,
}

/// An entry, and what it leaves.
#[derive(Drop)]
pub struct Frame {
    pub event: Event,
    /// The threads by number; none of one that has finished.
    pub poses: Items<Option<Pose>>,
    /// Whether each cell is full, by number.
    pub cells: Items<bool>,
}

/// The entry of a column, between the frame before it and the one that it leaves.
#[derive(Clone, Copy)]
pub(crate) struct Entry<'a> {
    pub column: u32,
    pub before: &'a Frame,
    pub after: &'a Frame,
}

/// What a history has come to.
#[derive(Clone, Copy)]
pub enum Ending {
    Done,
    Uncaught,
    Deadlock,
    Open,
}

/// What a lane shows over some columns.
#[derive(Clone, Copy)]
pub(crate) enum Look {
    Thread(Pose),
    Cell(bool),
}

/// A lane. That of the clock is the top.
#[derive(Clone, Copy)]
pub(crate) enum Lane {
    Thread(u32),
    Cell(u32),
    Clock,
}
