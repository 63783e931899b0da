/// What a thread has to do.
#[derive(Clone, Copy, Debug, PartialEq, Eq)]
pub enum EntryKind {
    Op,
    Finish,
    /// One local rule, of a value or an exception in a frame.
    Local,
    Receive,
}
