/// One event of a run (own). Threads are named by their numbers; the main thread has number 0.
#[derive(Clone, Copy, Debug, PartialEq, Eq)]
pub enum Entry {
    /// `k` steps of thread `t` that no other thread sees.
    Local { t: u32, k: u32 },
    /// Thread `t` performs the primitive that it stands at, or begins to wait for it.
    Op { t: u32 },
    /// Thread `t` receives the first exception that waits for it.
    Receive { t: u32 },
    /// Thread `t` has slept long enough and goes on.
    Wake { t: u32 },
    /// Thread `t` ends.
    Finish { t: u32 },
    /// The clock shows `at` microseconds.
    Tick { at: u64 },
    /// Nothing else can go on, and every thread that waits at a cell and can be interrupted gets an exception.
    Stranded,
}

/// What a run may use only so much of (own).
#[derive(Clone, Copy, Debug, PartialEq, Eq)]
pub enum LimitKind {
    /// Threads ever made, the main thread among them.
    Threads,
    /// Cells ever made.
    Cells,
    /// Frames over all unfinished threads.
    Frames,
    /// Bytes of output and error output together.
    Output,
}
