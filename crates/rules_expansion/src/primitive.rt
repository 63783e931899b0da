//! The primitives.

/// What a thread asks the world for. No script can write the last three.
#[derive(Clone, Copy, Debug, PartialEq, Eq)]
pub enum Primitive {
    PutStr,
    PutStrLn,
    HPutStrLn,
    NewMVar,
    NewEmptyMVar,
    TakeMVar,
    PutMVar,
    ReadMVar,
    TryTakeMVar,
    TryPutMVar,
    MyThreadId,
    GetMaskingState,
    ClockMicros,
    ThreadDelay,
    ThrowTo,
    /// a timeout exception that was never made before
    NewTimeout,
    /// one use of `bracket` has acquired
    Acquired,
    /// that use is about to release
    Release,
}
