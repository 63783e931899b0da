//! A stream whose reads go on where a signal interrupts them.
//!
//! To a contract `RetriedReads` gives the bytes of the stream that it reads from. The promise is that of `std::io::Read`: a
//! read that is interrupted took nothing, and is tried again. All other faults go on to the caller.

use std::io::{self, ErrorKind, Read};

/// A stream of which a read that a signal interrupts is tried again, as std's writes are.
#[derive(Debug, Drop)]
pub struct RetriedReads<R> {
    stream: R,
}

impl<R: Read> RetriedReads<R> {
    ghost use Rattle.std.specs.Prelude.{◌≡◌};

    /// Over a stream.
    pub fn new(stream: R) -> RetriedReads<R>
        ensures { result.stream ≡ stream }
    {
        RetriedReads { stream }
    }
}

impl<R: Read> Read for RetriedReads<R> {
    ghost remaining = { λ r. R.remaining r.stream };

    fn read(&mut self, buf: &mut [u8]) -> io::Result<usize> {
        for _ in 0..u64::MAX {
            match self.stream.read(buf) {
                Err(error) if error.kind() == ErrorKind::Interrupted => {}
                done => return done,
            }
        }
        Err(io::Error::from(ErrorKind::Interrupted))
    }
}
