ghost use Rattle.std.specs.Prelude.{◌≡◌, None, length};

use crate::failed::Failed;
use crate::sink::Sink;
use crate::source::Source;
use std::io::{Read, Write};

/// A source over a stream of the system. It tells no bytes.
#[derive(Debug, Drop)]
pub struct StdSource<R> {
    stream: R,
    faults: u64,
}

impl<R: Read> StdSource<R> {
    /// Over a stream, before the first read.
    pub fn new(stream: R) -> StdSource<R>
        ensures { (result.stream ≡ stream) × (result.faults ≡ 0) }
    {
        StdSource { stream, faults: 0 }
    }
}

impl<R: Read> Source for StdSource<R> {
    ghost left = { λ _. None };

    ghost faults = { λ s. s.faults };

    fn read(&mut self, into: &mut [u8]) -> Result<usize, Failed> {
        match self.stream.read(into) {
            Ok(count) => Ok(count),
            Err(_) => {
                self.faults = self.faults.saturating_add(1);
                Err(Failed)
            }
        }
    }
}

/// A sink over a stream of the system. It tells no bytes. A write that takes nothing of a piece is a fault.
#[derive(Debug, Drop)]
pub struct StdSink<W> {
    stream: W,
    faults: u64,
}

impl<W: Write> StdSink<W> {
    /// Over a stream, before the first put.
    pub fn new(stream: W) -> StdSink<W>
        ensures { (result.stream ≡ stream) × (result.faults ≡ 0) }
    {
        StdSink { stream, faults: 0 }
    }
}

impl<W: Write> Sink for StdSink<W> {
    ghost told = { λ _. None };

    ghost faults = { λ s. s.faults };

    fn put(&mut self, bytes: &[u8]) -> Result<(), Failed> {
        match self
            .stream
            .write_all(bytes)
            .and_then(|()| self.stream.flush())
        {
            Ok(()) => Ok(()),
            Err(_) => {
                self.faults = self.faults.saturating_add(1);
                Err(Failed)
            }
        }
    }
}
