//! A stream that takes little at a time.

use std::io;
use std::io::Write;
use std::sync::atomic::{AtomicU64, Ordering};

/// A stream that takes at most so many bytes a call, and tells how many it took and how often it was flushed.
#[derive(Debug, Drop)]
pub struct SlowStream<'a> {
    most: usize,
    taken: &'a AtomicU64,
    flushes: &'a AtomicU64,
}

impl<'a> SlowStream<'a> {
    pub fn of(most: usize, taken: &'a AtomicU64, flushes: &'a AtomicU64) -> SlowStream<'a> {
        SlowStream {
            most,
            taken,
            flushes,
        }
    }
}

impl<'a> Write for SlowStream<'a> {
    fn write(&mut self, piece: &[u8]) -> io::Result<usize> {
        let taken = piece.len().min(self.most);
        self.taken.fetch_add(taken as u64, Ordering::SeqCst);
        Ok(taken)
    }

    fn flush(&mut self) -> io::Result<()> {
        self.flushes.fetch_add(1, Ordering::SeqCst);
        Ok(())
    }
}
