//! What `StdSink` writes. No clause says it, since a stream of the system tells no bytes.

use crate::streams::SlowStream;
use hs_io::{Sink, StdSink};
use std::sync::atomic::{AtomicU64, Ordering};
use std::test::Fail;

#[test]
fn a_piece_is_written_to_its_end_and_flushed(rt: HostRuntime) -> Result<(), Fail> {
    let taken = AtomicU64::new(0);
    let flushes = AtomicU64::new(0);
    let mut sink = StdSink::new(SlowStream::of(2, &taken, &flushes));
    assert!(rt; sink.put(b"seven b").is_ok());
    assert_eq!(rt; taken.load(Ordering::SeqCst), 7);
    assert_eq!(rt; flushes.load(Ordering::SeqCst), 1);
    Ok(())
}

#[test]
fn a_write_that_takes_nothing_of_a_piece_is_a_fault(rt: HostRuntime) -> Result<(), Fail> {
    let taken = AtomicU64::new(0);
    let flushes = AtomicU64::new(0);
    let mut sink = StdSink::new(SlowStream::of(0, &taken, &flushes));
    assert!(rt; sink.put(b"x").is_err());
    assert_eq!(rt; taken.load(Ordering::SeqCst), 0);
    Ok(())
}
