use hs_base::ClockChoice;
use hs_io::{
    Clock, Failed, Gate, MemSink, MemSource, NullSink, OpenGate, PlainSource, Sink, Source,
    StdSink, StdSource, VirtualClock,
};
use std::alloc::Global;
use std::test::Fail;

const TEXT: &[u8] = b"abcdef";

/// All that a source gives, at most four bytes a call, with a `!` for each fault.
fn drain<S: Source>(alloc: Global, source: &mut S) -> Result<Vec<u8>, Fail> {
    let mut all = Vec::new(alloc);
    for _ in 0..10 {
        let mut into = [0u8; 4];
        match source.read(&mut into) {
            Ok(count) => all.extend_from_slice(&into[..count])?,
            Err(Failed) => all.extend_from_slice(b"!")?,
        }
    }
    Ok(all)
}

#[test]
fn sources_give_their_bytes(rt: HostRuntime) -> Result<(), Fail> {
    let alloc = rt.alloc();
    let plain = drain(alloc, &mut PlainSource::of(alloc, TEXT)?)?;
    assert_eq!(rt; plain.as_slice(), TEXT);
    let failing = drain(alloc, &mut MemSource::of(alloc, TEXT, 2, &[2, 9])?)?;
    assert_eq!(rt; failing.as_slice(), b"ab!cdef!".as_slice());
    let over = drain(alloc, &mut StdSource::new(TEXT))?;
    assert_eq!(rt; over.as_slice(), TEXT);
    Ok(())
}

#[test]
fn sinks_are_told_pieces(rt: HostRuntime) -> Result<(), Fail> {
    let alloc = rt.alloc();
    let mut sink = MemSink::of(alloc, 10, &[(2, 1)])?;
    assert!(rt; sink.put(b"abc").is_ok());
    assert!(rt; sink.put(b"def").is_err());
    assert!(rt; sink.put(b"ghi").is_ok());
    assert!(rt; sink.put(b"jklm").is_err());
    assert_eq!(rt; sink.told(), b"abcdghijkl".as_slice());
    assert!(rt; NullSink.put(TEXT).is_ok());
    assert!(rt; StdSink::new(rt.stdout()).put(b"").is_ok());
    Ok(())
}

#[test]
fn a_virtual_clock_jumps(rt: HostRuntime) {
    let mut clock = VirtualClock::new();
    assert_eq!(rt; clock.now(), 0);
    clock.wait_until(20);
    clock.wait_until(10);
    clock.choose(ClockChoice::Virtual);
    assert_eq!(rt; clock.now(), 20);
    OpenGate.before_slice(0, 1);
    OpenGate.committed(1);
}
