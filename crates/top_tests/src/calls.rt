//! Calls of the top call that a row can't say.

use crate::AskedClock;
use conc_top::{Done, Ending, RunEnd, run};
use hs_base::ClockChoice;
use hs_io::{MemSink, MemSource, NullSink, OpenGate, VirtualClock};
use hs_rules::Entry;
use std::test::Fail;

const HELLO: &[u8] = b"main :: IO () = { putStrLn \"hello\" };";

#[test]
fn a_run_over_sinks_that_tell_nothing_keeps_its_history(rt: HostRuntime) -> Result<(), Fail> {
    let alloc = rt.alloc();
    let words = [String::from_str(alloc, "run")?];
    // In pieces of one byte.
    let mut source = MemSource::of(alloc, HELLO, 1, &[])?;
    let Done {
        status: _,
        ending,
        history,
        out: _,
        err: _,
        clock: _,
    } = run(
        alloc,
        &rt,
        &words,
        &mut source,
        NullSink,
        NullSink,
        VirtualClock::new(),
        &OpenGate,
    );
    assert!(rt; matches!(&ending, Ending::Ran(RunEnd::Done)));
    assert_eq!(rt; history.at(0), Some(Entry::Local { t: 0, k: 1 }));
    assert_eq!(rt; history.at(1), Some(Entry::Op { t: 0 }));
    assert_eq!(rt; history.at(2), Some(Entry::Finish { t: 0 }));
    assert_eq!(rt; history.at(3), None);
    Ok(())
}

#[test]
fn a_source_is_not_read_where_the_words_are_not_understood(rt: HostRuntime) -> Result<(), Fail> {
    let alloc = rt.alloc();
    // The first read fails, and so would be seen.
    let mut source = MemSource::of(alloc, HELLO, 8, &[1])?;
    for (word, status, told) in [
        ("walk", 2, b"words not understood\n".as_slice()),
        ("run", 7, b"read fault\n".as_slice()),
        ("run", 0, b"".as_slice()),
    ] {
        let words = [String::from_str(alloc, word)?];
        let done = run(
            alloc,
            &rt,
            &words,
            &mut source,
            NullSink,
            MemSink::of(alloc, 100, &[])?,
            VirtualClock::new(),
            &OpenGate,
        );
        assert_eq!(rt; done.status, status, "{word}");
        assert_eq!(rt; done.err.told(), told, "{word}");
    }
    Ok(())
}

#[test]
fn the_clock_has_its_choice_before_it_is_asked(rt: HostRuntime) -> Result<(), Fail> {
    let alloc = rt.alloc();
    for (name, choice) in [
        ("virtual", ClockChoice::Virtual),
        ("real", ClockChoice::Real),
    ] {
        let words = [
            String::from_str(alloc, "run")?,
            String::from_str(alloc, "--clock")?,
            String::from_str(alloc, name)?,
        ];
        let mut source = MemSource::of(alloc, b"main :: IO () = { threadDelay 5 };", 64, &[])?;
        let done = run(
            alloc,
            &rt,
            &words,
            &mut source,
            NullSink,
            NullSink,
            AskedClock::new(),
            &OpenGate,
        );
        assert_eq!(rt; done.status, 0);
        assert_eq!(rt; done.clock.last, 5);
        assert_eq!(rt; done.clock.choice, Some(choice));
        assert!(rt; !done.clock.asked_first);
    }
    Ok(())
}
