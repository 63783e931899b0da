//! What no clause of the top call can say: that slices run beside each other, and outside the turn.

use crate::{Crowd, HeardClock, Holder, Holds, Meeting};
use conc_top::run;
use hs_base::NoMemory;
use hs_io::{Clock, Gate, NullSink, PlainSource, VirtualClock};
use std::alloc::Global;
use std::sync::Wait;
use std::test::Fail;
use std::thread::Threads;

const TWO_COUNTS: &[u8] =
    b"count (n :: Int) :: IO () = { if n == 5000 then { return () } else { count (n + 1) } };
main :: IO () = { _ <- forkIO { count 0 }; count 0 };";

// Each of the two threads is waited for, so a held slice of either is committed before the run ends.
const WAITED_COUNTS: &[u8] =
    b"count (n :: Int) :: IO () = { if n == 5000 then { return () } else { count (n + 1) } };
main :: IO () = { d <- newEmptyMVar @(); _ <- forkIO { count 0; putMVar d () }; count 0; takeMVar d };";

const SIX_SLEEPERS: &[u8] =
    b"nap (d :: MVar ()) :: IO () = { threadDelay 10; n <- clockMicros; putMVar d () };
start (k :: Int) (d :: MVar ()) :: IO () = {
  if k == 0 then { return () } else { _ <- forkIO { nap d }; start (k - 1) d } };
gather (k :: Int) (d :: MVar ()) :: IO () = {
  if k == 0 then { return () } else { takeMVar d; gather (k - 1) d } };
main :: IO () = { d <- newEmptyMVar @(); start 6 d; gather 6 d };";

const SLEEPERS: &str = "nap (d :: MVar ()) :: IO () = { threadDelay 10; putMVar d () };
start (k :: Int) (d :: MVar ()) :: IO () = {
  if k == 0 then { return () } else { _ <- forkIO { nap d }; start (k - 1) d } };
gather (k :: Int) (d :: MVar ()) :: IO () = {
  if k == 0 then { return () } else { takeMVar d; gather (k - 1) d } };
main :: IO () = { d <- newEmptyMVar @(); ";

// A script of so many threads that sleep until one moment.
fn sleepers(alloc: Global, count: u64) -> Result<String, NoMemory> {
    let starts = format!(in alloc; "start {count} d; gather {count} d ")?;
    let mut script = String::from_str(alloc, SLEEPERS)?;
    script.push_str(starts.as_str())?;
    script.push_str("};")?;
    Ok(script)
}

// The status of a run of this script on so many capabilities.
fn run_on<K: Clock + Drop + Send, G: Gate + Sync, R: Threads + Wait + Sync>(
    alloc: Global,
    rt: &R,
    capabilities: &str,
    script: &[u8],
    clock: K,
    gate: &G,
) -> Result<u8, NoMemory> {
    let words = [
        String::from_str(alloc, "run")?,
        String::from_str(alloc, "--caps")?,
        String::from_str(alloc, capabilities)?,
    ];
    let mut source = PlainSource::of(alloc, script)?;
    let done = run(
        alloc,
        rt,
        &words,
        &mut source,
        NullSink,
        NullSink,
        clock,
        gate,
    );
    Ok(done.status)
}

#[test]
fn a_slice_is_committed_while_another_is_held(rt: HostRuntime) -> Result<(), Fail> {
    for holds in [Holds::Second, Holds::First] {
        let gate = Holder::of(holds);
        let status = run_on(rt.alloc(), &rt, "2", TWO_COUNTS, VirtualClock::new(), &gate)?;
        assert_eq!(rt; status, 0);
        assert!(rt; gate.was_in_time(), "{holds:?}");
    }
    Ok(())
}

#[test]
fn a_slice_that_was_held_is_committed_too(rt: HostRuntime) -> Result<(), Fail> {
    for holds in [Holds::Second, Holds::First] {
        let gate = Holder::of(holds);
        let status = run_on(
            rt.alloc(),
            &rt,
            "2",
            WAITED_COUNTS,
            VirtualClock::new(),
            &gate,
        )?;
        assert_eq!(rt; status, 0);
        assert!(rt; gate.went_well(), "{holds:?}");
    }
    Ok(())
}

#[test]
fn a_capability_goes_on_while_another_holds_the_turn(rt: HostRuntime) -> Result<(), Fail> {
    let meeting = Meeting::new();
    let clock = HeardClock::new(&meeting);
    let status = run_on(rt.alloc(), &rt, "2", SIX_SLEEPERS, clock, &meeting)?;
    assert_eq!(rt; status, 0);
    assert!(rt; meeting.went_well());
    Ok(())
}

#[test]
fn each_of_two_to_sixteen_capabilities_has_a_slice(rt: HostRuntime) -> Result<(), Fail> {
    let alloc = rt.alloc();
    for count in 2..=16u64 {
        let crowd = Crowd::of(count);
        let clock = HeardClock::new(&crowd);
        let script = sleepers(alloc, count.saturating_add(1))?;
        let capabilities = format!(in alloc; "{count}")?;
        let status = run_on(
            alloc,
            &rt,
            capabilities.as_str(),
            script.as_bytes(),
            clock,
            &crowd,
        )?;
        assert_eq!(rt; status, 0, "{count}");
        assert!(rt; crowd.is_whole(), "{count}");
    }
    Ok(())
}
