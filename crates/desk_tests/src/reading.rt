//! When a desk reads its clock.
ghost use Rattle.std.specs.Prelude.{◌≡◌};
ghost use Rattle.hs_io.specs.Outside.{Waits};

use conc_world::{Desk, RunEnd, alone};
use hs_base::{ClockChoice, Limits};
use hs_compile::compile;
use hs_io::{Clock, NullSink};
use hs_rules::{Entry, History};
use std::alloc::Global;
use std::test::Fail;

const READS: &[u8] =
    b"main :: IO () = { threadDelay 10; a <- clockMicros; threadDelay 0; return () };";

const SLEEPS: &[u8] = b"spin (n :: Int) :: IO () = { spin (n + 1) };
main :: IO () = { _ <- forkIO { spin 0 }; threadDelay 50 };";

const MAKES: &[u8] = b"main :: IO () = {
  _ <- forkIO { threadDelay 1000 }; a <- newMVar 1; b <- newMVar 2; c <- newMVar 3; return () };";

/// A clock that goes on by itself: each reading is seven microseconds after the last.
#[derive(Drop)]
struct Going {
    last: u64,
    choice: Option<ClockChoice>,
}

impl Clock for Going {
    ghost last = { λ c. c.last };

    ghost choice = { λ c. c.choice };

    ghost early_waits = { λ _. 0 };

    fn choose(&mut self, wanted: ClockChoice) {
        self.choice = Some(wanted);
    }

    fn now(&mut self) -> u64 {
        self.last = self.last.saturating_add(7);
        self.last
    }

    fn wait_until(&mut self, at: u64) {
        self.last = self.last.max(at);
    }
}

/// Whether the entry of this number is a Tick, and the time that it shows.
fn tick_at(history: &History, place: usize) -> Option<u64> {
    match history.at(place)? {
        Entry::Tick { at } => Some(at),
        _ => None,
    }
}

// The desk of a script over such a clock.
fn at_going(alloc: Global, script: &[u8]) -> Option<Desk<NullSink, NullSink, Going>> {
    let code = compile(alloc, script).ok()?;
    let clock = Going {
        last: 0,
        choice: None,
    };
    Desk::begin(
        alloc,
        code,
        100_000,
        Limits::shipped(),
        NullSink,
        NullSink,
        clock,
    )
    .ok()
}

#[test]
fn the_clock_is_read_before_each_operation_that_speaks_of_time(
    rt: HostRuntime,
) -> Result<(), Fail> {
    let Some(mut desk) = at_going(rt.alloc(), READS) else {
        return Err(Fail::new("no desk"));
    };
    alone(&mut desk);
    assert_eq!(rt; desk.ended().copied(), Some(RunEnd::Done));
    let history = desk.history();
    let mut operations = 0u32;
    for place in 1..history.len() {
        if history.at(place) == Some(Entry::Op { t: 0 }) {
            operations = operations.saturating_add(1);
            assert!(rt; tick_at(history, place - 1).is_some());
        }
    }
    assert_eq!(rt; operations, 3);
    Ok(())
}

#[test]
fn a_sleeper_wakes_while_another_thread_goes_on(rt: HostRuntime) -> Result<(), Fail> {
    let Some(mut desk) = at_going(rt.alloc(), SLEEPS) else {
        return Err(Fail::new("no desk"));
    };
    alone(&mut desk);
    assert_eq!(rt; desk.ended().copied(), Some(RunEnd::Done));
    Ok(())
}

// Where somebody sleeps the first entry of a settling has a Tick before it, and the one behind it has none.
#[test]
fn the_clock_is_read_once_in_a_settling(rt: HostRuntime) -> Result<(), Fail> {
    let Some(mut desk) = at_going(rt.alloc(), MAKES) else {
        return Err(Fail::new("no desk"));
    };
    alone(&mut desk);
    assert_eq!(rt; desk.ended().copied(), Some(RunEnd::Done));
    let history = desk.history();
    let mut read = false;
    for place in 1..history.len() {
        if history.at(place) == Some(Entry::Op { t: 0 }) {
            read = read || tick_at(history, place - 1).is_some();
            assert!(rt; tick_at(history, place.saturating_add(1)).is_none());
        }
    }
    assert!(rt; read);
    Ok(())
}
