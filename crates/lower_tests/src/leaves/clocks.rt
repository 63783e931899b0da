use hs_base::ClockChoice;
use hs_io::{Clock, HostClock, StandingClock};
use std::cell::Cell;
use std::io;
use std::test::Fail;
use std::time::{Clock as SystemClock, Duration, Instant};

const HOUR: u64 = 3_600_000_000;

// A system that shows what it is told to, in microseconds, or refuses. Its sleep is over at once.
#[derive(Drop)]
struct Told {
    micros: Cell<Option<u64>>,
}

impl SystemClock for Told {
    fn monotonic(&self) -> io::Result<Duration> {
        match self.micros.get() {
            Some(micros) => Ok(Duration::from_micros(micros)),
            None => Err(io::Error::other("refused")),
        }
    }

    fn since_1970(&self) -> io::Result<Duration> {
        self.monotonic()
    }
}

#[test]
fn a_standing_clock_counts_waits(rt: HostRuntime) {
    let mut clock = StandingClock::new();
    clock.wait_until(0);
    assert_eq!(rt; clock.early_waits(), 0);
    clock.wait_until(20);
    clock.choose(ClockChoice::Real);
    assert_eq!(rt; clock.early_waits(), 1);
    assert_eq!(rt; clock.now(), 0);
}

#[test]
fn a_host_clock_waits(rt: HostRuntime) -> Result<(), Fail> {
    let made = Instant::now(&rt)?;
    let mut clock = HostClock::new(&rt);
    let first = clock.now();
    let second = clock.now();
    assert!(rt; first <= second);
    clock.wait_until(2_000);
    let there = clock.now() >= 2_000 && made.elapsed(&rt)? >= Duration::from_micros(2_000);
    assert!(rt; there || clock.early_waits() == 1);
    clock.choose(ClockChoice::Virtual);
    let later = clock.now().saturating_add(HOUR);
    clock.wait_until(later);
    assert_eq!(rt; clock.now(), later);
    Ok(())
}

#[test]
fn a_host_clock_shows_the_time_since_it_was_made(rt: HostRuntime) {
    let system = Told {
        micros: Cell::new(Some(5_000_000)),
    };
    let mut clock = HostClock::new(&system);
    for (shown, wanted) in [
        (Some(5_000_250), 250),
        (None, 250),
        (Some(4_000_000), 250),
        (Some(5_000_300), 300),
    ] {
        system.micros.set(shown);
        assert_eq!(rt; clock.now(), wanted, "at {shown:?}");
    }
    clock.wait_until(300);
    assert_eq!(rt; clock.early_waits(), 0);
    clock.wait_until(400);
    assert_eq!(rt; clock.early_waits(), 1);
}

#[test]
fn a_host_clock_begins_where_the_system_begins_to_show(rt: HostRuntime) {
    let system = Told {
        micros: Cell::new(None),
    };
    let mut clock = HostClock::new(&system);
    assert_eq!(rt; clock.now(), 0);
    system.micros.set(Some(7_000));
    assert_eq!(rt; clock.now(), 0);
    system.micros.set(Some(7_100));
    assert_eq!(rt; clock.now(), 100);
}
