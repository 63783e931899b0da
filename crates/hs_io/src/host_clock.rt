ghost use Rattle.std.specs.Prelude.{◌≡◌, ◌≤◌, ◌<◌, ◌+◌, ◌-◌, ◌/◌, ◌^◌, ◌↔◌, IsTrue, Some, None, max, min};
ghost use Rattle.hs_io.specs.Outside.{Waits};
ghost use Rattle.std.specs.Duration.{as_nanos};

use crate::clock::Clock;
use hs_base::ClockChoice;
use std::thread;
use std::time::{Clock as SystemClock, Duration, Instant};

// Whole microseconds, or the greatest number where there are more.
fn micros_of(time: Duration) -> u64
    ensures { result ≡ min (as_nanos time / 1_000) (2 ^ 64 - 1) }
{
    time.as_micros().min(u128::from(u64::MAX)) as u64
}

/// A clock over the system's time, in microseconds since it was made. Where the system refuses a reading, or shows one below
/// the last, it answers the last. Once `Virtual` is chosen it asks the system nothing, and goes on from its last reading as a
/// `VirtualClock` does. What the system shows and how long it sleeps, no clause says.
#[derive(Debug, Drop)]
pub struct HostClock<R> {
    system: R,
    // The first reading that the system gave, if it gave one.
    start: Option<Instant>,
    last: u64,
    choice: Option<ClockChoice>,
    early_waits: u64,
}

impl<R: SystemClock> HostClock<R> {
    ghost use Rattle.hs_io.specs.Host.{host_choice_of, host_early_waits, host_moment};

    /// Over a system, whose time it counts from here on.
    pub fn new(system: R) -> HostClock<R>
        ensures last { host_moment result ≡ 0 }
        ensures choice { host_choice_of result ≡ None }
        ensures early { host_early_waits result ≡ 0 }
    {
        let start = Instant::now(&system).ok();
        HostClock {
            system,
            start,
            last: 0,
            choice: None,
            early_waits: 0,
        }
    }

    /// How many of its waits were early.
    pub fn early_waits(&self) -> u64
        ensures { result ≡ host_early_waits self.now }
    {
        self.early_waits
    }

    // Whether it goes on by waits alone.
    fn is_virtual(&self) -> bool
        ensures { IsTrue result ↔ (host_choice_of self.now ≡ Some ClockChoice.Virtual) }
    {
        matches!(self.choice, Some(ClockChoice::Virtual))
    }

    // How long ago the system says that the start was, or the last reading where it refuses to say.
    fn shown(&mut self) -> u64
        ensures last { host_moment self.new ≡ host_moment self.old }
        ensures choice { host_choice_of self.new ≡ host_choice_of self.old }
        ensures early { host_early_waits self.new ≡ host_early_waits self.old }
    {
        let Ok(now) = Instant::now(&self.system) else {
            return self.last;
        };
        let start = *self.start.get_or_insert(now);
        micros_of(now.duration_since(start))
    }
}

impl<R: SystemClock> Clock for HostClock<R> {
    ghost use Rattle.hs_io.specs.Host.{host_choice_of, host_early_waits, host_moment};

    ghost last = { λ c. c.last };

    ghost choice = { λ c. c.choice };

    ghost early_waits = { λ c. c.early_waits };

    fn choose(&mut self, wanted: ClockChoice)
        ensures chosen { host_choice_of self.new ≡ Some wanted }
        ensures same { host_moment self.new ≡ host_moment self.old }
        ensures counted { host_early_waits self.new ≡ host_early_waits self.old }
    {
        self.choice = Some(wanted);
    }

    fn now(&mut self) -> u64
        ensures reading { host_moment self.new ≡ result }
        ensures forward { host_moment self.old ≤ result }
        ensures stands { host_choice_of self.old ≡ Some ClockChoice.Virtual → result ≡ host_moment self.old }
        ensures chosen { host_choice_of self.new ≡ host_choice_of self.old }
        ensures counted { host_early_waits self.new ≡ host_early_waits self.old }
    {
        if !self.is_virtual() {
            let shown = self.shown();
            self.last = self.last.max(shown);
        }
        self.last
    }

    fn wait_until(&mut self, at: u64)
        ensures waits { Waits at (host_moment self.old) (host_moment self.new)
            (host_early_waits self.old) (host_early_waits self.new) }
        // It counts exactly where the moment is not there when it ends.
        ensures there { at ≤ host_moment self.new → host_early_waits self.new ≡ host_early_waits self.old }
        ensures early { host_moment self.new < at →
            host_early_waits self.new ≡ min (host_early_waits self.old + 1) (2 ^ 64 - 1) }
        ensures jumps { host_choice_of self.old ≡ Some ClockChoice.Virtual →
            host_moment self.new ≡ max (host_moment self.old) at }
        ensures chosen { host_choice_of self.new ≡ host_choice_of self.old }
    {
        if self.is_virtual() {
            self.last = self.last.max(at);
            return;
        }
        if self.now() < at {
            let left = at.saturating_sub(self.shown());
            thread::sleep(&self.system, Duration::from_micros(left));
        }
        if self.now() < at {
            self.early_waits = self.early_waits.saturating_add(1);
        }
    }
}
