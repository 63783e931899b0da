//! A clock that tells what it is asked.
ghost use Rattle.std.specs.Prelude.{◌≡◌};

use hs_base::ClockChoice;
use hs_io::Clock;

/// Who hears what a clock is asked.
pub trait Listener {
    /// Called before each reading.
    fn is_read(&self);

    /// Called before each wait.
    fn is_waited_on(&self);
}

/// A virtual clock that tells its listener.
#[derive(Debug, Drop)]
pub struct HeardClock<'a, L: Listener> {
    listener: &'a L,
    last: u64,
    choice: Option<ClockChoice>,
}

impl<'a, L: Listener> HeardClock<'a, L> {
    pub fn new(listener: &'a L) -> HeardClock<'a, L> {
        HeardClock {
            listener,
            last: 0,
            choice: None,
        }
    }
}

impl<'a, L: Listener> Clock for HeardClock<'a, L> {
    ghost last = { λ c. c.last };

    ghost choice = { λ c. c.choice };

    ghost early_waits = { λ _. 0 };

    fn choose(&mut self, wanted: ClockChoice) {
        self.choice = Some(wanted);
    }

    fn now(&mut self) -> u64 {
        self.listener.is_read();
        self.last
    }

    fn wait_until(&mut self, at: u64) {
        self.listener.is_waited_on();
        self.last = self.last.max(at);
    }
}
