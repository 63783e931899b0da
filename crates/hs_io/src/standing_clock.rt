ghost use Rattle.std.specs.Prelude.{◌≡◌, ◌<◌, ◌+◌, ◌-◌, ◌^◌, None, Some, min};
ghost use Rattle.hs_io.specs.Outside.{Waits};

use crate::clock::Clock;
use hs_base::ClockChoice;

/// A clock that stands for good. It shows 0, and each wait for a later moment is early.
#[derive(Clone, Copy, Debug)]
pub struct StandingClock {
    choice: Option<ClockChoice>,
    early_waits: u64,
}

impl StandingClock {
    ghost use Rattle.hs_io.specs.Memory.{standing_choice_of, standing_early_waits};

    pub fn new() -> StandingClock
        ensures choice { standing_choice_of result ≡ None }
        ensures early { standing_early_waits result ≡ 0 }
    {
        StandingClock {
            choice: None,
            early_waits: 0,
        }
    }

    /// How many of its waits were early.
    pub fn early_waits(&self) -> u64
        ensures { result ≡ standing_early_waits self.now }
    {
        self.early_waits
    }
}

impl Clock for StandingClock {
    ghost use Rattle.hs_io.specs.Memory.{standing_choice_of, standing_early_waits};

    ghost last = { λ _. 0 };

    ghost choice = { λ c. c.choice };

    ghost early_waits = { λ c. c.early_waits };

    fn choose(&mut self, wanted: ClockChoice)
        ensures chosen { standing_choice_of self.new ≡ Some wanted }
        ensures counted { standing_early_waits self.new ≡ standing_early_waits self.old }
    {
        self.choice = Some(wanted);
    }

    fn now(&mut self) -> u64
        ensures reading { result ≡ 0 }
        ensures same { self.new ≡ self.old }
    {
        0
    }

    fn wait_until(&mut self, at: u64)
        ensures waits { Waits at 0 0 (standing_early_waits self.old) (standing_early_waits self.new) }
        ensures later { 0 < at →
            standing_early_waits self.new ≡ min (standing_early_waits self.old + 1) (2 ^ 64 - 1) }
        ensures there { at ≡ 0 → standing_early_waits self.new ≡ standing_early_waits self.old }
        ensures chosen { standing_choice_of self.new ≡ standing_choice_of self.old }
    {
        if at > 0 {
            self.early_waits = self.early_waits.saturating_add(1);
        }
    }
}
