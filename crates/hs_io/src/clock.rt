ghost use Rattle.std.specs.Prelude.{◌≡◌, ◌≤◌, ℕ, Some, None, max};
ghost use Rattle.std.specs.declared.option.Option.{Option};
ghost use Rattle.hs_base.specs.declared.clock_choice.ClockChoice.{ClockChoice};
ghost use Rattle.hs_io.specs.Outside.{Waits};

use hs_base::ClockChoice;

/// What tells the time, in microseconds. It is punctual while its count of early waits stands still.
pub trait Clock {
    /// The last reading.
    ghost last: { Self → ℕ };

    /// The choice that was handed in last, if any.
    ghost choice: { Self → Option ClockChoice };

    /// How often a wait ended before its moment.
    ghost early_waits: { Self → ℕ };

    /// Says which clock a run goes by.
    fn choose(&mut self, wanted: ClockChoice)
        ensures chosen { choice self.new ≡ Some wanted }
        ensures forward { last self.old ≤ last self.new }
        ensures counted { early_waits self.new ≡ early_waits self.old };

    /// A new reading.
    fn now(&mut self) -> u64
        ensures reading { last self.new ≡ result }
        ensures forward { last self.old ≤ result }
        ensures chosen { choice self.new ≡ choice self.old }
        ensures counted { early_waits self.new ≡ early_waits self.old };

    /// Waits until this moment, or counts an early wait.
    fn wait_until(&mut self, at: u64)
        ensures waits { Waits at (last self.old) (last self.new) (early_waits self.old) (early_waits self.new) }
        ensures chosen { choice self.new ≡ choice self.old };
}

/// A clock that stands until somebody waits, and then jumps to that moment. It begins at 0 and is never early.
#[derive(Clone, Copy, Debug)]
pub struct VirtualClock {
    last: u64,
    choice: Option<ClockChoice>,
}

impl VirtualClock {
    ghost use Rattle.hs_io.specs.Memory.{moment_of, choice_of};

    pub fn new() -> VirtualClock
        ensures last { moment_of result ≡ 0 }
        ensures choice { choice_of result ≡ None }
    {
        VirtualClock {
            last: 0,
            choice: None,
        }
    }
}

impl Clock for VirtualClock {
    ghost use Rattle.hs_io.specs.Memory.{choice_of, moment_of};

    ghost last = { λ c. c.last };

    ghost choice = { λ c. c.choice };

    ghost early_waits = { λ _. 0 };

    fn choose(&mut self, wanted: ClockChoice)
        ensures chosen { choice_of self.new ≡ Some wanted }
        ensures same { moment_of self.new ≡ moment_of self.old }
    {
        self.choice = Some(wanted);
    }

    fn now(&mut self) -> u64
        ensures reading { result ≡ moment_of self.old }
        ensures same { self.new ≡ self.old }
    {
        self.last
    }

    fn wait_until(&mut self, at: u64)
        ensures last { moment_of self.new ≡ max (moment_of self.old) at }
        ensures chosen { choice_of self.new ≡ choice_of self.old }
    {
        self.last = self.last.max(at);
    }
}
