//! A clock that notes in which order it was asked.
ghost use Rattle.std.specs.Prelude.{◌≡◌};

use hs_base::ClockChoice;
use hs_io::Clock;

/// A virtual clock that notes whether it was read, or waited on, before it was told its choice.
#[derive(Debug, Drop)]
pub struct AskedClock {
    pub last: u64,
    pub choice: Option<ClockChoice>,
    pub asked_first: bool,
}

impl AskedClock {
    pub fn new() -> AskedClock {
        AskedClock {
            last: 0,
            choice: None,
            asked_first: false,
        }
    }

    fn note(&mut self)
        ensures same { (self.new.last ≡ self.old.last) × (self.new.choice ≡ self.old.choice) }
    {
        self.asked_first = self.asked_first || self.choice.is_none();
    }
}

impl Clock for AskedClock {
    ghost last = { λ c. c.last };

    ghost choice = { λ c. c.choice };

    ghost early_waits = { λ _. 0 };

    fn choose(&mut self, wanted: ClockChoice) {
        self.choice = Some(wanted);
    }

    fn now(&mut self) -> u64 {
        self.note();
        self.last
    }

    fn wait_until(&mut self, at: u64) {
        self.note();
        self.last = self.last.max(at);
    }
}
