ghost use Rattle.std.specs.Prelude.{◌≡◌};
ghost use Rattle.rules_waiting.specs.Waiting.{sleeper_before};

use std::marker::Model;

/// A sleeping thread, and the time in microseconds from which it may wake.
#[derive(Drop)]
pub struct Sleeping {
    thread: u32,
    due: u64,
}

impl Model for Sleeping {
    ghost use Rattle.rules_waiting.specs.Waiting.{Sleeper};

    ghost Value = { Sleeper };

    ghost view = { λ a. record { thread = a.thread; due = a.due } };
}

impl Sleeping {
    pub fn new(thread: u32, due: u64) -> Sleeping
        ensures { result ≡ record { thread = thread; due = due } }
    {
        Sleeping { thread, due }
    }

    pub fn copied(&self) -> Sleeping
        ensures { result ≡ self.now }
    {
        Sleeping {
            thread: self.thread,
            due: self.due,
        }
    }

    pub fn thread(&self) -> u32
        ensures { result ≡ self.now.thread }
    {
        self.thread
    }

    pub fn due(&self) -> u64
        ensures { result ≡ self.now.due }
    {
        self.due
    }

    /// Whether this one stands before the other.
    pub fn is_before(&self, other: &Sleeping) -> bool
        ensures { result ≡ sleeper_before self.now other.now }
    {
        self.due < other.due || self.due == other.due && self.thread < other.thread
    }
}
