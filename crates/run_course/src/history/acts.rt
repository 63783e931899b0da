use hs_rules::Entry;

/// What a thread, or the clock's time, makes possible: an entry other than a Tick, and local rules only of a value or an
/// exception in a frame.
#[derive(Clone, Copy, Debug, PartialEq, Eq)]
pub enum NextEntry {
    Op(u32),
    Finish(u32),
    /// One local rule.
    Local(u32),
    Receive(u32),
    Wake(u32),
    Strand,
}

/// What can be done next.
#[derive(Clone, Copy, Debug, PartialEq, Eq)]
pub enum Next {
    /// Nothing: the main thread has finished, by a value or not.
    Over(bool),
    Act(NextEntry),
    /// Local rules of threads that are to do an action, and Ticks.
    Goes,
    /// Ticks: the first sleeper may wake then.
    Sleeps(u64),
    /// Ticks, and nobody sleeps.
    Stuck,
}

impl NextEntry {
    ghost use Rattle.std.specs.Prelude.{◌≡◌};
    ghost use Rattle.run_course.specs.history.Acts.{entry_of};

    /// The entry that it is.
    pub fn entry(self) -> Entry
        ensures { result ≡ entry_of self }
    {
        match self {
            NextEntry::Op(t) => Entry::Op { t },
            NextEntry::Finish(t) => Entry::Finish { t },
            NextEntry::Local(t) => Entry::Local { t, k: 1 },
            NextEntry::Receive(t) => Entry::Receive { t },
            NextEntry::Wake(t) => Entry::Wake { t },
            NextEntry::Strand => Entry::Stranded,
        }
    }
}
