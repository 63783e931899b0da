use hs_base::Txt;
use hs_items::Items;
use hs_rules::{History, LimitKind};

/// How a run ended of itself.
#[derive(Clone, Copy, Debug, PartialEq, Eq)]
pub enum Final {
    /// Main finished by a value.
    Done,
    /// Main finished by an exception.
    Uncaught,
    /// Nothing can go on, and nobody sleeps.
    Deadlock,
}

/// What a run came to, and a run that came to it.
#[derive(Debug, Drop)]
pub struct Outcome {
    pub end: Final,
    /// What it wrote to standard output.
    pub out: Txt,
    /// What it wrote to standard error.
    pub err: Txt,
    pub witness: History,
}

/// Why there may be other outcomes than those that are listed.
#[derive(Clone, Copy, Debug, PartialEq, Eq)]
pub enum Cause {
    /// As many states were met as may be kept.
    States,
    /// A run had more steps than were allowed.
    Fuel,
    /// A thread reads the clock in real timing.
    Clock,
    /// A state exceeded this limit.
    Limit(LimitKind),
}

/// Whether each outcome is listed.
#[derive(Debug, Drop)]
pub enum Extent {
    All,
    /// A search met this, by the entries of this run.
    NotAll(Cause, History),
}

/// Whether a schedule may run for ever.
#[derive(Debug, Drop)]
pub enum Endless {
    /// Every schedule ends.
    Never,
    /// Behind the run `to` the entries of `round` come back to the state where they began.
    Round { to: History, round: History },
    Unknown,
}

/// What a search found.
#[derive(Debug, Drop)]
pub struct Explored {
    /// They rise by end, then by output, then by errors.
    pub outcomes: Items<Outcome>,
    pub extent: Extent,
    pub endless: Endless,
    /// How many states there are.
    pub states: u32,
}
