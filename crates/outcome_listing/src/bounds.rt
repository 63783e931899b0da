use hs_base::{ClockChoice, Limits};

/// How far a search goes, and by which timing.
#[derive(Clone, Copy, Debug, PartialEq, Eq)]
pub struct Bounds {
    /// The most states that are kept.
    pub states: u32,
    /// The most steps of a run.
    pub fuel: u32,
    /// What each state may use.
    pub limits: Limits,
    pub clock: ClockChoice,
}
