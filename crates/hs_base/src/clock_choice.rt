/// Which clock a run goes by.
#[derive(Clone, Copy, Debug, PartialEq, Eq)]
pub enum ClockChoice {
    /// The clock of the machine.
    Real,
    /// A clock that stands until somebody waits, and then jumps.
    Virtual,
}
