use crate::player::Reached;
use hs_base::NoMemory;

/// The text is a trace of a run.
#[derive(Clone, Copy, Debug, PartialEq, Eq)]
pub struct Verified {
    /// How many entries the run has.
    pub entries: u32,
    /// How many steps.
    pub steps: u32,
    /// What it has come to.
    pub end: Reached,
}

/// Why it is none, with the number of the line, from 1 on, or why there is no answer.
#[derive(Clone, Copy, Debug, PartialEq, Eq)]
pub enum RunFault {
    /// The line isn't as a trace has it.
    Spelling(u32),
    /// With this line there are more than 4,000,000 steps.
    Long(u32),
    /// The line's entry isn't legal after those before it.
    Illegal(u32),
    NoMemory,
}

impl From<NoMemory> for RunFault {
    ghost use Rattle.std.specs.Prelude.{◌≡◌};
    ghost use Rattle.trace_checker.specs.declared.verdict.RunFault.TheVariants as fault;

    ghost from_gives = { λ _ e. e ≡ fault.NoMemory };

    fn from(_: NoMemory) -> RunFault {
        RunFault::NoMemory
    }
}
