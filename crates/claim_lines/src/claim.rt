use hs_base::{NoMemory, Pos, Txt};
use hs_items::Items;
use std::alloc::AllocError;

/// One thing that an outcome is, or isn't.
#[derive(Debug, Drop)]
pub enum Part {
    /// Main finished by a value.
    Done,
    /// Main finished by an exception.
    Uncaught,
    /// Nothing can go on, and nobody sleeps.
    Deadlock,
    /// Main was left waiting for ever: a deadlock, or main was told that it is blocked indefinitely and ended so.
    Stuck,
    /// The whole output is this text.
    Output(Txt),
    /// The whole error output is this text.
    Errors(Txt),
    /// This text stands in the output.
    OutputHas(Txt),
    /// This text stands in the error output.
    ErrorsHas(Txt),
}

/// What a claim says of the outcomes of a script. The parts are never none, and one outcome has to meet all of them.
#[derive(Debug, Drop)]
pub enum Says {
    /// Each outcome meets them.
    Always(Items<Part>),
    /// No outcome meets them.
    Never(Items<Part>),
    /// Some outcome meets them.
    Sometimes(Items<Part>),
    /// Every schedule ends.
    Terminates,
}

/// A claim of a script.
#[derive(Debug, Drop)]
pub struct Claim {
    /// The number of its line, from 1.
    pub line: u32,
    pub says: Says,
}

/// Why there are no claims to judge.
#[derive(Debug, Drop)]
pub enum ClaimFault {
    /// A line begins as a claim and goes on as none, first at this place.
    Refused(Pos),
    /// Want of memory.
    NoMemory,
}

impl From<NoMemory> for ClaimFault {
    ghost use Rattle.std.specs.Prelude.{◌≡◌};
    ghost use Rattle.claim_lines.specs.declared.claim.ClaimFault.{ClaimFault};

    ghost from_gives = { λ e fault. fault ≡ ClaimFault.NoMemory };

    fn from(_: NoMemory) -> ClaimFault {
        ClaimFault::NoMemory
    }
}

impl From<AllocError> for ClaimFault {
    ghost use Rattle.std.specs.Prelude.{◌≡◌};
    ghost use Rattle.claim_lines.specs.declared.claim.ClaimFault.{ClaimFault};

    ghost from_gives = { λ e fault. fault ≡ ClaimFault.NoMemory };

    fn from(_: AllocError) -> ClaimFault {
        ClaimFault::NoMemory
    }
}
