//! What a turn keeps, and what belongs to a code.
ghost use Rattle.std.specs.Prelude.{◌≡◌, ℕ, List};
ghost use Rattle.rules_code.specs.declared.code.CodeBody.{CodeBody};
ghost use Rattle.hs_rules.specs.declared.entry.Entry.{Entry};
ghost use Rattle.hs_rules.specs.declared.kept.Plan.{Plan};

use hs_base::{ClockChoice, Limits};
use rules_code::CodeBody;

/// What never changes of a run from its begin on. No value of it is made: contracts alone speak of it.
pub struct Plan {
    /// The code, and with it the script that it was made of.
    pub body: CodeBody,
    pub fuel: u32,
    pub limits: Limits,
    /// How many faults the sink of output had counted.
    pub out_faults: u64,
    /// How many faults the sink of error output had counted.
    pub err_faults: u64,
    /// What the clock had chosen, if it had.
    pub choice: Option<ClockChoice>,
    /// How many waits of the clock had ended early.
    pub early: u64,
}

/// A value that follows a plan and has a history.
pub trait Kept {
    ghost plan: { Self → Plan };

    ghost history: { Self → List Entry };
}

/// A value that has a ticket number and belongs to a code.
pub trait Ticketed {
    ghost number: { Self → ℕ };

    ghost belongs: { Self → CodeBody };

    fn ticket(&self) -> u64
        ensures { result ≡ number self.now };
}
