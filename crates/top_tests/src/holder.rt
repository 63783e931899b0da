//! A gate that holds one of two slices until the other is committed.

use crate::signals::Flag;
use hs_io::Gate;

/// Which of the slices with the second and the third ticket is held.
#[derive(Clone, Copy, Debug, PartialEq, Eq)]
pub enum Holds {
    /// That of the second ticket.
    Second,
    /// The one that begins first.
    First,
}

/// Holds one slice until the other is committed.
#[derive(Debug, Drop)]
pub struct Holder {
    holds: Holds,
    held: Flag,
    second: Flag,
    third: Flag,
    /// The wait gave up.
    late: Flag,
}

impl Holder {
    pub fn of(holds: Holds) -> Holder {
        Holder {
            holds,
            held: Flag::new(),
            second: Flag::new(),
            third: Flag::new(),
            late: Flag::new(),
        }
    }

    /// Whether no wait gave up.
    pub fn was_in_time(&self) -> bool {
        !self.late.is_set()
    }

    /// Whether a slice was held, both were committed, and the wait didn't give up.
    pub fn went_well(&self) -> bool {
        self.held.is_set() && self.second.is_set() && self.third.is_set() && !self.late.is_set()
    }

    fn hold_until(&self, other: &Flag) {
        if !other.comes() {
            self.late.set();
        }
    }
}

impl Gate for Holder {
    fn before_slice(&self, _cap: u32, ticket: u64) {
        match (ticket, self.holds) {
            (2, _) if !self.held.swap() => self.hold_until(&self.third),
            (3, Holds::First) if !self.held.swap() => self.hold_until(&self.second),
            _ => {}
        }
    }

    fn committed(&self, ticket: u64) {
        match ticket {
            2 => self.second.set(),
            3 => self.third.set(),
            _ => {}
        }
    }
}
