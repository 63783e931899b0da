//! A gate that holds a slice until the clock is read, which is under the turn.

use crate::heard_clock::Listener;
use crate::signals::{Counter, Flag};
use hs_io::Gate;
use std::sync::atomic::{AtomicU64, Ordering};

/// How many other slices have to begin while the clock is read.
const OTHERS: u64 = 2;

/// Holds the first slice that begins after the clock was waited on, until the clock is read. That reading answers only when two
/// slices of other tickets have begun since.
#[derive(Debug, Drop)]
pub struct Meeting {
    waited: Flag,
    /// A slice is held, or was.
    held: Flag,
    /// Its ticket.
    ticket: AtomicU64,
    released: Flag,
    met: Flag,
    /// So many slices of other tickets began.
    others: Counter,
    /// A wait gave up.
    late: Flag,
}

impl Meeting {
    pub fn new() -> Meeting {
        Meeting {
            waited: Flag::new(),
            held: Flag::new(),
            ticket: AtomicU64::new(0),
            released: Flag::new(),
            met: Flag::new(),
            others: Counter::new(),
            late: Flag::new(),
        }
    }

    /// Whether the clock was read while the slice was held, and no wait gave up.
    pub fn went_well(&self) -> bool {
        self.met.is_set() && !self.late.is_set()
    }
}

impl Gate for Meeting {
    fn before_slice(&self, _cap: u32, ticket: u64) {
        if !self.waited.is_set() {
            return;
        }
        if self.held.swap() {
            if ticket != self.ticket.load(Ordering::SeqCst) {
                self.others.add_one();
            }
            return;
        }
        self.ticket.store(ticket, Ordering::SeqCst);
        if !self.released.comes() {
            self.late.set();
        }
    }

    fn committed(&self, _ticket: u64) {}
}

impl Listener for Meeting {
    fn is_read(&self) {
        if !self.held.is_set() || self.met.swap() {
            return;
        }
        let wanted = self.others.count().saturating_add(OTHERS);
        self.released.set();
        if !self.others.reaches(wanted) {
            self.late.set();
        }
    }

    fn is_waited_on(&self) {
        self.waited.set();
    }
}
