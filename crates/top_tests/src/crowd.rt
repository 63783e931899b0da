//! A gate that holds a slice of each capability until all have one.

use crate::heard_clock::Listener;
use crate::signals::{Counter, Flag};
use hs_io::Gate;
use std::sync::atomic::{AtomicU64, Ordering};

/// Once the clock was waited on, holds the first slice of each capability until so many have one.
#[derive(Debug, Drop)]
pub struct Crowd {
    wanted: u64,
    waited: Flag,
    /// A bit for each capability that has come.
    seen: AtomicU64,
    come: Counter,
    /// A wait gave up.
    late: Flag,
}

impl Crowd {
    pub fn of(wanted: u64) -> Crowd {
        Crowd {
            wanted,
            waited: Flag::new(),
            seen: AtomicU64::new(0),
            come: Counter::new(),
            late: Flag::new(),
        }
    }

    /// Whether as many capabilities as were wanted came, no more, and no wait gave up.
    pub fn is_whole(&self) -> bool {
        self.come.count() == self.wanted && !self.late.is_set()
    }

    // Whether it is the first time that this capability comes.
    fn is_new(&self, cap: u32) -> bool {
        let bit = 1_u64.checked_shl(cap).unwrap_or(0);
        self.seen.fetch_or(bit, Ordering::SeqCst) & bit == 0
    }
}

impl Gate for Crowd {
    fn before_slice(&self, cap: u32, _ticket: u64) {
        if !self.waited.is_set() || !self.is_new(cap) {
            return;
        }
        self.come.add_one();
        if !self.come.reaches(self.wanted) {
            self.late.set();
        }
    }

    fn committed(&self, _ticket: u64) {}
}

impl Listener for Crowd {
    fn is_read(&self) {}

    fn is_waited_on(&self) {
        self.waited.set();
    }
}
