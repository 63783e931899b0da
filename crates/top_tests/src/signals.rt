//! What the gates and clocks of tests tell each other.

use std::hint;
use std::sync::atomic::{AtomicBool, AtomicU64, Ordering};

/// How often a wait looks before it gives up.
const LOOKS: u32 = 100_000_000;

/// A flag that is set once.
#[derive(Debug, Drop)]
pub struct Flag {
    flag: AtomicBool,
}

impl Flag {
    pub fn new() -> Flag {
        Flag {
            flag: AtomicBool::new(false),
        }
    }

    pub fn set(&self) {
        self.flag.store(true, Ordering::SeqCst);
    }

    /// Sets it, and says whether it was set before.
    pub fn swap(&self) -> bool {
        self.flag.swap(true, Ordering::SeqCst)
    }

    pub fn is_set(&self) -> bool {
        self.flag.load(Ordering::SeqCst)
    }

    /// Whether it is set before the wait gives up.
    pub fn comes(&self) -> bool {
        for _ in 0..LOOKS {
            if self.is_set() {
                return true;
            }
            hint::spin_loop();
        }
        false
    }
}

/// A count that only grows.
#[derive(Debug, Drop)]
pub struct Counter {
    count: AtomicU64,
}

impl Counter {
    pub fn new() -> Counter {
        Counter {
            count: AtomicU64::new(0),
        }
    }

    pub fn add_one(&self) {
        self.count.fetch_add(1, Ordering::SeqCst);
    }

    pub fn count(&self) -> u64 {
        self.count.load(Ordering::SeqCst)
    }

    /// Whether it reaches this number before the wait gives up.
    pub fn reaches(&self, number: u64) -> bool {
        for _ in 0..LOOKS {
            if self.count() >= number {
                return true;
            }
            hint::spin_loop();
        }
        false
    }
}
