//! Where capabilities wait for work, and what wakes them.
ghost use Rattle.std.specs.Prelude.{◌≡◌, vec_len, IfOk};

use crossbeam_utils::CachePadded;
use hs_base::NoMemory;
use std::alloc::{AllocError, Global};
use std::sync::Wait;
use std::sync::atomic::{AtomicBool, AtomicU64, Ordering};
use std::thread::Parker;
use std::time::Duration;

// What the capability of a berth does: it works, it looks for jobs now and then, or it is parked.
const WORKS: u64 = 0;

const WATCHES: u64 = 1;

const PARKED: u64 = 2;

/// Where one capability waits for work.
#[derive(Drop)]
pub struct Berth {
    parker: Parker,
    does: AtomicU64,
}

impl Berth {
    fn new() -> Berth {
        Berth {
            parker: Parker::new(),
            does: AtomicU64::new(WORKS),
        }
    }

    /// It begins to watch. A wake that comes from now on isn't lost.
    pub(crate) fn watch(&self) {
        self.does.store(WATCHES, Ordering::SeqCst);
    }

    /// It goes on with its work.
    pub(crate) fn work(&self) {
        self.does.store(WORKS, Ordering::SeqCst);
    }

    /// Whether somebody woke it since it began to watch.
    pub(crate) fn is_woken(&self) -> bool {
        self.does.load(Ordering::SeqCst) == WORKS
    }

    /// Waits until somebody wakes it, at most so many microseconds.
    pub(crate) fn doze<R: Wait>(&self, rt: &R, micros: u64) {
        self.parker.park_timeout(rt, Duration::from_micros(micros));
    }

    /// From now on each visit that finds something wakes it. Whether nobody woke it before.
    pub(crate) fn announce(&self) -> bool {
        self.changes(WATCHES, PARKED)
    }

    /// Waits until somebody wakes it.
    pub(crate) fn park<R: Wait>(&self, rt: &R) {
        self.parker.park(rt);
    }

    // Wakes it, where this is what it does. Whether it was.
    fn wake(&self, from: u64) -> bool {
        if self.does.load(Ordering::SeqCst) != from || !self.changes(from, WORKS) {
            return false;
        }
        self.parker.unpark();
        true
    }

    fn changes(&self, from: u64, to: u64) -> bool {
        let does = &self.does;
        does.compare_exchange(from, to, Ordering::SeqCst, Ordering::SeqCst)
            .is_ok()
    }
}

/// What the capabilities tell each other beside their hands. Hints, of which no contract speaks.
#[derive(Drop)]
pub struct Parkers {
    /// A berth for each capability, by its number.
    pub berths: Vec<CachePadded<Berth>>,
    ended: AtomicBool,
}

/// The berths of so many capabilities.
pub fn parkers_for(alloc: Global, caps: u32) -> Result<Parkers, NoMemory>
    ensures { IfOk result (λ parkers. vec_len parkers.berths ≡ caps) }
{
    let mut berths = Vec::new(alloc);
    for _ in 0..caps {
        berths
            .push(CachePadded::new(Berth::new()))
            .map_err(AllocError::from)?;
    }
    Ok(Parkers {
        berths,
        ended: AtomicBool::new(false),
    })
}

impl Parkers {
    /// Tells all that there is an ending, and wakes them.
    pub(crate) fn end(&self) {
        self.ended.store(true, Ordering::SeqCst);
        // In this order, since one that watches may park between the two.
        self.wake_watching(u32::MAX);
        self.wake_parked();
    }

    /// Whether somebody told that there is an ending.
    pub(crate) fn has_ended(&self) -> bool {
        self.ended.load(Ordering::SeqCst)
    }

    /// Wakes all that are parked.
    pub(crate) fn wake_parked(&self) {
        for berth in &self.berths {
            berth.wake(PARKED);
        }
    }

    /// Wakes so many of those that watch.
    pub(crate) fn wake_watching(&self, most: u32) {
        let mut left = most;
        for berth in &self.berths {
            if left == 0 {
                return;
            }
            if berth.wake(WATCHES) {
                left -= 1;
            }
        }
    }
}
