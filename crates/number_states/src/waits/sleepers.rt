ghost use Rattle.std.specs.Prelude.{◌≡◌, ◌≤◌, ◌++◌, ◌∷◌, length, take, drop, IfOk, OnOk};
ghost use Rattle.rules_waiting.specs.Waiting.{sleeper_before, sleeper_added, still_asleep, sorted_sleepers, earliest};
ghost use Rattle.exn_flight.specs.Asleep as asleep;
ghost use Rattle.number_states.specs.waits.Sleeping.{sleeper_of, sleepers};
ghost use Rattle.number_states.specs.waits.Sleeping as sleeping;

use hs_base::NoMemory;
use std::alloc::Global;

/// A sleeper, and the time from which it may wake.
#[derive(Clone, Copy, Debug, PartialEq, Eq)]
pub struct Asleep {
    pub thread: u32,
    pub due: u64,
}

/// Whether one sleeper wakes before another: by due, and of one due by thread.
fn is_before(one: Asleep, other: Asleep) -> bool
    ensures { result ≡ sleeper_before (sleeper_of one) (sleeper_of other) }
{
    one.due < other.due || one.due == other.due && one.thread < other.thread
}

/// The place that a sleeper gets in a list: how many of its first are before it.
fn place_of(list: &[Asleep], sleeper: Asleep) -> usize
    ensures within { result ≤ length list.now }
    ensures place { sleeper_added (sleeper_of sleeper) (sleepers list.now) ≡ sleepers (take result list.now ++ sleeper ∷ drop result list.now) }
{
    for (place, other) in list.iter().enumerate() {
        if !is_before(*other, sleeper) {
            return place;
        }
    }
    list.len()
}

/// The thread sleeps from now on: its place is behind all that wake before it. Where memory runs out nothing is said of the
/// list.
pub fn add(list: &mut Vec<Asleep>, sleeper: Asleep) -> Result<(), NoMemory>
    ensures { OnOk result (sleepers list.new.items ≡ sleeper_added (sleeper_of sleeper) (sleepers list.old.items)) }
{
    let place = place_of(list.as_slice(), sleeper);
    list.reserve(1)?;
    match list.insert(place, sleeper) {
        Ok(()) => Ok(()),
        Err(_) => Err(NoMemory),
    }
}

/// The thread sleeps no more.
pub fn remove(list: &mut Vec<Asleep>, thread: u32)
    ensures { sleepers list.new.items ≡ still_asleep thread (sleepers list.old.items) }
{
    list.retain(|sleeper| sleeper.thread != thread);
}

/// When the thread may wake.
pub fn due_of(list: &[Asleep], thread: u32) -> Option<u64>
    ensures { result ≡ asleep.due_of thread (sleepers list.now) }
{
    for sleeper in list {
        if sleeper.thread == thread {
            return Some(sleeper.due);
        }
    }
    None
}

/// All may wake at 0.
fn wake_all(list: &mut [Asleep])
    ensures { sleepers list.new ≡ sleeping.undue (sleepers list.old) }
{
    for sleeper in list.iter_mut() {
        sleeper.due = 0;
    }
}

/// All may wake at 0, and are in order.
pub fn undue(list: &mut Vec<Asleep>)
    ensures { sleepers list.new.items ≡ sorted_sleepers (sleeping.undue (sleepers list.old.items)) }
{
    wake_all(list.as_mut_slice());
    list.sort_unstable_by_key(|sleeper| sleeper.thread);
}

/// When the first of the list may wake.
pub fn first_due(list: &[Asleep]) -> Option<u64>
    ensures { result ≡ earliest (sleepers list.now) }
{
    match list.first() {
        Some(sleeper) => Some(sleeper.due),
        None => None,
    }
}

/// An equal list.
pub fn copy_sleepers(alloc: Global, list: &[Asleep]) -> Result<Vec<Asleep>, NoMemory>
    ensures { IfOk result (λ copy. copy.items ≡ list.now) }
{
    let copy = Vec::from_slice(alloc, list)?;
    Ok(copy)
}
