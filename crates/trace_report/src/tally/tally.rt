//! The counts of all threads and of all cells.
ghost use Rattle.std.specs.Prelude.{◌≡◌, ◌+◌, ◌<◌, ◌≤◌, ℕ, List, [], length, OnOk, vec_items};
ghost use Rattle.hs_rules.specs.Histories.{cost_of};
ghost use Rattle.rules_expansion.specs.trees.Programs.{Fn};
ghost use Rattle.trace_report.specs.tally.Tallying.{thread_at, cell_at, thread_after, op_after, ThreadsWithin, CellsWithin, IsWithin, IsCounted, IsPut, Tallies};

use crate::tally::counts::{CellCounts, Seen, ThreadCounts};
use crate::tally::touch::Touch;
use hs_base::NoMemory;
use hs_rules::Entry;
use std::alloc::Global;

const NO_THREAD: ThreadCounts = ThreadCounts {
    local: 0,
    ops: 0,
    waits: 0,
    receives: 0,
};

const NO_CELL: CellCounts = CellCounts {
    out: 0,
    waits: 0,
    longest: 0,
};

/// Counts by number. Who has none yet has done nothing.
#[derive(Drop)]
pub struct Tally {
    /// All steps so far.
    pub steps: u32,
    pub threads: Vec<ThreadCounts>,
    pub cells: Vec<CellCounts>,
}

/// The counts of a thread.
pub(crate) fn thread_counts(list: &Vec<ThreadCounts>, t: usize) -> ThreadCounts
    ensures { result ≡ thread_at (vec_items list.now) t }
{
    match list.get(t) {
        Some(counts) => *counts,
        None => NO_THREAD,
    }
}

/// The counts of a cell.
pub(crate) fn cell_counts(list: &Vec<CellCounts>, m: usize) -> CellCounts
    ensures { result ≡ cell_at (vec_items list.now) m }
{
    match list.get(m) {
        Some(counts) => *counts,
        None => NO_CELL,
    }
}

/// Puts the counts of a thread in their place.
fn put_thread(list: &mut Vec<ThreadCounts>, t: u32, counts: ThreadCounts) -> Result<(), NoMemory>
    ensures ok { OnOk result (IsPut thread_at t counts (vec_items list.old) (vec_items list.new)) }
{
    let t = t as usize;
    while list.len() <= t {
        list.reserve(1)?;
        list.push_reserved(NO_THREAD);
    }
    list[t] = counts;
    Ok(())
}

/// Puts the counts of a cell in their place.
fn put_cell(list: &mut Vec<CellCounts>, m: u32, counts: CellCounts) -> Result<(), NoMemory>
    ensures ok { OnOk result (IsPut cell_at m counts (vec_items list.old) (vec_items list.new)) }
{
    let m = m as usize;
    while list.len() <= m {
        list.reserve(1)?;
        list.push_reserved(NO_CELL);
    }
    list[m] = counts;
    Ok(())
}

/// Counts the entry of a thread, by whether the thread is blocked now.
fn count_thread(
    list: &mut Vec<ThreadCounts>,
    steps: u32,
    entry: Entry,
    blocked: bool,
) -> Result<(), NoMemory>
    requires within { ThreadsWithin steps (vec_items list.old) }
    requires few { steps + cost_of entry ≤ 4000000 }
    ensures ok { OnOk result ((t : ℕ) → thread_at (vec_items list.new) t ≡ thread_after entry blocked t (thread_at (vec_items list.old) t)) }
{
    let _steps = steps;
    match entry {
        Entry::Local { t, k } => {
            let mut counts = thread_counts(list, t as usize);
            counts.local += k;
            put_thread(list, t, counts)
        }
        Entry::Op { t } => {
            let mut counts = thread_counts(list, t as usize);
            counts.ops += 1;
            counts.waits += blocked as u32;
            put_thread(list, t, counts)
        }
        Entry::Receive { t } => {
            let mut counts = thread_counts(list, t as usize);
            counts.receives += 1;
            put_thread(list, t, counts)
        }
        _ => Ok(()),
    }
}

/// Counts an operation at the cell that it touches.
fn count_cell(list: &mut Vec<CellCounts>, steps: u32, seen: Seen) -> Result<(), NoMemory>
    requires within { CellsWithin steps (vec_items list.old) }
    requires few { steps + 1 ≤ 4000000 }
    ensures ok { OnOk result ((m : ℕ) → cell_at (vec_items list.new) m ≡ op_after seen m (cell_at (vec_items list.old) m)) }
{
    let _steps = steps;
    let Some(m) = seen.touch.cell() else {
        return Ok(());
    };
    let counts = cell_counts(list, m as usize);
    let served = seen.touch.serves(seen.was_full, seen.is_full);
    let waits = seen.touch.waits(seen.was_full);
    put_cell(
        list,
        m,
        CellCounts {
            out: counts.out + served as u32,
            waits: counts.waits + waits as u32,
            longest: counts.longest.max(seen.line),
        },
    )
}

/// The steps of an entry.
fn cost(entry: Entry) -> u32
    ensures { result ≡ cost_of entry }
{
    match entry {
        Entry::Local { t: _, k } => k,
        _ => 1,
    }
}

impl Tally {
    /// Before the first entry.
    pub fn new(alloc: Global) -> Tally
        ensures first { (ds : List Fn) → Tallies ds [] result }
        ensures within { IsWithin result }
    {
        Tally {
            steps: 0,
            threads: Vec::new(alloc),
            cells: Vec::new(alloc),
        }
    }

    /// Counts an entry, of which this is seen if it is an operation.
    pub fn count(&mut self, entry: Entry, seen: Seen) -> Result<(), NoMemory>
        requires within { IsWithin self.old }
        requires few { self.old.steps + cost_of entry ≤ 4000000 }
        ensures counted { OnOk result (IsCounted entry seen self.old self.new) }
        ensures within { OnOk result (IsWithin self.new) }
    {
        count_thread(&mut self.threads, self.steps, entry, seen.blocked)?;
        if let Entry::Op { t: _ } = entry {
            count_cell(&mut self.cells, self.steps, seen)?;
        }
        self.steps += cost(entry);
        Ok(())
    }
}
