ghost use Rattle.std.specs.Prelude.{◌≡◌, ◌<◌, ◌≤◌, ◌+◌, ◌^◌, ◌∷◌, ◌++◌, [], ◌↔◌, length, slice_get, OnOk, OnErr, IsNone, IsTrue};
ghost use Rattle.hs_rules.specs.Histories.{steps_of, cost_of};

use crate::entry::Entry;
use hs_base::NoMemory;
use std::alloc::Global;
use std::marker::Model;

/// The entries of a run in order. Contracts see the list of them, and beside it how many more fit without memory.
#[derive(Debug, Drop)]
pub struct History {
    entries: Vec<Entry>,
    /// Kept beside the list, so that it is read without a walk.
    steps: u64,
}

impl Model for History {
    ghost use Rattle.std.specs.Prelude.{◌≡◌, ◌-◌, vec_capacity, vec_len};
    ghost use Rattle.hs_rules.specs.Histories.{Recorded, recorded, steps_of, cost_of};

    ghost Value = { Recorded };

    ghost view = { λ h. recorded h.entries.items (vec_capacity h.entries - vec_len h.entries) };

    ghost invariant = { λ h. h.steps ≡ steps_of h.entries.items };
}

impl History {
    /// The history of a run that hasn't begun.
    pub fn new(alloc: Global) -> History
        ensures { result.list ≡ [] }
    {
        History {
            entries: Vec::new(alloc),
            steps: 0,
        }
    }

    /// Makes `spare` at least `n`. Where memory runs out nothing changes but that `spare` may have grown.
    pub fn room(&mut self, n: usize) -> Result<(), NoMemory>
        ensures list { self.new.list ≡ self.old.list }
        ensures kept { self.old.spare ≤ self.new.spare }
        ensures ok { OnOk result (n ≤ self.new.spare) }
    {
        self.entries.reserve(n)?;
        Ok(())
    }

    /// Adds an entry at the end, where room was made for it.
    #[tactic(auto, using(crate::proofs::Histories::steps_of_last))]
    pub fn add(&mut self, entry: Entry)
        requires spare { 1 ≤ self.old.spare }
        requires steps { steps_of self.old.list + cost_of entry < 2 ^ 64 }
        ensures list { self.new.list ≡ self.old.list ++ entry ∷ [] }
        ensures spare { self.old.spare ≡ self.new.spare + 1 }
    {
        self.steps += cost(entry);
        self.entries.push_reserved(entry);
    }

    /// Adds an entry at the end. More steps than a `u64` counts are want of memory too.
    pub fn push(&mut self, entry: Entry) -> Result<(), NoMemory>
        ensures ok { OnOk result (self.new.list ≡ self.old.list ++ entry ∷ []) }
        ensures err { OnErr result (self.new.list ≡ self.old.list) }
    {
        if self.steps.checked_add(cost(entry)).is_none() {
            return Err(NoMemory);
        }
        self.room(1)?;
        self.add(entry);
        Ok(())
    }

    /// How many entries there are.
    pub fn len(&self) -> usize
        ensures { result ≡ length self.now.list }
    {
        self.entries.len()
    }

    pub fn is_empty(&self) -> bool
        ensures { IsTrue result ↔ (self.now.list ≡ []) }
    {
        self.entries.is_empty()
    }

    /// The entry at place `i`, counted from 0.
    pub fn at(&self, i: usize) -> Option<Entry>
        ensures entry { result ≡ slice_get self.now.list i }
        ensures past { IsNone result ↔ (length self.now.list ≤ i) }
    {
        self.entries.get(i).copied()
    }

    /// The steps of all entries: `k` for a `Local`, 1 for each other.
    pub fn steps(&self) -> u64
        ensures { result ≡ steps_of self.now.list }
    {
        self.steps
    }
}

fn cost(entry: Entry) -> u64
    ensures { result ≡ cost_of entry }
{
    match entry {
        Entry::Local { k, .. } => u64::from(k),
        _ => 1,
    }
}
