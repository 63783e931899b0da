ghost use Rattle.std.specs.Prelude.{◌≡◌, ◌⊎◌, ◌≤◌, [], OnOk, MatchOption, length, slice_get};
ghost use Rattle.std.specs.Option.{option_copied};
ghost use Rattle.conc_outcomes.specs.declared.order.ended.Ended.{Ended as AnEnded};
ghost use Rattle.conc_outcomes.specs.order.Rising.{IsRising, Holds, Has, IsPlaceOf, outcome_by};

use crate::order::ended::{Ended, compare};
use hs_base::NoMemory;
use std::alloc::Global;
use std::cmp::Ordering;
use std::marker::Model;

/// Ends of runs in the order of outcomes, no two of one outcome.
#[derive(Debug)]
pub struct Endings {
    list: Vec<Ended>,
}

// Written out, so that it is proved once, here, and not in each function above that lets one go.
impl Drop for Endings {
    fn drop(self) {
        let Endings { list: _ } = self;
    }
}

impl Model for Endings {
    ghost use Rattle.std.specs.Prelude.{List};
    ghost use Rattle.std.specs.Coded.{coded_list};
    ghost use Rattle.conc_outcomes.specs.declared.order.ended.Ended.{Ended};
    ghost use Rattle.conc_outcomes.specs.contracts.order.ended.Ended as e;
    ghost use Rattle.conc_outcomes.specs.order.Rising.{IsRising};

    ghost Value = { List Ended };

    ghost coded = { coded_list e.the_row.coded };

    ghost view = { λ e. e.list.items };

    ghost invariant = { λ e. IsRising e.list.items };
}

/// Where an ending would come. None where one of its outcome is there.
fn find(list: &[Ended], ended: &Ended) -> Option<usize>
    requires { IsRising list.now }
    ensures { MatchOption result (Has list.now (outcome_by ended.now)) (λ place. (place ≤ length list.now) × IsPlaceOf list.now place ended.now) }
{
    let mut low = 0;
    let mut high = list.len();
    while low < high {
        let middle = low + (high - low) / 2;
        match compare(&list[middle], ended) {
            Ordering::Less => low = middle + 1,
            Ordering::Equal => return None,
            Ordering::Greater => high = middle,
        }
    }
    Some(low)
}

/// Puts an ending in its place.
fn put(list: &mut Vec<Ended>, place: usize, ended: Ended) -> Result<(), NoMemory>
    requires within { place ≤ length list.old.items }
    requires rising { IsRising list.old.items }
    requires place { IsPlaceOf list.old.items place ended }
    ensures rising { IsRising list.new.items }
    ensures has { OnOk result (Holds list.new.items ended) }
    ensures keeps { (e : AnEnded) → Holds list.old.items e → Holds list.new.items e }
    ensures only { (e : AnEnded) → Holds list.new.items e → Holds list.old.items e ⊎ (e ≡ ended) }
{
    match list.insert(place, ended) {
        Ok(()) => Ok(()),
        Err(_) => Err(NoMemory),
    }
}

impl Endings {
    /// None.
    pub fn new(alloc: Global) -> Endings
        ensures { result ≡ [] }
    {
        Endings {
            list: Vec::new(alloc),
        }
    }

    /// Adds an ending, unless one of its outcome is there.
    pub fn add(&mut self, ended: Ended) -> Result<(), NoMemory>
        ensures has { OnOk result (Has self.new (outcome_by ended)) }
        ensures keeps { (e : AnEnded) → Holds self.old e → Holds self.new e }
        ensures only { (e : AnEnded) → Holds self.new e → Holds self.old e ⊎ (e ≡ ended) }
    {
        match find(self.list.as_slice(), &ended) {
            None => Ok(()),
            Some(place) => put(&mut self.list, place, ended),
        }
    }

    /// They rise strictly.
    pub fn are_rising(&self)
        ensures { IsRising self.now }
    {
        let _ = &self.list;
    }

    /// How many there are.
    pub fn len(&self) -> usize
        ensures { result ≡ length self.now }
    {
        self.list.len()
    }

    /// The ending at a place, counted from 0.
    pub fn get(&self, place: usize) -> Option<&Ended>
        ensures { option_copied result ≡ slice_get self.now place }
    {
        self.list.get(place)
    }
}
