ghost use Rattle.std.specs.Prelude.{◌≡◌, ◌+◌, ◌<◌, ◌≤◌, [], ◌∷◌, ◌++◌, false, length, slice_index_or, Some, MatchOption, OnOk};
ghost use Rattle.rules_waiting.specs.Waiting.{Flying, flying_to, withdrawn, is_throwing, thrown_by, first_thrown};
ghost use Rattle.exn_flight.specs.Flights.{shown, after_delivery};

use crate::table::place_of;
use crate::throws::Throws;
use hs_base::{Exn, NoMemory};
use std::alloc::Global;
use std::marker::Model;

/// Exceptions in flight, in order of throwing.
pub struct Flight {
    throws: Throws,
}

// Written out, so that it is proved once, here, and not in each function above that lets one go.
impl Drop for Flight {
    fn drop(self) {
        let Flight { throws: _ } = self;
    }
}

impl Model for Flight {
    ghost use Rattle.exn_flight.specs.Flights.{InFlight, in_flight};
    ghost use Rattle.exn_flight.specs.Throwing.{flying, spare_of, IsSound};

    ghost Value = { InFlight };

    ghost view = { λ a. in_flight (flying a.throws.list.items) (spare_of a.throws) };

    ghost invariant = { λ a. IsSound a.throws };
}

impl Flight {
    pub fn new(alloc: Global) -> Flight
        ensures { result.list ≡ [] }
    {
        Flight {
            throws: Throws::new(alloc),
        }
    }

    /// Makes `spare` at least `n`.
    pub fn room(&mut self, n: u32) -> Result<(), NoMemory>
        ensures list { self.new.list ≡ self.old.list }
        ensures kept { self.old.spare ≤ self.new.spare }
        ensures ok { OnOk result (n ≤ self.new.spare) }
    {
        if self.throws.spare() < n as usize {
            self.throws.grow(n)?;
        }
        Ok(())
    }

    /// So many exceptions are in flight at most. It takes no memory and no walk, so that room for what a delivery or an end may
    /// wake can be made before.
    #[tactic(auto, using(crate::proofs::Flying::few_fly))]
    pub fn most(&self) -> usize
        ensures { length self.now.list ≤ result }
    {
        self.throws.list.len()
    }

    /// The exception is in flight from now on.
    pub fn throw_at(&mut self, thrower: u32, target: u32, e: Exn)
        requires spare { 1 ≤ self.old.spare }
        requires alone { is_throwing thrower self.old.list ≡ false }
        ensures list { self.new.list ≡ self.old.list ++ record { thrower = thrower; target = target; exn = e } ∷ [] }
        ensures spare { self.old.spare ≤ self.new.spare + 1 }
    {
        self.throws.add(thrower, target, e);
    }

    /// The exception that was thrown first at the target, and its thrower.
    pub fn first_for(&self, target: u32) -> Option<(u32, &Exn)>
        ensures { shown result ≡ first_thrown (flying_to target self.now.list) }
    {
        let first = place_of(&self.throws.firsts, target)?;
        let throw = &self.throws.list[first];
        match &throw.exn {
            Some(exn) => Some((throw.thrower, exn)),
            None => unreachable!(),
        }
    }

    /// Takes out what `first_for` lends.
    pub fn deliver(&mut self, target: u32) -> Option<(u32, Exn)>
        ensures answer { result ≡ first_thrown (flying_to target self.old.list) }
        ensures list { self.new.list ≡ after_delivery (first_thrown (flying_to target self.old.list)) self.old.list }
        ensures spare { self.old.spare ≤ self.new.spare }
    {
        let first = place_of(&self.throws.firsts, target)?;
        Some(self.throws.leave(first))
    }

    /// Takes out the thrower's exception.
    pub fn withdraw(&mut self, thrower: u32) -> Option<Exn>
        ensures answer { result ≡ thrown_by thrower self.old.list }
        ensures list { self.new.list ≡ withdrawn thrower self.old.list }
        ensures spare { self.old.spare ≤ self.new.spare }
    {
        let place = place_of(&self.throws.throwers, thrower)?;
        let (_, e) = self.throws.leave(place);
        Some(e)
    }
}
