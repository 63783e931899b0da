ghost use Rattle.std.specs.Prelude.{◌≡◌, ◌+◌, ◌^◌, ◌<◌, ◌≤◌, [], false, length, IfOk, OnOk};
ghost use Rattle.rules_waiting.specs.Waiting.{sleeper_added, still_asleep, is_sleeping, first_awake, earliest};
ghost use Rattle.std.specs.Option.{option_copied};
ghost use Rattle.exn_flight.specs.Asleep.{AreInOrder, due_of, with_sleeper};

use crate::sleeping::Sleeping;
use crate::table::{THREADS, Table, clear, place_of, put};
use crate::tournament::Tournament;
use hs_base::NoMemory;
use std::alloc::{AllocError, Global};
use std::collections::HashMap;
use std::marker::Model;

/// Sleeping threads, by due and of one due by thread.
pub struct Sleepers {
    /// The sleepers in order of adding. A place that is left stays so until `room` is made.
    tournament: Tournament,
    /// So many places, the last, were never taken.
    free: usize,
    places: Table,
}

// Written out, so that it is proved once, here, and not in each function above that lets one go.
impl Drop for Sleepers {
    fn drop(self) {
        let Sleepers {
            tournament: _,
            free: _,
            places: _,
        } = self;
    }
}

impl Model for Sleepers {
    ghost use Rattle.std.specs.Prelude.{min, nat_eq};
    ghost use Rattle.std.specs.HashMap.{get, spare};
    ghost use Rattle.rules_waiting.specs.Waiting.{sorted_sleepers};
    ghost use Rattle.exn_flight.specs.Asleep.{Asleep, asleep, sleepers_at, ArePlaced};

    ghost Value = { Asleep };

    ghost view = { λ a. asleep (sorted_sleepers (sleepers_at a.tournament)) (min a.free (spare a.places)) };

    ghost invariant = { λ a. ArePlaced a.tournament a.free (get nat_eq a.places) };
}

/// 1 where there is one.
fn count(sleeper: Option<&Sleeping>) -> usize
    ensures { result ≡ length (with_sleeper (option_copied sleeper.entry) []) }
{
    match sleeper {
        Some(_) => 1,
        None => 0,
    }
}

impl Sleepers {
    pub fn new(alloc: Global) -> Sleepers
        ensures { result.list ≡ [] }
    {
        Sleepers {
            tournament: Tournament::new(alloc),
            free: 0,
            places: HashMap::new(alloc),
        }
    }

    fn with_room(alloc: Global, n: usize) -> Result<Sleepers, AllocError>
        requires { n + n < 2 ^ 64 }
        ensures list { IfOk result (λ a. a.list ≡ []) }
        ensures spare { IfOk result (λ a. n ≤ a.spare) }
    {
        let tournament = Tournament::with_places(alloc, n)?;
        let places = HashMap::with_capacity(alloc, n)?;
        Ok(Sleepers {
            tournament,
            free: n,
            places,
        })
    }

    fn spare(&self) -> usize
        ensures { result ≡ self.now.spare }
    {
        let places = self.places.capacity() - self.places.len();
        self.free.min(places)
    }

    /// How many threads sleep.
    fn len(&self) -> usize
        ensures len { result ≡ length self.now.list }
        ensures small { result < 2 ^ 62 }
    {
        let mut asleep = 0;
        for place in 0..self.tournament.len() {
            asleep += count(self.tournament.at(place));
        }
        asleep
    }

    /// The same sleepers where `n` more fit, with so much room that moves are few.
    fn roomier(&self, n: usize) -> Result<Sleepers, AllocError>
        requires { n < 2 ^ 32 }
        ensures list { IfOk result (λ a. a.list ≡ self.now.list) }
        ensures ok { IfOk result (λ a. n ≤ a.spare) }
    {
        let len = self.len();
        let more = len.clamp(8, THREADS) + 2 * n;
        let mut roomier = Sleepers::with_room(self.tournament.allocator(), len + more)?;
        for place in 0..self.tournament.len() {
            if let Some(sleeper) = self.tournament.at(place) {
                roomier.add(sleeper.thread(), sleeper.due());
            }
        }
        Ok(roomier)
    }

    /// Makes `spare` at least `n`.
    pub fn room(&mut self, n: u32) -> Result<(), NoMemory>
        ensures list { self.new.list ≡ self.old.list }
        ensures kept { self.old.spare ≤ self.new.spare }
        ensures ok { OnOk result (n ≤ self.new.spare) }
    {
        let n = n as usize;
        if self.spare() < n {
            *self = self.roomier(n)?;
        }
        Ok(())
    }

    /// The thread sleeps until the clock is at `due`, in microseconds.
    pub fn add(&mut self, t: u32, due: u64)
        requires spare { 1 ≤ self.old.spare }
        requires awake { is_sleeping t self.old.list ≡ false }
        ensures list { self.new.list ≡ sleeper_added (record { thread = t; due = due }) self.old.list }
        ensures order { AreInOrder self.new.list }
        ensures spare { self.old.spare ≤ self.new.spare + 1 }
    {
        let places = self.tournament.len();
        let place = places - self.free;
        let sleeper = Sleeping::new(t, due);
        self.tournament.set(place, Some(sleeper));
        self.free -= 1;
        put(&mut self.places, t, place);
    }

    /// The thread sleeps no more; false where it didn't sleep.
    pub fn remove(&mut self, t: u32) -> bool
        ensures answer { result ≡ is_sleeping t self.old.list }
        ensures list { self.new.list ≡ still_asleep t self.old.list }
        ensures order { AreInOrder self.new.list }
        ensures spare { self.old.spare ≤ self.new.spare }
    {
        let Some(place) = place_of(&self.places, t) else {
            return false;
        };
        self.tournament.set(place, None);
        clear(&mut self.places, t);
        true
    }

    /// The first sleeper whose due is at most `now`.
    pub fn due(&self, now: u64) -> Option<u32>
        ensures { result ≡ first_awake now self.now.list }
    {
        let first = self.tournament.first()?;
        if first.due() <= now {
            Some(first.thread())
        } else {
            None
        }
    }

    /// When the thread may wake, where it sleeps.
    pub fn due_of(&self, t: u32) -> Option<u64>
        ensures { result ≡ due_of t self.now.list }
    {
        let place = place_of(&self.places, t)?;
        let sleeper = self.tournament.at(place)?;
        Some(sleeper.due())
    }

    /// When the first sleeper may wake.
    pub fn first_due(&self) -> Option<u64>
        ensures { result ≡ earliest self.now.list }
    {
        let first = self.tournament.first()?;
        Some(first.due())
    }
}
