ghost use Rattle.std.specs.Prelude.{◌≡◌, ◌+◌, ◌<◌, ◌≤◌, [], ◌∷◌, ◌++◌, false, Some, None, length, slice_set, nat_eq, IfOk, OnOk, OnErr, MatchOption};
ghost use Rattle.std.specs.HashMap.{get, spare};
ghost use Rattle.rules_waiting.specs.Waiting.{withdrawn, is_throwing, thrown_by};
ghost use Rattle.exn_flight.specs.Flights.{AreThrowers};
ghost use Rattle.exn_flight.specs.Throwing.{throw_at, followed, flying, spare_of, IsSound, IsEmpty, IsLive, AreLinked, AreFirsts, AreFirstsBut, NoneBehind, IsNextLive};

use crate::table::{THREADS, Table, clear, place_of, put, put_first, replace};
use hs_base::Exn;
use std::alloc::{AllocError, Global};
use std::collections::HashMap;
use std::mem;

/// A throw, and the place of the next one at its target, or 0. The exception is gone once it is delivered or withdrawn.
#[derive(Drop)]
pub struct Throw {
    pub thrower: u32,
    pub target: u32,
    pub exn: Option<Exn>,
    pub next: usize,
}

/// Throws in order. A throw that is over keeps its place until `grow` drops it.
#[derive(Drop)]
pub struct Throws {
    pub list: Vec<Throw>,
    /// Where a thrower's exception in flight is.
    pub throwers: Table,
    /// The first exception in flight at a target.
    pub firsts: Table,
    /// The last throw at a target, over or not.
    pub lasts: Table,
}

/// The last throw at a target, where there is one, is followed by the one at this place.
fn follow(list: &mut Vec<Throw>, last: Option<usize>, place: usize)
    requires { MatchOption last (Unit {0}) (λ i. i < length list.old.items) }
    ensures list { list.new.items ≡ followed list.old.items last place }
    ensures capacity { list.new.cap ≡ list.old.cap }
{
    if let Some(last) = last {
        list[last].next = place;
    }
}

fn take_exn(list: &mut Vec<Throw>, place: usize) -> Option<Exn>
    requires { place < length list.old.items }
    ensures exn { result ≡ (throw_at list.old.items place).exn }
    ensures list { list.new.items ≡ slice_set list.old.items place (record (throw_at list.old.items place) { exn = None }) }
{
    mem::replace(&mut list[place].exn, None)
}

/// 1 where the exception is in flight.
fn count(throw: &Throw) -> usize
    ensures { result ≡ length (flying (throw.now ∷ [])) }
{
    match throw.exn {
        Some(_) => 1,
        None => 0,
    }
}

/// The first exception in flight behind this place at the same target.
fn next_live(list: &Vec<Throw>, place: usize) -> Option<usize>
    requires linked { AreLinked list.now.items }
    requires within { place < length list.now.items }
    ensures { MatchOption result (NoneBehind list.now.items place) (IsNextLive list.now.items place) }
{
    let mut at = list[place].next;
    while at != 0 {
        if list[at].exn.is_some() {
            return Some(at);
        }
        at = list[at].next;
    }
    None
}

/// Where this throw, which is over, was the first at its target, the next one is.
fn advance(list: &Vec<Throw>, firsts: &mut Table, place: usize)
    requires linked { AreLinked list.now.items }
    requires within { place < length list.now.items }
    requires gone { (throw_at list.now.items place).exn ≡ None }
    requires firsts { AreFirstsBut place list.now.items (get nat_eq firsts.old) }
    ensures firsts { AreFirsts list.now.items (get nat_eq firsts.new) }
    ensures spare { spare firsts.old ≤ spare firsts.new }
{
    let target = list[place].target;
    if place_of(firsts, target) != Some(place) {
        return;
    }
    match next_live(list, place) {
        Some(first) => replace(firsts, target, first),
        None => clear(firsts, target),
    }
}

impl Throws {
    pub fn new(alloc: Global) -> Throws
        ensures { IsEmpty result }
    {
        Throws {
            list: Vec::new(alloc),
            throwers: HashMap::new(alloc),
            firsts: HashMap::new(alloc),
            lasts: HashMap::new(alloc),
        }
    }

    pub fn with_room(alloc: Global, n: usize) -> Result<Throws, AllocError>
        ensures empty { IfOk result IsEmpty }
        ensures spare { IfOk result (λ a. n ≤ spare_of a) }
    {
        Ok(Throws {
            list: Vec::with_capacity(alloc, n)?,
            throwers: HashMap::with_capacity(alloc, n)?,
            firsts: HashMap::with_capacity(alloc, n)?,
            lasts: HashMap::with_capacity(alloc, n)?,
        })
    }

    /// How many more throws fit.
    pub fn spare(&self) -> usize
        ensures { result ≡ spare_of self.now }
    {
        let list = self.list.capacity() - self.list.len();
        let throwers = self.throwers.capacity() - self.throwers.len();
        let firsts = self.firsts.capacity() - self.firsts.len();
        let lasts = self.lasts.capacity() - self.lasts.len();
        list.min(throwers.min(firsts.min(lasts)))
    }

    pub fn add(&mut self, thrower: u32, target: u32, exn: Exn)
        requires sound { IsSound self.old }
        requires spare { 1 ≤ spare_of self.old }
        requires alone { is_throwing thrower (flying self.old.list.items) ≡ false }
        ensures sound { IsSound self.new }
        ensures list { flying self.new.list.items ≡ flying self.old.list.items ++ record { thrower = thrower; target = target; exn = exn } ∷ [] }
        ensures spare { spare_of self.old ≤ spare_of self.new + 1 }
    {
        let place = self.list.len();
        follow(&mut self.list, place_of(&self.lasts, target), place);
        put(&mut self.lasts, target, place);
        put_first(&mut self.firsts, target, place);
        put(&mut self.throwers, thrower, place);
        self.list.push_reserved(Throw {
            thrower,
            target,
            exn: Some(exn),
            next: 0,
        });
    }

    /// Takes out the exception in flight at this place, with its thrower.
    pub fn leave(&mut self, place: usize) -> (u32, Exn)
        requires sound { IsSound self.old }
        requires live { IsLive self.old.list.items place }
        ensures sound { IsSound self.new }
        ensures thrower { result.0 ≡ (throw_at self.old.list.items place).thrower }
        ensures answer { Some result.1 ≡ (throw_at self.old.list.items place).exn }
        ensures list { flying self.new.list.items ≡ withdrawn result.0 (flying self.old.list.items) }
        ensures spare { spare_of self.old ≤ spare_of self.new }
    {
        let thrower = self.list[place].thrower;
        let Some(exn) = mem::replace(&mut self.list[place].exn, None) else {
            unreachable!()
        };
        clear(&mut self.throwers, thrower);
        advance(&self.list, &mut self.firsts, place);
        (thrower, exn)
    }

    /// How many exceptions are in flight.
    fn live(&self) -> usize
        ensures { result ≡ length (flying self.now.list.items) }
    {
        let mut live = 0;
        for place in 0..self.list.len() {
            live += count(&self.list[place]);
        }
        live
    }

    /// Moves what is in flight to where `n` more fit, with so much room that moves are few. Throws that are over are dropped.
    pub fn grow(&mut self, n: u32) -> Result<(), AllocError>
        requires sound { IsSound self.old }
        ensures sound { IsSound self.new }
        ensures list { flying self.new.list.items ≡ flying self.old.list.items }
        ensures ok { OnOk result (n ≤ spare_of self.new) }
        ensures err { OnErr result (spare_of self.new ≡ spare_of self.old) }
    {
        let live = self.live();
        let more = live.clamp(8, THREADS) + 2 * (n as usize);
        let alloc = *self.list.allocator();
        let next = Throws::with_room(alloc, live + more)?;
        let old = mem::replace(self, next);
        self.refill(old.list);
        Ok(())
    }

    /// Takes over the exceptions in flight of another list.
    fn refill(&mut self, mut list: Vec<Throw>)
        requires empty { IsEmpty self.old }
        requires spare { length (flying list.items) ≤ spare_of self.old }
        requires alone { AreThrowers (flying list.items) }
        ensures sound { IsSound self.new }
        ensures list { flying self.new.list.items ≡ flying list.items }
        ensures spare { spare_of self.old ≤ spare_of self.new + length (flying list.items) }
    {
        for place in 0..list.len() {
            let throw = &list[place];
            let thrower = throw.thrower;
            let target = throw.target;
            if let Some(exn) = take_exn(&mut list, place) {
                self.add(thrower, target, exn);
            }
        }
    }
}
