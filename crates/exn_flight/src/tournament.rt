ghost use Rattle.std.specs.Prelude.{◌≡◌, ◌≢◌, ◌+◌, ◌^◌, ◌<◌, ◌≤◌, ℕ, None, length, drop, slice_index_or, slice_set, IfOk};
ghost use Rattle.std.specs.Option.{option_copied};
ghost use Rattle.exn_flight.specs.Tournaments.{goes_first, first_of, best, AreWon, AreWonBut, IsVacant};

use crate::sleeping::Sleeping;
use std::alloc::{AllocError, Global};
use std::marker::Model;

/// Sleepers by place, and which of them is first: a node stands over two others, and has the first of theirs.
#[derive(Drop)]
pub struct Tournament {
    /// Node 1 stands over all, and node i over nodes 2i and 2i + 1. The last half are the places.
    nodes: Vec<Option<Sleeping>>,
    places: usize,
}

impl Model for Tournament {
    ghost use Rattle.std.specs.Prelude.{List, Option, drop};
    ghost use Rattle.rules_waiting.specs.Waiting.{Sleeper};
    ghost use Rattle.exn_flight.specs.Tournaments.{IsTournament};

    ghost Value = { List (Option Sleeper) };

    ghost view = { λ a. drop a.places a.nodes.items };

    ghost invariant = { λ a. IsTournament a.places a.nodes.items };
}

/// Whether a node's sleeper is there and before the other's.
fn is_first(a: &Option<Sleeping>, b: &Option<Sleeping>) -> bool
    ensures { result ≡ goes_first a.now b.now }
{
    match a {
        None => false,
        Some(a) => match b {
            None => true,
            Some(b) => a.is_before(b),
        },
    }
}

fn copied(sleeper: &Option<Sleeping>) -> Option<Sleeping>
    ensures { result ≡ sleeper.now }
{
    match sleeper {
        None => None,
        Some(sleeper) => Some(sleeper.copied()),
    }
}

fn winner(a: &Option<Sleeping>, b: &Option<Sleeping>) -> Option<Sleeping>
    ensures { result ≡ first_of a.now b.now }
{
    if is_first(a, b) { copied(a) } else { copied(b) }
}

/// Puts the first of two in each node that stands over this one.
fn climb(nodes: &mut Vec<Option<Sleeping>>, places: usize, from: usize)
    requires size { length nodes.old.items ≡ places + places }
    requires within { from < places + places }
    requires won { AreWonBut from places nodes.old.items }
    ensures size { length nodes.new.items ≡ places + places }
    ensures won { AreWon places nodes.new.items }
    ensures leaves { drop places nodes.new.items ≡ drop places nodes.old.items }
{
    let mut at = from;
    while at > 1 {
        at /= 2;
        nodes[at] = winner(&nodes[2 * at], &nodes[2 * at + 1]);
    }
}

impl Tournament {
    pub fn new(alloc: Global) -> Tournament
        ensures { length result ≡ 0 }
    {
        Tournament {
            nodes: Vec::new(alloc),
            places: 0,
        }
    }

    /// So many places, with nobody there.
    pub fn with_places(alloc: Global, n: usize) -> Result<Tournament, AllocError>
        requires { n + n < 2 ^ 64 }
        ensures places { IfOk result (λ a. length a ≡ n) }
        ensures vacant { IfOk result IsVacant }
    {
        let mut nodes = Vec::with_capacity(alloc, 2 * n)?;
        for _node in 0..2 * n {
            nodes.push_reserved(None);
        }
        Ok(Tournament { nodes, places: n })
    }

    pub fn allocator(&self) -> Global {
        *self.nodes.allocator()
    }

    /// How many places there are.
    pub fn len(&self) -> usize
        ensures len { result ≡ length self.now }
        ensures small { result < 2 ^ 62 }
    {
        // The nodes' number fits, and there are twice as many.
        let _ = self.nodes.len();
        self.places
    }

    /// Who is at this place.
    pub fn at(&self, place: usize) -> Option<&Sleeping>
        requires { place < length self.now }
        ensures { option_copied result ≡ slice_index_or self.now place None }
    {
        self.nodes[self.places + place].as_ref()
    }

    pub fn set(&mut self, place: usize, sleeper: Option<Sleeping>)
        requires { place < length self.old }
        ensures { self.new ≡ slice_set self.old place sleeper }
    {
        let at = self.places + place;
        self.nodes[at] = sleeper;
        climb(&mut self.nodes, self.places, at);
    }

    /// Who is before all others.
    pub fn first(&self) -> Option<&Sleeping>
        ensures { option_copied result ≡ best self.now }
    {
        if self.places == 0 {
            return None;
        }
        self.nodes[1].as_ref()
    }
}
