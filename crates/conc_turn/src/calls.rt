//! The calls on the turn.
ghost use Rattle.std.specs.Prelude.{◌≡◌, ◌+◌, ◌<◌, ◌≤◌, IfOk, IfErr};
ghost use mathlib.Core.List.{IsPrefix};
ghost use Rattle.conc_turn.specs.TurnRule.{longer};
ghost use Rattle.conc_turn.specs.Seats.{seen_by, shares_of, lost_by};
ghost use Rattle.conc_turn.specs.Turns.{turn_plan, IsGot, IsLost, IsSeatOf, MatchTried, IsHeldOf, value_in, held_shares, held_lost};

use crate::rule::{AddShares, Amount, Compare, SplitShares, TryTake};
use crate::seat::Seat;
use crate::turn::{Held, Tried, Turn};
use atomic_table::{Refused, Table};
use hs_rules::Kept;
use std::alloc::{AllocFailed, Global};
use std::marker::Brand;
use std::snapshot::Snapshot;
use std::sync::Wait;
use std::sync::atomic::{AtomicU64, Ordering};

impl<D: Kept> Turn<D> {
    /// The turn, and a seat that has all its shares. At `Err` there was no memory.
    pub fn new(alloc: Global, kept: D) -> Result<(Turn<D>, Seat), D>
        ensures plan { IfOk result (λ t. turn_plan D.plan t.0 ≡ D.plan kept) }
        ensures seat { IfOk result (λ t. IsSeatOf D.plan t.0 t.1 × (shares_of t.1 ≡ 16) × (lost_by t.1 ≡ 0)) }
        ensures seen { IfOk result (λ t. seen_by t.1 ≡ D.history kept) }
        ensures err { IfErr result (λ d. d ≡ kept) }
    {
        let first = Snapshot::of(&kept);
        let mut slots = Vec::new(alloc);
        if let Err(failed) = slots.push(Some(kept)) {
            let AllocFailed { value } = failed;
            slots.destroy_empty();
            return Err(value.unwrap());
        }
        match Table::new(alloc, &[0], slots, &first) {
            Ok((table, seat)) => Ok((
                Turn {
                    table,
                    waiting: AtomicU64::new(0),
                },
                Seat {
                    badge: seat.into_badge(),
                },
            )),
            Err(Refused { mut slots }) => {
                let kept = slots.pop().unwrap().unwrap();
                slots.destroy_empty();
                Err(kept)
            }
        }
    }

    /// Tries to take the turn, by one step. Takes no memory and doesn't wait.
    pub fn try_take(&self, seat: Seat) -> Tried<'_, D>
        requires { IsSeatOf D.plan self.now seat }
        ensures { MatchTried result (IsGot D.plan D.history self.now seat) (IsLost D.plan self.now seat) }
    {
        let mut seat = seat.badge.into_seat();
        let found = self
            .table
            .shared
            .compare_exchange::<TryTake>(&mut seat, 0, 0, 1);
        if found == 0 {
            let kept = self.table.shared.exchange(&mut seat, 0, None).unwrap();
            Tried::Got(Held {
                turn: self,
                seat,
                kept,
            })
        } else {
            Tried::Busy {
                seat: Seat {
                    badge: seat.into_badge(),
                },
                word: found,
            }
        }
    }

    /// Takes the turn. Sleeps while somebody else has it; each try that was lost is counted.
    pub fn take<R: Wait>(&self, rt: &R, seat: Seat) -> Held<'_, D>
        requires { IsSeatOf D.plan self.now seat }
        ensures held { IsHeldOf D.plan D.history self.now result }
        ensures seen { IsPrefix (seen_by seat) (D.history (value_in result)) }
        ensures shares { (held_shares result ≡ shares_of seat) × (lost_by seat ≤ held_lost result) }
    {
        match self.try_take(seat) {
            Tried::Got(held) => held,
            Tried::Busy { seat, word: _ } => {
                self.waiting.fetch_add(1, Ordering::SeqCst);
                let held = self.wait(rt, seat);
                self.waiting.fetch_sub(1, Ordering::SeqCst);
                held
            }
        }
    }

    // Sleeps while somebody else has the turn. It is counted among those that wait, so whoever gives the turn wakes one of them.
    fn wait<R: Wait>(&self, rt: &R, seat: Seat) -> Held<'_, D>
        requires { IsSeatOf D.plan self.now seat }
        ensures held { IsHeldOf D.plan D.history self.now result }
        ensures seen { IsPrefix (seen_by seat) (D.history (value_in result)) }
        ensures shares { (held_shares result ≡ shares_of seat) × (lost_by seat ≤ held_lost result) }
    {
        let mut seat = seat;
        for _ in rt.forever() {
            match self.try_take(seat) {
                Tried::Got(held) => return held,
                Tried::Busy {
                    seat: back,
                    word: _,
                } => seat = back,
            }
            self.table.shared.park(rt, 0, 1);
        }
        unreachable!()
    }

    /// Gives `shares` of the seat's shares to a second seat, which has seen the same. Takes no memory and doesn't wait.
    pub fn split(&self, seat: Seat, shares: u32) -> (Seat, Seat)
        requires seat { IsSeatOf D.plan self.now seat }
        requires shares { (0 < shares) × (shares < shares_of seat) }
        ensures first { IsSeatOf D.plan self.now result.0 × (shares_of result.0 + shares ≡ shares_of seat) × (lost_by result.0 ≡ lost_by seat) }
        ensures second { IsSeatOf D.plan self.now result.1 × (shares_of result.1 ≡ shares) × (lost_by result.1 ≡ 0) }
        ensures seen { (seen_by result.0 ≡ seen_by seat) × (seen_by result.1 ≡ seen_by seat) }
    {
        self.split_by::<Brand>(seat, shares)
    }

    fn split_by<N: Amount>(&self, seat: Seat, shares: u32) -> (Seat, Seat)
        requires seat { IsSeatOf D.plan self.now seat }
        requires shares { (0 < shares) × (shares < shares_of seat) × (shares ≡ N.amount) }
        ensures first { IsSeatOf D.plan self.now result.0 × (shares_of result.0 + shares ≡ shares_of seat) × (lost_by result.0 ≡ lost_by seat) }
        ensures second { IsSeatOf D.plan self.now result.1 × (shares_of result.1 ≡ shares) × (lost_by result.1 ≡ 0) }
        ensures seen { (seen_by result.0 ≡ seen_by seat) × (seen_by result.1 ≡ seen_by seat) }
    {
        let _ = shares;
        let mut seat = seat.badge.into_seat();
        let other = self.table.shared.split_seat::<SplitShares<N>>(&mut seat);
        (
            Seat {
                badge: seat.into_badge(),
            },
            Seat {
                badge: other.into_badge(),
            },
        )
    }

    /// One seat for two: it has the shares and the lost tries of both, and has seen the longer of the two histories.
    /// Takes no memory and doesn't wait.
    pub fn join(&self, a: Seat, b: Seat) -> Seat
        requires { IsSeatOf D.plan self.now a × IsSeatOf D.plan self.now b }
        ensures seat { IsSeatOf D.plan self.now result }
        ensures sums { (shares_of result ≡ shares_of a + shares_of b) × (lost_by result ≡ lost_by a + lost_by b) }
        ensures seen { seen_by result ≡ longer (seen_by a) (seen_by b) }
        ensures begins { IsPrefix (seen_by a) (seen_by result) × IsPrefix (seen_by b) (seen_by result) }
    {
        let mut seat = a.badge.into_seat();
        self.table
            .shared
            .join_seat::<AddShares>(&mut seat, b.badge.into_seat());
        self.table.shared.load::<Compare>(&mut seat, 0);
        Seat {
            badge: seat.into_badge(),
        }
    }

    /// Hands the value out, for good, to a seat that has all shares. Doesn't wait.
    pub fn close(self, seat: Seat) -> D
        requires seat { IsSeatOf D.plan self seat }
        requires all { shares_of seat ≡ 16 }
        ensures plan { D.plan result ≡ turn_plan D.plan self }
        ensures seen { IsPrefix (seen_by seat) (D.history result) }
    {
        let Turn { table, waiting: _ } = self;
        let mut closed = table.close_with(seat.badge.into_seat());
        let kept = closed.take(0).unwrap();
        closed.free();
        kept
    }
}
