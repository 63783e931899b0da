//! The value while the turn is held.
ghost use Rattle.std.specs.Prelude.{◌≡◌, ◌<◌, [], Some};
ghost use types.Logic.{sem};
ghost use denote.Follow.{follows};
ghost use mir.Syntax.{named};
ghost use mathlib.Core.List.{IsPrefix};
ghost use Rattle.conc_turn.specs.contracts.turn.Held.{the_row};
ghost use Rattle.conc_turn.specs.Seats.{plan_of, seen_by, shares_of, lost_by};
ghost use Rattle.conc_turn.specs.Turns.{IsTaken, held_table, held_plan, found_by, held_shares, held_lost, value_in, with_value};

use crate::rule::GiveBack;
use crate::seat::Seat;
use crate::turn::Held;
use hs_rules::Kept;
use std::sync::atomic::Ordering;

impl<'a, D: Kept> Held<'a, D> {
    /// Lends the value.
    pub fn kept(&mut self) -> &mut D
        ensures* written_back { sem 𝓛 (follows (the_row (record { mir = named 1; lft = [] }) D.row D.Kept) D.row self.entry.ghost_name result.ghost_name (with_value self.old)) }
        ensures value { result.now ≡ value_in self.old }
    {
        &mut self.kept
    }

    /// Gives the turn back, with the value, and wakes one who waits for it, if there is one. Takes no memory.
    pub fn give(self) -> Seat
        requires taken { IsTaken self }
        requires plan { held_plan self ≡ Some (D.plan (value_in self)) }
        requires history { IsPrefix (found_by self) (D.history (value_in self)) }
        ensures seat { (result.badge.table_id ≡ held_table self.entry) × (plan_of result ≡ held_plan self.entry) × (0 < shares_of result) }
        ensures seen { seen_by result ≡ D.history (value_in self.entry) }
        ensures shares { (shares_of result ≡ held_shares self.entry) × (lost_by result ≡ held_lost self.entry) }
    {
        let Held {
            turn,
            mut seat,
            kept,
        } = self;
        let was = turn.table.shared.exchange(&mut seat, 0, Some(kept));
        let None = was else { unreachable!() };
        turn.table.shared.store::<GiveBack>(&mut seat, 0, 0);
        if turn.waiting.load(Ordering::SeqCst) > 0 {
            turn.table.shared.wake_one(0);
        }
        Seat {
            badge: seat.into_badge(),
        }
    }
}
