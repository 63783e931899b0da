//! How a capability runs a slice.
ghost use Rattle.std.specs.Prelude.{◌≡◌, ℕ, Some, IfOk};
ghost use Rattle.conc_hands.specs.Hands.{IsHandOf, hands_code};
ghost use Rattle.caps_visits.specs.Objects.{object_of};

use crate::object::LooksAt;
use crate::runs::{Runs, Unsliced};
use crate::shared::Shared;
use crate::watch::Watch;
use conc_hands::{Hand, Hands};
use conc_turn::Turn;
use hs_io::{Cutter, Gate};
use hs_rules::Ticketed;
use std::alloc::Global;
use std::marker::{Brand, PhantomData};

impl<'a, J: Ticketed, S: Ticketed, G: Gate, N: LooksAt> Cutter for Watch<'a, J, S, G, N> {
    ghost last = { λ w. w.last };

    fn look(&mut self) -> u64 {
        if !self.began {
            self.began = true;
            self.gate.before_slice(self.hand.number(), self.ticket);
        }
        self.last = if self.parkers.has_ended() {
            self.ticket
        } else {
            read_flag(self.hands, &mut self.hand, self.ticket)
        };
        self.last
    }
}

// What the flag of this ticket says.
fn read_flag<J: Ticketed, S: Ticketed>(
    hands: &Hands<J, S>,
    hand: &mut Hand<J, S>,
    ticket: u64,
) -> u64
    requires { ∥ IsHandOf hands.now hand.old ∥₁ }
    ensures { ∥ IsHandOf hands.now hand.new ∥₁ }
{
    hands.raised(hand, ticket)
}

/// Runs the slice of a job. At its first look it calls the gate. Each look cuts it where there is an ending, or where the flag of
/// its ticket says so.
pub(crate) fn run_slice<D: Runs<J, S>, J: Ticketed, S: Ticketed, G: Gate>(
    alloc: Global,
    shared: &Shared<'_, Turn<D>, J, S, G>,
    hand: Hand<J, S>,
    job: J,
) -> (Hand<J, S>, Result<S, Unsliced>)
    requires hand { IsHandOf shared.now.hands.now hand }
    requires job { J.belongs job ≡ hands_code shared.now.hands.now }
    ensures hand { IsHandOf shared.now.hands.now result.0 }
    ensures slice { IfOk result.1 (λ slice. S.belongs slice ≡ hands_code shared.now.hands.now) }
{
    run_watched::<Brand, D, J, S, G>(alloc, shared, hand, job)
}

// The same, with a name for the object of hands.
fn run_watched<N: LooksAt, D: Runs<J, S>, J: Ticketed, S: Ticketed, G: Gate>(
    alloc: Global,
    shared: &Shared<'_, Turn<D>, J, S, G>,
    hand: Hand<J, S>,
    job: J,
) -> (Hand<J, S>, Result<S, Unsliced>)
    requires object { N.object ≡ Some (object_of shared.now.hands.now) }
    requires hand { IsHandOf shared.now.hands.now hand }
    requires job { J.belongs job ≡ hands_code shared.now.hands.now }
    ensures hand { IsHandOf shared.now.hands.now result.0 }
    ensures slice { IfOk result.1 (λ slice. S.belongs slice ≡ hands_code shared.now.hands.now) }
{
    let ticket = job.ticket();
    let mut watch: Watch<'_, J, S, G, N> = Watch {
        hands: shared.hands,
        hand,
        parkers: shared.parkers,
        gate: shared.gate,
        ticket,
        began: false,
        last: 0,
        named: PhantomData,
    };
    let slice = D::slice(alloc, shared.code, job, &mut watch);
    (watch.hand, slice)
}
