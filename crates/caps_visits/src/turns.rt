//! The turns of one capability. Each ends with the seat, which has seen what it leaves.
ghost use Rattle.std.specs.Prelude.{◌≡◌, IfSome, IfOk, IfErr};
ghost use Rattle.conc_turn.specs.Seats.{IsLater};
ghost use Rattle.conc_turn.specs.Turns.{IsSeatOf};
ghost use Rattle.conc_hands.specs.Hands.{IsHandOf, hands_code};

use crate::runs::Runs;
use crate::shared::Shared;
use crate::visiting::{Visit, attend};
use conc_hands::Hand;
use conc_turn::{Seat, Tried, Turn};
use hs_rules::Ticketed;
use std::alloc::Global;
use std::sync::Wait;

/// Waits for the turn, and commits this slice, if there is one.
pub(crate) fn visit<D: Runs<J, S>, J: Ticketed + Drop, S: Ticketed + Drop, G, R: Wait>(
    rt: &R,
    alloc: Global,
    shared: &Shared<'_, Turn<D>, J, S, G>,
    seat: Seat,
    hand: &mut Hand<J, S>,
    own: Option<S>,
) -> (Seat, Visit<J>)
    requires seat { IsSeatOf D.plan shared.now.turn.now seat }
    requires hand { IsHandOf shared.now.hands.now hand.old }
    requires slice { IfSome own (λ slice. S.belongs slice ≡ hands_code shared.now.hands.now) }
    ensures seat { IsLater seat result.0 }
    ensures hand { IsHandOf shared.now.hands.now hand.new }
    ensures job { IfSome result.1.kept (λ job. J.belongs job ≡ hands_code shared.now.hands.now) }
{
    let mut held = shared.turn.take(rt, seat);
    let visit = attend(rt, alloc, shared.hands, hand, held.kept(), own);
    (held.give(), visit)
}

/// Tries the turn once. Nothing where somebody else has it.
pub(crate) fn try_visit<D: Runs<J, S>, J: Ticketed + Drop, S: Ticketed + Drop, G, R: Wait>(
    rt: &R,
    alloc: Global,
    shared: &Shared<'_, Turn<D>, J, S, G>,
    seat: Seat,
    hand: &mut Hand<J, S>,
) -> (Seat, Option<Visit<J>>)
    requires seat { IsSeatOf D.plan shared.now.turn.now seat }
    requires hand { IsHandOf shared.now.hands.now hand.old }
    ensures seat { IsLater seat result.0 }
    ensures hand { IsHandOf shared.now.hands.now hand.new }
    ensures job { IfSome result.1 (λ visit. IfSome visit.kept (λ job. J.belongs job ≡ hands_code shared.now.hands.now)) }
{
    match shared.turn.try_take(seat) {
        Tried::Got(mut held) => {
            let visit = attend(rt, alloc, shared.hands, hand, held.kept(), None);
            (held.give(), Some(visit))
        }
        Tried::Busy { seat, word: _ } => (seat, None),
    }
}

/// Tries the turn once, to commit this slice. It comes back where somebody else has the turn.
pub(crate) fn try_commit<D: Runs<J, S>, J: Ticketed + Drop, S: Ticketed + Drop, G, R: Wait>(
    rt: &R,
    alloc: Global,
    shared: &Shared<'_, Turn<D>, J, S, G>,
    seat: Seat,
    hand: &mut Hand<J, S>,
    slice: S,
) -> (Seat, Result<Visit<J>, S>)
    requires seat { IsSeatOf D.plan shared.now.turn.now seat }
    requires hand { IsHandOf shared.now.hands.now hand.old }
    requires slice { S.belongs slice ≡ hands_code shared.now.hands.now }
    ensures seat { IsLater seat result.0 }
    ensures hand { IsHandOf shared.now.hands.now hand.new }
    ensures job { IfOk result.1 (λ visit. IfSome visit.kept (λ job. J.belongs job ≡ hands_code shared.now.hands.now)) }
    ensures back { IfErr result.1 (λ back. back ≡ slice) }
{
    match shared.turn.try_take(seat) {
        Tried::Got(mut held) => {
            let visit = attend(rt, alloc, shared.hands, hand, held.kept(), Some(slice));
            (held.give(), Ok(visit))
        }
        Tried::Busy { seat, word: _ } => (seat, Err(slice)),
    }
}

/// Waits for the turn, and sets an ending where there is none.
pub(crate) fn give_up<D: Runs<J, S>, J: Ticketed, S: Ticketed, R: Wait>(
    rt: &R,
    turn: &Turn<D>,
    seat: Seat,
) -> Seat
    requires { IsSeatOf D.plan turn.now seat }
    ensures { IsLater seat result }
{
    let mut held = turn.take(rt, seat);
    held.kept().no_memory();
    held.give()
}
