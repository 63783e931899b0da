//! One job of a capability, and what becomes of its slice.
ghost use Rattle.std.specs.Prelude.{◌≡◌, IfSome};
ghost use Rattle.rules_code.specs.declared.code.CodeBody.{CodeBody};
ghost use Rattle.conc_turn.specs.Seats.{IsLater};
ghost use Rattle.conc_turn.specs.Turns.{IsSeatOf};
ghost use Rattle.conc_hands.specs.Hands.{IsHandOf, hands_code};
ghost use Rattle.caps_visits.specs.Nexts.{RunsOf};

use crate::capability::Capability;
use crate::cutting::run_slice;
use crate::next::Decision;
use crate::parkers::Parkers;
use crate::runs::{Runs, Unsliced};
use crate::shared::Shared;
use crate::turns::{give_up, try_commit, try_visit, visit};
use crate::visiting::Visit;
use conc_turn::Turn;
use hs_io::Gate;
use hs_rules::Ticketed;
use std::alloc::Global;
use std::sync::Wait;

/// Runs a job. A slice that was cut is dropped, since its ticket was taken back or there is an ending.
pub(crate) fn run_job<D: Runs<J, S>, J: Ticketed + Drop, S: Ticketed + Drop, G: Gate, R: Wait>(
    rt: &R,
    alloc: Global,
    shared: &Shared<'_, Turn<D>, J, S, G>,
    me: Capability<J, S>,
    job: J,
) -> (Capability<J, S>, Decision<J>)
    requires seat { IsSeatOf D.plan shared.now.turn.now me.seat }
    requires hand { IsHandOf shared.now.hands.now me.hand }
    requires job { J.belongs job ≡ hands_code shared.now.hands.now }
    ensures seat { IsLater me.seat result.0.seat }
    ensures hand { IsHandOf shared.now.hands.now result.0.hand }
    ensures next { RunsOf J.belongs (hands_code shared.now.hands.now) result.1 }
{
    let Capability { seat, hand } = me;
    let (hand, slice) = run_slice::<D, J, S, G>(alloc, shared, hand, job);
    match slice {
        Ok(slice) => {
            let me = Capability { seat, hand };
            bring(rt, alloc, shared, me, slice)
        }
        Err(Unsliced::Cut) => {
            let next = if shared.parkers.has_ended() {
                Decision::Stop
            } else {
                Decision::Look
            };
            (Capability { seat, hand }, next)
        }
        Err(Unsliced::NoMemory) => {
            let seat = give_up(rt, shared.turn, seat);
            shared.parkers.end();
            (Capability { seat, hand }, Decision::Stop)
        }
    }
}

// Tries the turn, and commits the slice where it gets it. Else it hands the slice in.
fn bring<D: Runs<J, S>, J: Ticketed + Drop, S: Ticketed + Drop, G: Gate, R: Wait>(
    rt: &R,
    alloc: Global,
    shared: &Shared<'_, Turn<D>, J, S, G>,
    me: Capability<J, S>,
    slice: S,
) -> (Capability<J, S>, Decision<J>)
    requires seat { IsSeatOf D.plan shared.now.turn.now me.seat }
    requires hand { IsHandOf shared.now.hands.now me.hand }
    requires slice { S.belongs slice ≡ hands_code shared.now.hands.now }
    ensures seat { IsLater me.seat result.0.seat }
    ensures hand { IsHandOf shared.now.hands.now result.0.hand }
    ensures next { RunsOf J.belongs (hands_code shared.now.hands.now) result.1 }
{
    let Capability { seat, mut hand } = me;
    let (seat, tried) = try_commit(rt, alloc, shared, seat, &mut hand, slice);
    let me = Capability { seat, hand };
    match tried {
        Ok(visit) => (me, leave(shared.parkers, shared.gate, visit)),
        Err(slice) => hand_over(rt, alloc, shared, me, slice),
    }
}

// Hands a slice in, and tries the turn once more: whoever had it may not have seen the slice. A slice that the inbox has no room
// for is committed under the turn.
fn hand_over<D: Runs<J, S>, J: Ticketed + Drop, S: Ticketed + Drop, G: Gate, R: Wait>(
    rt: &R,
    alloc: Global,
    shared: &Shared<'_, Turn<D>, J, S, G>,
    me: Capability<J, S>,
    slice: S,
) -> (Capability<J, S>, Decision<J>)
    requires seat { IsSeatOf D.plan shared.now.turn.now me.seat }
    requires hand { IsHandOf shared.now.hands.now me.hand }
    requires slice { S.belongs slice ≡ hands_code shared.now.hands.now }
    ensures seat { IsLater me.seat result.0.seat }
    ensures hand { IsHandOf shared.now.hands.now result.0.hand }
    ensures next { RunsOf J.belongs (hands_code shared.now.hands.now) result.1 }
{
    let Capability { seat, mut hand } = me;
    match shared.hands.hand_in(rt, &mut hand, slice) {
        Ok(()) => {
            let (seat, visit) = try_visit(rt, alloc, shared, seat, &mut hand);
            let me = Capability { seat, hand };
            match visit {
                Some(visit) => (me, leave(shared.parkers, shared.gate, visit)),
                None => (me, Decision::Look),
            }
        }
        Err(slice) => {
            let (seat, visit) = visit(rt, alloc, shared, seat, &mut hand, Some(slice));
            (
                Capability { seat, hand },
                leave(shared.parkers, shared.gate, visit),
            )
        }
    }
}

/// What follows a visit, after the turn was given back. Whoever is parked is woken where anything came; those that watch look by
/// themselves, and are woken only where more than one job is left for others.
pub(crate) fn leave<J: Ticketed + Drop, G: Gate>(
    parkers: &Parkers,
    gate: &G,
    visit: Visit<J>,
) -> Decision<J>
    ensures { (c : CodeBody) → IfSome visit.kept (λ job. J.belongs job ≡ c) → RunsOf J.belongs c result }
{
    let Visit {
        committed,
        kept,
        stirred,
        ended,
        spare,
    } = visit;
    // First, since a gate may hold it.
    if ended {
        parkers.end();
    }
    for ticket in &committed {
        gate.committed(*ticket);
    }
    if ended {
        return Decision::Stop;
    }
    if stirred {
        parkers.wake_parked();
    }
    if spare > 1 {
        parkers.wake_watching(spare);
    }
    match kept {
        Some(job) => Decision::Run(job),
        None => Decision::Look,
    }
}
