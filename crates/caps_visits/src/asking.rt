//! A capability that has nothing to pop or steal.
ghost use Rattle.std.specs.Prelude.{◌≡◌, IfSome};
ghost use Rattle.conc_turn.specs.Seats.{IsLater};
ghost use Rattle.conc_turn.specs.Turns.{IsSeatOf};
ghost use Rattle.conc_hands.specs.Hands.{IsHandOf, hands_code};
ghost use Rattle.caps_visits.specs.Nexts.{RunsOf};

use crate::capability::Capability;
use crate::jobs::steal_job;
use crate::next::Decision;
use crate::parkers::Berth;
use crate::running::leave;
use crate::runs::Runs;
use crate::shared::{Planned, Shared};
use crate::turns::visit;
use conc_hands::Hand;
use conc_turn::Turn;
use hs_io::Gate;
use hs_rules::Ticketed;
use std::alloc::Global;
use std::sync::Wait;

/// So many times it looks for a job before it parks.
const LOOKS: u32 = 8;
/// The microseconds before its first look. Before each other look it waits twice as long as before the last one.
const FIRST_WAIT: u64 = 50;

/// Waits for the turn. Where it finds nothing to do it gives the turn, watches for some milliseconds, and parks.
pub(crate) fn ask<D: Runs<J, S>, J: Ticketed + Drop, S: Ticketed + Drop, G: Gate, R: Wait>(
    rt: &R,
    alloc: Global,
    shared: &Shared<'_, Turn<D>, J, S, G>,
    me: Capability<J, S>,
) -> (Capability<J, S>, Decision<J>)
    requires seat { IsSeatOf D.plan shared.now.turn.now me.seat }
    requires hand { IsHandOf shared.now.hands.now me.hand }
    ensures seat { IsLater me.seat result.0.seat }
    ensures hand { IsHandOf shared.now.hands.now result.0.hand }
    ensures next { RunsOf J.belongs (hands_code shared.now.hands.now) result.1 }
{
    let Capability { seat, mut hand } = me;
    let own = &shared.parkers.berths[hand.number() as usize];
    own.watch();
    let (seat, visit) = visit(rt, alloc, shared, seat, &mut hand, None);
    if visit.stirred || visit.ended {
        // Before it wakes others, so that it doesn't wake itself in place of one of them.
        own.work();
        return (
            Capability { seat, hand },
            leave(shared.parkers, shared.gate, visit),
        );
    }
    let found = wait_for_job(rt, shared, own, &mut hand);
    own.work();
    let next = match found {
        Some(job) => Decision::Run(job),
        None => Decision::Look,
    };
    (Capability { seat, hand }, next)
}

// Looks for a job of another's deque now and then, and parks in the end. None where somebody woke it.
fn wait_for_job<T: Planned, J: Ticketed + Drop, S: Ticketed + Drop, G, R: Wait>(
    rt: &R,
    shared: &Shared<'_, T, J, S, G>,
    own: &Berth,
    hand: &mut Hand<J, S>,
) -> Option<J>
    requires { IsHandOf shared.now.hands.now hand.old }
    ensures hand { IsHandOf shared.now.hands.now hand.new }
    ensures job { IfSome result (λ job. J.belongs job ≡ hands_code shared.now.hands.now) }
{
    for look in 0..LOOKS {
        own.doze(rt, FIRST_WAIT << look);
        if own.is_woken() {
            return None;
        }
        if let Some(job) = steal_job(rt, shared, hand) {
            return Some(job);
        }
    }
    if !own.announce() {
        return None;
    }
    // A job that came before the announcement wakes nobody.
    if let Some(job) = steal_job(rt, shared, hand) {
        return Some(job);
    }
    own.park(rt);
    None
}
