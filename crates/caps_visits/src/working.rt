//! The work of one capability.
ghost use Rattle.std.specs.Prelude.{◌≡◌};
ghost use Rattle.conc_turn.specs.Seats.{IsLater};
ghost use Rattle.conc_turn.specs.Turns.{IsSeatOf};
ghost use Rattle.conc_hands.specs.Hands.{IsHandOf, hands_code};
ghost use Rattle.caps_visits.specs.Nexts.{RunsOf};

use crate::asking::ask;
use crate::capability::Capability;
use crate::jobs::find_job;
use crate::next::Decision;
use crate::running::run_job;
use crate::runs::Runs;
use crate::shared::Shared;
use conc_turn::Turn;
use hs_io::Gate;
use hs_rules::Ticketed;
use std::alloc::Global;
use std::sync::Wait;

/// Works until there is an ending.
pub fn work<D: Runs<J, S>, J: Ticketed + Drop, S: Ticketed + Drop, G: Gate, R: Wait>(
    rt: &R,
    alloc: Global,
    shared: &Shared<'_, Turn<D>, J, S, G>,
    me: Capability<J, S>,
) -> Capability<J, S>
    requires seat { IsSeatOf D.plan shared.now.turn.now me.seat }
    requires hand { IsHandOf shared.now.hands.now me.hand }
    ensures seat { IsLater me.seat result.seat }
    ensures hand { IsHandOf shared.now.hands.now result.hand }
{
    let mut now = me;
    let mut next = Decision::Look;
    for _ in rt.forever() {
        let (then, what) = step(rt, alloc, shared, now, next);
        now = then;
        next = what;
        if let Decision::Stop = next {
            return now;
        }
    }
    unreachable!()
}

// One job, or where there is none a turn.
fn step<D: Runs<J, S>, J: Ticketed + Drop, S: Ticketed + Drop, G: Gate, R: Wait>(
    rt: &R,
    alloc: Global,
    shared: &Shared<'_, Turn<D>, J, S, G>,
    me: Capability<J, S>,
    next: Decision<J>,
) -> (Capability<J, S>, Decision<J>)
    requires seat { IsSeatOf D.plan shared.now.turn.now me.seat }
    requires hand { IsHandOf shared.now.hands.now me.hand }
    requires next { RunsOf J.belongs (hands_code shared.now.hands.now) next }
    ensures seat { IsLater me.seat result.0.seat }
    ensures hand { IsHandOf shared.now.hands.now result.0.hand }
    ensures next { RunsOf J.belongs (hands_code shared.now.hands.now) result.1 }
{
    let Capability { seat, mut hand } = me;
    let job = match next {
        Decision::Stop => return (Capability { seat, hand }, Decision::Stop),
        Decision::Look => find_job(rt, shared, &mut hand),
        Decision::Run(job) => Some(job),
    };
    let me = Capability { seat, hand };
    match job {
        Some(job) => run_job(rt, alloc, shared, me, job),
        None => ask(rt, alloc, shared, me),
    }
}
