//! A try on one thread while another has the turn.
ghost use Rattle.std.specs.Prelude.{◌≡◌};
ghost use Rattle.std.specs.Thread.{IsSend, IsSync};
ghost use Rattle.conc_turn.specs.Seats.{IsLater};
ghost use Rattle.conc_turn.specs.Turns.{IsSeatOf};

use crate::{a_body, a_log};
use conc_turn::{Seat, Tried, Turn};
use hs_rules::Kept;
use std::alloc::Global;
use std::sync::Wait;
use std::test::Fail;
use std::thread::{Parker, Threads, join};
use std::time::Duration;

/// So many seconds a thread holds the turn at most, for a try that doesn't answer.
const PATIENCE: u64 = 5;

/// Where each of two threads waits for the other.
#[derive(Drop)]
struct Meeting {
    /// Until one has the turn.
    held: Parker,
    /// Until the other's try has answered.
    tried: Parker,
}

// Has the turn until the other thread's try has answered.
fn hold<D: Kept, R: Wait>(rt: &R, turn: &Turn<D>, seat: Seat, meeting: &Meeting) -> Seat
    requires { IsSeatOf D.plan turn.now seat }
    ensures { IsLater seat result }
{
    let held = turn.take(rt, seat);
    meeting.held.unpark();
    meeting
        .tried
        .park_timeout(rt, Duration::from_secs(PATIENCE));
    held.give()
}

// What a try reads while the other thread has the turn, where it loses.
fn word_of_try<D: Kept, R: Wait>(
    rt: &R,
    turn: &Turn<D>,
    seat: Seat,
    meeting: &Meeting,
) -> (Seat, Option<u64>)
    requires { IsSeatOf D.plan turn.now seat }
    ensures { IsLater seat result.0 }
{
    meeting.held.park(rt);
    let (seat, word) = match turn.try_take(seat) {
        Tried::Got(held) => (held.give(), None),
        Tried::Busy { seat, word } => (seat, Some(word)),
    };
    meeting.tried.unpark();
    (seat, word)
}

// The same, with a thread of its own for each of the two.
fn word_beside<D: Kept + Drop + Send, R: Threads + Wait + Sync>(
    rt: &R,
    alloc: Global,
    value: D,
) -> Option<u64> {
    let Ok((turn, seat)) = Turn::new(alloc, value) else {
        return None;
    };
    let (one, two) = turn.split(seat, 8);
    let meeting = Meeting {
        held: Parker::new(),
        tried: Parker::new(),
    };
    let (shared, met) = (&turn, &meeting);
    let (a, b) = join(
        rt,
        move || -> Seat
            requires { IsSeatOf D.plan shared.now one × IsSend D.row × IsSync R.row }
            ensures { IsLater one result }
        { hold(rt, shared, one, met) },
        move || -> (Seat, Option<u64>)
            requires { IsSeatOf D.plan shared.now two × IsSend D.row × IsSync R.row }
            ensures { IsLater two result.0 }
        { word_of_try(rt, shared, two, met) },
    );
    let all = turn.join(a, b.0);
    let _value = turn.close(all);
    b.1
}

#[test]
fn a_try_answers_while_another_thread_has_the_turn(rt: HostRuntime) -> Result<(), Fail> {
    let alloc = rt.alloc();
    let log = a_log(alloc, a_body(alloc)?);
    assert_eq!(rt; word_beside(&rt, alloc, log), Some(1));
    Ok(())
}
