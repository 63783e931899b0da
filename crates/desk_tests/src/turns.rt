//! A desk under a turn of two seats, on one thread.
ghost use Rattle.std.specs.Prelude.{◌≡◌, IfSome};
ghost use mathlib.Core.List.{IsPrefix};
ghost use Rattle.hs_rules.specs.declared.kept.Plan.{Plan};
ghost use Rattle.conc_turn.specs.Seats.{IsLater};
ghost use Rattle.conc_turn.specs.Turns.{IsSeatOf, turn_plan};

use crate::desks::{Quiet, at, ran};
use conc_turn::{Seat, Tried, Turn};
use conc_world::Committed;
use frame_stack::Job;
use hs_rules::Kept;
use std::alloc::Global;
use std::sync::Wait;
use std::test::Fail;

const HELLO: &[u8] = b"main :: IO () = { putStrLn \"hello\" };";

/// What came of two tries of one seat.
#[derive(Drop)]
struct TwoTries {
    /// What the first one read where it lost, while the other seat had the turn.
    lost: Option<u64>,
    /// Whether the second one won, and the slice of the other seat's job was taken.
    committed: bool,
    /// How many entries the desk has in the end.
    entries: usize,
}

// The job of a desk that hasn't begun.
fn first_job(desk: &mut Quiet) -> Option<Job>
    ensures plan { ⟦<Quiet as Kept>⟧.plan desk.new ≡ ⟦<Quiet as Kept>⟧.plan desk.old }
    ensures history { IsPrefix (⟦<Quiet as Kept>⟧.history desk.old) (⟦<Quiet as Kept>⟧.history desk.new) }
    ensures code { IfSome result (λ job. job.of.value ≡ (⟦<Quiet as Kept>⟧.plan desk.old).body) }
{
    if desk.settle().is_err() {
        return None;
    }
    match desk.next_job() {
        Ok(found) => found,
        Err(_) => None,
    }
}

// Whether there is a job, and its slice is taken.
fn is_committed(desk: &mut Quiet, job: Option<Job>) -> bool
    requires { IfSome job (λ job. job.of.value ≡ (⟦<Quiet as Kept>⟧.plan desk.old).body) }
    ensures plan { ⟦<Quiet as Kept>⟧.plan desk.new ≡ ⟦<Quiet as Kept>⟧.plan desk.old }
    ensures history { IsPrefix (⟦<Quiet as Kept>⟧.history desk.old) (⟦<Quiet as Kept>⟧.history desk.new) }
{
    let Some(job) = job else {
        return false;
    };
    let Ok(slice) = ran(desk, job) else {
        return false;
    };
    matches!(desk.commit_or_redo(slice).0, Committed::Taken)
}

// What a try reads, where it loses.
fn word_of_try<D: Kept>(turn: &Turn<D>, seat: Seat) -> (Seat, Option<u64>)
    requires { IsSeatOf D.plan turn.now seat }
    ensures { IsLater seat result.0 }
{
    match turn.try_take(seat) {
        Tried::Got(held) => (held.give(), None),
        Tried::Busy { seat, word } => (seat, Some(word)),
    }
}

// Whether a try wins, and the slice of the job is taken then.
fn commit_by_try(turn: &Turn<Quiet>, seat: Seat, job: Option<Job>) -> (Seat, bool)
    requires seat { IsSeatOf ⟦<Quiet as Kept>⟧.plan turn.now seat }
    requires job { IfSome job (λ job. job.of.value ≡ (turn_plan ⟦<Quiet as Kept>⟧.plan turn.now).body) }
    ensures { IsLater seat result.0 }
{
    match turn.try_take(seat) {
        Tried::Got(mut held) => {
            let committed = is_committed(held.kept(), job);
            (held.give(), committed)
        }
        Tried::Busy { seat, word: _ } => (seat, false),
    }
}

// One seat makes a job while it has the turn, and the other tries; after the give that one tries again, and commits the slice.
fn try_twice<R: Wait>(rt: &R, alloc: Global, desk: Quiet) -> Option<TwoTries> {
    let Ok((turn, seat)) = Turn::new(alloc, desk) else {
        return None;
    };
    let (one, two) = turn.split(seat, 8);
    let mut held = turn.take(rt, one);
    let job = first_job(held.kept());
    let (two, lost) = word_of_try(&turn, two);
    let one = held.give();
    let (two, committed) = commit_by_try(&turn, two, job);
    let all = turn.join(one, two);
    let desk = turn.close(all);
    Some(TwoTries {
        lost,
        committed,
        entries: desk.history().len(),
    })
}

#[test]
fn a_try_loses_while_another_seat_has_the_desk(rt: HostRuntime) -> Result<(), Fail> {
    let alloc = rt.alloc();
    let Some(desk) = at(alloc, HELLO, 1_000) else {
        return Err(Fail::new("no desk"));
    };
    let Some(tries) = try_twice(&rt, alloc, desk) else {
        return Err(Fail::new("no turn"));
    };
    assert_eq!(rt; tries.lost, Some(1));
    assert!(rt; tries.committed);
    assert_eq!(rt; tries.entries, 1);
    Ok(())
}
