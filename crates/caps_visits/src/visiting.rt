//! What a capability does with the value while it has the turn.
ghost use Rattle.std.specs.Prelude.{◌≡◌, IfSome};
ghost use mathlib.Core.List.{IsPrefix};
ghost use Rattle.conc_hands.specs.Hands.{IsHandOf, hands_code};

use crate::runs::Runs;
use conc_hands::{Hand, Hands};
use hs_rules::Ticketed;
use std::alloc::Global;
use std::sync::Wait;

/// A capability takes so many jobs at once at most.
const MOST_JOBS: u32 = 64;

/// What a capability did while it had the turn.
#[derive(Drop)]
pub(crate) struct Visit<J> {
    /// The tickets of the slices that were taken, in order.
    pub(crate) committed: Vec<u64>,
    /// A job that the deque had no room for.
    pub(crate) kept: Option<J>,
    /// A slice came back or a job came.
    pub(crate) stirred: bool,
    /// There is an ending.
    pub(crate) ended: bool,
    /// How many jobs it left for others.
    pub(crate) spare: u32,
}

/// Commits this slice, if there is one, and all that are in the inbox; lets the value do what
/// needs no slice; raises the flags of jobs that were overtaken; and takes jobs.
pub(crate) fn attend<D: Runs<J, S>, J: Ticketed + Drop, S: Ticketed + Drop, R: Wait>(
    rt: &R,
    alloc: Global,
    hands: &Hands<J, S>,
    hand: &mut Hand<J, S>,
    desk: &mut D,
    own: Option<S>,
) -> Visit<J>
    requires hand { IsHandOf hands.now hand.old }
    requires code { hands_code hands.now ≡ (D.plan desk.old).body }
    requires slice { IfSome own (λ slice. S.belongs slice ≡ hands_code hands.now) }
    ensures hand { IsHandOf hands.now hand.new }
    ensures plan { D.plan desk.new ≡ D.plan desk.old }
    ensures history { IsPrefix (D.history desk.old) (D.history desk.new) }
    ensures job { IfSome result.kept (λ job. J.belongs job ≡ hands_code hands.now) }
{
    let mut committed = Vec::new(alloc);
    let collected = commit_slices(rt, hands, hand, desk, own, &mut committed);
    let (pushed, kept) = refresh(rt, hands, hand, desk);
    let came = pushed > 0 || kept.is_some();

    // It goes on with one of them itself.
    let spare = if kept.is_some() {
        pushed
    } else {
        pushed.saturating_sub(1)
    };
    Visit {
        committed,
        kept,
        stirred: collected || came,
        ended: desk.is_ended(),
        spare,
    }
}

// Commits this slice, if there is one, and all slices of the inbox. Whether there was one.
fn commit_slices<D: Runs<J, S>, J: Ticketed, S: Ticketed + Drop, R: Wait>(
    rt: &R,
    hands: &Hands<J, S>,
    hand: &mut Hand<J, S>,
    desk: &mut D,
    own: Option<S>,
    committed: &mut Vec<u64>,
) -> bool
    requires hand { IsHandOf hands.now hand.old }
    requires code { hands_code hands.now ≡ (D.plan desk.old).body }
    requires slice { IfSome own (λ slice. S.belongs slice ≡ hands_code hands.now) }
    ensures hand { IsHandOf hands.now hand.new }
    ensures plan { D.plan desk.new ≡ D.plan desk.old }
    ensures history { IsPrefix (D.history desk.old) (D.history desk.new) }
{
    match own {
        Some(slice) => {
            commit_one(desk, slice, committed);
            commit_inbox(rt, hands, hand, desk, committed);
            true
        }
        None => commit_inbox(rt, hands, hand, desk, committed),
    }
}

// Lets the value do what needs no slice, and takes jobs. How many it pushed, and one that came back.
fn refresh<D: Runs<J, S>, J: Ticketed + Drop, S: Ticketed, R: Wait>(
    rt: &R,
    hands: &Hands<J, S>,
    hand: &mut Hand<J, S>,
    desk: &mut D,
) -> (u32, Option<J>)
    requires hand { IsHandOf hands.now hand.old }
    requires code { hands_code hands.now ≡ (D.plan desk.old).body }
    ensures hand { IsHandOf hands.now hand.new }
    ensures plan { D.plan desk.new ≡ D.plan desk.old }
    ensures history { IsPrefix (D.history desk.old) (D.history desk.new) }
    ensures job { IfSome result.1 (λ job. J.belongs job ≡ hands_code hands.now) }
{
    let _ = desk.settle();
    raise_overtaken(rt, hands, hand, desk);
    take_jobs(hands, hand, desk)
}

// Commits a slice, and lists its ticket where it was taken. Where the list has no room the slice is dropped.
fn commit_one<D: Runs<J, S>, J: Ticketed, S: Ticketed + Drop>(
    desk: &mut D,
    slice: S,
    committed: &mut Vec<u64>,
)
    requires { S.belongs slice ≡ (D.plan desk.old).body }
    ensures plan { D.plan desk.new ≡ D.plan desk.old }
    ensures history { IsPrefix (D.history desk.old) (D.history desk.new) }
{
    if committed.reserve(1).is_err() {
        desk.no_memory();
        return;
    }
    let ticket = slice.ticket();
    if desk.commit(slice) {
        committed.push_reserved(ticket);
    }
}

// Commits all slices of the inbox. Whether there was one.
fn commit_inbox<D: Runs<J, S>, J: Ticketed, S: Ticketed + Drop, R: Wait>(
    rt: &R,
    hands: &Hands<J, S>,
    hand: &mut Hand<J, S>,
    desk: &mut D,
    committed: &mut Vec<u64>,
) -> bool
    requires hand { IsHandOf hands.now hand.old }
    requires code { hands_code hands.now ≡ (D.plan desk.old).body }
    ensures hand { IsHandOf hands.now hand.new }
    ensures plan { D.plan desk.new ≡ D.plan desk.old }
    ensures history { IsPrefix (D.history desk.old) (D.history desk.new) }
{
    let mut any = false;
    for _ in rt.forever() {
        let Some(slice) = hands.collect(rt, hand) else {
            break;
        };
        commit_one(desk, slice, committed);
        any = true;
    }
    any
}

// Raises the flags of all jobs that were overtaken.
fn raise_overtaken<D: Runs<J, S>, J: Ticketed, S: Ticketed, R: Wait>(
    rt: &R,
    hands: &Hands<J, S>,
    hand: &mut Hand<J, S>,
    desk: &mut D,
)
    requires { IsHandOf hands.now hand.old }
    ensures hand { IsHandOf hands.now hand.new }
    ensures plan { D.plan desk.new ≡ D.plan desk.old }
    ensures history { IsPrefix (D.history desk.old) (D.history desk.new) }
{
    for _ in rt.forever() {
        let Some(ticket) = desk.overtaken() else {
            break;
        };
        hands.raise(hand, ticket);
    }
}

// Pushes jobs on the own deque. How many, and one that came back, with which it stops.
fn take_jobs<D: Runs<J, S>, J: Ticketed + Drop, S: Ticketed>(
    hands: &Hands<J, S>,
    hand: &mut Hand<J, S>,
    desk: &mut D,
) -> (u32, Option<J>)
    requires hand { IsHandOf hands.now hand.old }
    requires code { hands_code hands.now ≡ (D.plan desk.old).body }
    ensures hand { IsHandOf hands.now hand.new }
    ensures plan { D.plan desk.new ≡ D.plan desk.old }
    ensures history { IsPrefix (D.history desk.old) (D.history desk.new) }
    ensures job { IfSome result.1 (λ job. J.belongs job ≡ hands_code hands.now) }
{
    let mut pushed = 0;
    for _ in 0..MOST_JOBS {
        let Ok(Some(job)) = desk.next_job() else {
            break;
        };
        if let Err(job) = hands.push(hand, job) {
            return (pushed, Some(job));
        }
        pushed += 1;
    }
    (pushed, None)
}
