//! Four hands that run on threads of their own.
ghost use Rattle.std.specs.Prelude.{◌≡◌};
ghost use Rattle.std.specs.Thread.{IsSync};
ghost use Rattle.rules_code.specs.Codes.{body_of};
ghost use Rattle.conc_hands.specs.Hands.{IsHandOf, hands_code, hands_count, number_of};

use crate::close::close_four;
use crate::items::{Item, ticket_of};
use crate::two::{TestHand, TestHands, four_hands};
use hs_base::NoMemory;
use hs_rules::Code;
use std::alloc::Global;
use std::sync::Wait;
use std::thread::{Threads, join};

/// How many hands there are in these runs.
const HANDS: u32 = 4;

/// How many jobs each hand pushes.
const JOBS: u64 = 1_000;

/// What a multiset of tickets comes to.
#[derive(Clone, Copy, Debug, PartialEq, Eq)]
pub struct Count {
    pub number: u64,
    pub sum: u64,
    pub squares: u64,
}

impl Count {
    pub fn none() -> Count {
        Count {
            number: 0,
            sum: 0,
            squares: 0,
        }
    }

    pub fn add(self, ticket: u64) -> Count {
        self.plus(Count {
            number: 1,
            sum: ticket,
            squares: ticket.wrapping_mul(ticket),
        })
    }

    pub fn plus(self, other: Count) -> Count {
        Count {
            number: self.number.wrapping_add(other.number),
            sum: self.sum.wrapping_add(other.sum),
            squares: self.squares.wrapping_add(other.squares),
        }
    }
}

/// What one hand did.
#[derive(Clone, Copy, Debug, PartialEq, Eq)]
pub struct Tally {
    pub pushed: Count,
    pub taken: Count,
    pub handed_in: Count,
    pub collected: Count,
}

impl Tally {
    pub fn plus(self, other: Tally) -> Tally {
        Tally {
            pushed: self.pushed.plus(other.pushed),
            taken: self.taken.plus(other.taken),
            handed_in: self.handed_in.plus(other.handed_in),
            collected: self.collected.plus(other.collected),
        }
    }
}

fn push_all(hands: &TestHands, hand: &mut TestHand, code: &Code) -> Count
    requires { IsHandOf hands.now hand.old × (body_of code.now ≡ hands_code hands.now) }
    ensures { IsHandOf hands.now hand.new × (number_of hand.new ≡ number_of hand.old) }
{
    let first = u64::from(hand.number()) * JOBS;
    let mut pushed = Count::none();
    for i in 1..=JOBS {
        let ticket = first.wrapping_add(i);
        if hands.push(hand, ticket_of(code, ticket)).is_ok() {
            pushed = pushed.add(ticket);
        }
    }
    pushed
}

fn take_one<R: Wait>(rt: &R, hands: &TestHands, hand: &mut TestHand) -> Option<Item>
    requires { IsHandOf hands.now hand.old × (hands_count hands.now ≡ 4) }
    ensures { IsHandOf hands.now hand.new × (number_of hand.new ≡ number_of hand.old) }
{
    if let Some(job) = hands.pop(hand) {
        return Some(job);
    }
    for from in 0..HANDS {
        if from != hand.number() {
            if let Some(job) = hands.steal(rt, hand, from) {
                return Some(job);
            }
        }
    }
    None
}

// Takes all jobs there are, and hands in a slice for each.
fn take_all<R: Wait>(rt: &R, hands: &TestHands, hand: &mut TestHand, code: &Code) -> (Count, Count)
    requires { IsHandOf hands.now hand.old × (hands_count hands.now ≡ 4) × (body_of code.now ≡ hands_code hands.now) }
    ensures { IsHandOf hands.now hand.new × (number_of hand.new ≡ number_of hand.old) }
{
    let mut taken = Count::none();
    let mut handed_in = Count::none();
    for _ in rt.forever() {
        let Some(job) = take_one(rt, hands, hand) else {
            break;
        };
        taken = taken.add(job.number);
        if hands.hand_in(rt, hand, ticket_of(code, job.number)).is_ok() {
            handed_in = handed_in.add(job.number);
        }
    }
    (taken, handed_in)
}

fn collect_all<R: Wait>(rt: &R, hands: &TestHands, hand: &mut TestHand) -> Count
    requires { IsHandOf hands.now hand.old }
    ensures { IsHandOf hands.now hand.new × (number_of hand.new ≡ number_of hand.old) }
{
    let mut collected = Count::none();
    for _ in rt.forever() {
        let Some(slice) = hands.collect(rt, hand) else {
            break;
        };
        collected = collected.add(slice.number);
    }
    collected
}

fn work<R: Wait>(rt: &R, hands: &TestHands, mut hand: TestHand, code: &Code) -> (TestHand, Tally)
    requires { IsHandOf hands.now hand × (hands_count hands.now ≡ 4) × (body_of code.now ≡ hands_code hands.now) }
    ensures { IsHandOf hands.now result.0 × (number_of result.0 ≡ number_of hand) }
{
    let pushed = push_all(hands, &mut hand, code);
    let (taken, handed_in) = take_all(rt, hands, &mut hand, code);
    let collected = collect_all(rt, hands, &mut hand);
    (
        hand,
        Tally {
            pushed,
            taken,
            handed_in,
            collected,
        },
    )
}

fn work_two<R: Threads + Wait + Sync>(
    rt: &R,
    hands: &TestHands,
    one: TestHand,
    two: TestHand,
    code: &Code,
) -> (TestHand, TestHand, Tally)
    requires object { (hands_count hands.now ≡ 4) × (body_of code.now ≡ hands_code hands.now) }
    requires hands { IsHandOf hands.now one × IsHandOf hands.now two }
    ensures hands { IsHandOf hands.now result.0 × (number_of result.0 ≡ number_of one) × IsHandOf hands.now result.1 × (number_of result.1 ≡ number_of two) }
{
    let (a, b) = join(
        rt,
        move || -> (TestHand, Tally)
            requires { IsHandOf hands.now one × (hands_count hands.now ≡ 4) × (body_of code.now ≡ hands_code hands.now) }
            ensures { IsHandOf hands.entry.now result.0 × (number_of result.0 ≡ number_of one) }
        { work(rt, hands, one, code) },
        move || -> (TestHand, Tally)
            requires { IsHandOf hands.now two × (hands_count hands.now ≡ 4) × (body_of code.now ≡ hands_code hands.now) }
            ensures { IsHandOf hands.entry.now result.0 × (number_of result.0 ≡ number_of two) }
        { work(rt, hands, two, code) },
    );
    (a.0, b.0, a.1.plus(b.1))
}

/// What four hands did on threads of their own, and what was left of jobs and of slices.
pub fn run_four<R: Threads + Wait + Sync>(
    rt: &R,
    alloc: Global,
    code: &Code,
) -> Result<(Tally, Count, Count), NoMemory> {
    let (hands, list, (one, two), (three, four)) = four_hands(alloc, code)?;
    let shared = &hands;
    let (a, b) = join(
        rt,
        move || -> (TestHand, TestHand, Tally)
            requires { IsHandOf shared.now one × IsHandOf shared.now two × (hands_count shared.now ≡ 4) × (body_of code.now ≡ hands_code shared.now) × IsSync R.row }
            ensures { IsHandOf shared.entry.now result.0 × (number_of result.0 ≡ number_of one) × IsHandOf shared.entry.now result.1 × (number_of result.1 ≡ number_of two) }
        { work_two(rt, shared, one, two, code) },
        move || -> (TestHand, TestHand, Tally)
            requires { IsHandOf shared.now three × IsHandOf shared.now four × (hands_count shared.now ≡ 4) × (body_of code.now ≡ hands_code shared.now) × IsSync R.row }
            ensures { IsHandOf shared.entry.now result.0 × (number_of result.0 ≡ number_of three) × IsHandOf shared.entry.now result.1 × (number_of result.1 ≡ number_of four) }
        { work_two(rt, shared, three, four, code) },
    );
    let (one, two, tally) = a;
    let (three, four, more) = b;
    let mut left = close_four(hands, list, (one, two), (three, four));
    let mut jobs = Count::none();
    for _ in rt.forever() {
        let Some(job) = left.jobs.next() else {
            break;
        };
        jobs = jobs.add(job.number);
    }
    let mut slices = Count::none();
    for _ in rt.forever() {
        let Some(slice) = left.slices.next(rt) else {
            break;
        };
        slices = slices.add(slice.number);
    }
    Ok((tally.plus(more), jobs, slices))
}
