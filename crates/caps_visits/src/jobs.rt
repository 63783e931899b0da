//! Where a capability finds a job outside the turn.
ghost use Rattle.std.specs.Prelude.{◌≡◌, ◌⊎◌, ◌<◌, ◌≤◌, IfSome};
ghost use Rattle.conc_hands.specs.Hands.{IsHandOf, number_of, hands_code, hands_count};

use crate::shared::{Planned, Shared};
use conc_hands::{Hand, Hands};
use hs_rules::Ticketed;
use std::hint;
use std::sync::Wait;

/// So many times it looks at the deques of others.
const LOOKS: u32 = 4;
/// How many hints to the processor it waits before each look: some microseconds, in which the owner mostly takes the job itself.
const PAUSE: u32 = 64;

/// The first job of its own deque, or one that another leaves on its own for some microseconds.
pub(crate) fn find_job<T: Planned, J: Ticketed, S: Ticketed, G, R: Wait>(
    rt: &R,
    shared: &Shared<'_, T, J, S, G>,
    hand: &mut Hand<J, S>,
) -> Option<J>
    requires { IsHandOf shared.now.hands.now hand.old }
    ensures hand { IsHandOf shared.now.hands.now hand.new }
    ensures job { IfSome result (λ job. J.belongs job ≡ hands_code shared.now.hands.now) }
{
    match shared.hands.pop(hand) {
        Some(job) => Some(job),
        None => steal_later(rt, shared, hand),
    }
}

// A job of another's deque, after a pause.
fn steal_later<T: Planned, J: Ticketed, S: Ticketed, G, R: Wait>(
    rt: &R,
    shared: &Shared<'_, T, J, S, G>,
    hand: &mut Hand<J, S>,
) -> Option<J>
    requires { IsHandOf shared.now.hands.now hand.old }
    ensures hand { IsHandOf shared.now.hands.now hand.new }
    ensures job { IfSome result (λ job. J.belongs job ≡ hands_code shared.now.hands.now) }
{
    for _ in 0..LOOKS {
        for _ in 0..PAUSE {
            hint::spin_loop();
        }
        if let Some(job) = steal_job(rt, shared, hand) {
            return Some(job);
        }
    }
    None
}

/// The first job of another's deque: in order of number, from the one after its own.
pub(crate) fn steal_job<T: Planned, J: Ticketed, S: Ticketed, G, R: Wait>(
    rt: &R,
    shared: &Shared<'_, T, J, S, G>,
    hand: &mut Hand<J, S>,
) -> Option<J>
    requires { IsHandOf shared.now.hands.now hand.old }
    ensures hand { IsHandOf shared.now.hands.now hand.new }
    ensures job { IfSome result (λ job. J.belongs job ≡ hands_code shared.now.hands.now) }
{
    let own = hand.number();
    let caps = shared.parkers.berths.len() as u32;
    match steal_among(rt, shared.hands, hand, own + 1, caps) {
        Some(job) => Some(job),
        None => steal_among(rt, shared.hands, hand, 0, own),
    }
}

// The first job of the deques of these numbers, among which its own isn't.
fn steal_among<J: Ticketed, S: Ticketed, R: Wait>(
    rt: &R,
    hands: &Hands<J, S>,
    hand: &mut Hand<J, S>,
    first: u32,
    end: u32,
) -> Option<J>
    requires hand { IsHandOf hands.now hand.old }
    requires others { (end ≤ hands_count hands.now) × ((end ≤ number_of hand.old) ⊎ (number_of hand.old < first)) }
    ensures hand { IsHandOf hands.now hand.new × (number_of hand.new ≡ number_of hand.old) }
    ensures job { IfSome result (λ job. J.belongs job ≡ hands_code hands.now) }
{
    for from in first..end {
        if let Some(job) = hands.steal(rt, hand, from) {
            return Some(job);
        }
    }
    None
}
