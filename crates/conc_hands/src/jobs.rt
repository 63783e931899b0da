//! The calls on jobs.
ghost use Rattle.std.specs.Prelude.{◌≡◌, ◌≢◌, ◌-◌, ◌<◌, ◌↔◌, ◌∷◌, ◌++◌, [], OnOk, IfErr, IsNone, MatchOption};
ghost use Rattle.conc_hands.specs.queues.QueueRule.{SameTickets, MetEmpty};
ghost use Rattle.conc_hands.specs.Hands.{hands_code, hands_count, IsHandOf, number_of, room_of, pushed_by, taken_by, own_view, SameJobs, SameSlices, SameFlags, FoundEmpty, TookJob};

use crate::ends::steal_at;
use crate::hand::Hand;
use crate::hands::Hands;
use hs_rules::Ticketed;
use std::sync::Wait;

impl<J: Ticketed, S: Ticketed> Hand<J, S> {
    /// Its place among the hands, from 0.
    pub fn number(&self) -> u32
        ensures { result ≡ number_of self.now }
    {
        self.jobs.number
    }

    /// How many pushes are sure to succeed.
    pub fn room(&self) -> usize
        ensures { result ≡ room_of self.now }
    {
        self.jobs.deque.room()
    }
}

impl<J: Ticketed, S: Ticketed> Hands<J, S> {
    /// Adds a job at the back of the hand's own deque. At `room` 0 the job may come back.
    pub fn push(&self, hand: &mut Hand<J, S>, job: J) -> Result<(), J>
        requires hand { IsHandOf self.now hand.old }
        requires job { J.belongs job ≡ hands_code self.now }
        ensures hand { IsHandOf self.now hand.new × (number_of hand.new ≡ number_of hand.old) }
        ensures room { room_of hand.new ≡ room_of hand.old - 1 }
        ensures ok { OnOk result (pushed_by hand.new ≡ pushed_by hand.old ++ J.number job ∷ []) }
        ensures err { IfErr result (λ x. (x ≡ job) × (pushed_by hand.new ≡ pushed_by hand.old) × (room_of hand.old ≡ 0)) }
        ensures others { (taken_by hand.new ≡ taken_by hand.old) × SameSlices hand.old hand.new × SameFlags hand.old hand.new }
    {
        hand.jobs.deque.push(job)
    }

    /// Takes the first job of the hand's own deque. `None` only where the deque was empty at a step of the call.
    pub fn pop(&self, hand: &mut Hand<J, S>) -> Option<J>
        requires { IsHandOf self.now hand.old }
        ensures hand { IsHandOf self.now hand.new × (number_of hand.new ≡ number_of hand.old) × (room_of hand.new ≡ room_of hand.old) }
        ensures job { MatchOption result (SameJobs hand.old hand.new × MetEmpty J.number J.belongs (own_view hand.old)) (TookJob J.number J.belongs (hands_code self.now) hand.old hand.new) }
        ensures alone { hands_count self.now ≡ 1 → IsNone result ↔ SameTickets (pushed_by hand.old) (taken_by hand.old) }
        ensures others { SameSlices hand.old hand.new × SameFlags hand.old hand.new }
    {
        hand.jobs.deque.pop()
    }

    /// Takes the first job of another hand's deque. `None` only where that deque was empty at a step of the call.
    pub fn steal<R: Wait>(&self, rt: &R, hand: &mut Hand<J, S>, from: u32) -> Option<J>
        requires hand { IsHandOf self.now hand.old }
        requires from { (from < hands_count self.now) × (from ≢ number_of hand.old) }
        ensures hand { IsHandOf self.now hand.new × (number_of hand.new ≡ number_of hand.old) × (room_of hand.new ≡ room_of hand.old) }
        ensures job { MatchOption result (SameJobs hand.old hand.new × FoundEmpty J.number J.belongs from hand.old) (TookJob J.number J.belongs (hands_code self.now) hand.old hand.new) }
        ensures others { SameSlices hand.old hand.new × SameFlags hand.old hand.new }
    {
        steal_at(rt, &self.doors, &mut hand.jobs, from)
    }
}
