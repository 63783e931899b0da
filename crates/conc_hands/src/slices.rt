//! The calls on slices.
ghost use Rattle.std.specs.Prelude.{◌≡◌, ◌↔◌, ◌∷◌, ◌++◌, [], OnOk, IfErr, IsNone, MatchOption};
ghost use Rattle.conc_hands.specs.queues.QueueRule.{SameTickets, MetEmpty};
ghost use Rattle.conc_hands.specs.Hands.{hands_code, hands_count, IsHandOf, number_of, room_of, handed_in_by, collected_by, inbox_view_of, SameJobs, SameSlices, SameFlags, CollectedSlice};

use crate::hand::Hand;
use crate::hands::Hands;
use hs_rules::Ticketed;
use std::sync::Wait;

impl<J: Ticketed, S: Ticketed + Drop> Hands<J, S> {
    /// Adds a slice at the back of the inbox, or hands it back.
    pub fn hand_in<R: Wait>(&self, rt: &R, hand: &mut Hand<J, S>, slice: S) -> Result<(), S>
        requires hand { IsHandOf self.now hand.old }
        requires slice { S.belongs slice ≡ hands_code self.now }
        ensures hand { IsHandOf self.now hand.new × (number_of hand.new ≡ number_of hand.old) × (room_of hand.new ≡ room_of hand.old) }
        ensures ok { OnOk result ((handed_in_by hand.new ≡ handed_in_by hand.old ++ S.number slice ∷ []) × (collected_by hand.new ≡ collected_by hand.old)) }
        ensures err { IfErr result (λ x. (x ≡ slice) × SameSlices hand.old hand.new) }
        ensures others { SameJobs hand.old hand.new × SameFlags hand.old hand.new }
    {
        self.inbox.put(rt, &mut hand.post, slice)
    }

    /// Takes the first slice of the inbox. `None` only where the inbox was empty at a step of the call.
    pub fn collect<R: Wait>(&self, rt: &R, hand: &mut Hand<J, S>) -> Option<S>
        requires { IsHandOf self.now hand.old }
        ensures hand { IsHandOf self.now hand.new × (number_of hand.new ≡ number_of hand.old) × (room_of hand.new ≡ room_of hand.old) }
        ensures slice { MatchOption result (SameSlices hand.old hand.new × MetEmpty S.number S.belongs (inbox_view_of hand.old)) (CollectedSlice S.number S.belongs (hands_code self.now) hand.old hand.new) }
        ensures alone { hands_count self.now ≡ 1 → IsNone result ↔ SameTickets (handed_in_by hand.old) (collected_by hand.old) }
        ensures others { SameJobs hand.old hand.new × SameFlags hand.old hand.new }
    {
        self.inbox.take(rt, &mut hand.post)
    }
}
