//! The calls on the cut flags.
ghost use Rattle.std.specs.Prelude.{◌≡◌, ◌%◌, ◌∷◌, ◌++◌, []};
ghost use Rattle.conc_hands.specs.flags.FlagsRule.{reading};
ghost use Rattle.conc_hands.specs.Hands.{IsHandOf, number_of, room_of, raised_by, read_by, SameJobs, SameSlices};

use crate::hand::Hand;
use crate::hands::Hands;
use hs_rules::Ticketed;

impl<J: Ticketed, S: Ticketed> Hands<J, S> {
    /// Stores the ticket in flag word `ticket mod 64`. A later raise may replace it. Takes no memory and doesn't wait.
    pub fn raise(&self, hand: &mut Hand<J, S>, ticket: u64)
        requires { IsHandOf self.now hand.old }
        ensures hand { IsHandOf self.now hand.new × (number_of hand.new ≡ number_of hand.old) × (room_of hand.new ≡ room_of hand.old) }
        ensures raised { (raised_by hand.new ≡ raised_by hand.old ++ ticket ∷ []) × (read_by hand.new ≡ read_by hand.old) }
        ensures others { SameJobs hand.old hand.new × SameSlices hand.old hand.new }
    {
        self.flags.raise(&mut hand.pen, ticket);
    }

    /// What flag word `ticket mod 64` holds. Takes no memory and doesn't wait.
    pub fn raised(&self, hand: &mut Hand<J, S>, ticket: u64) -> u64
        requires { IsHandOf self.now hand.old }
        ensures hand { IsHandOf self.now hand.new × (number_of hand.new ≡ number_of hand.old) × (room_of hand.new ≡ room_of hand.old) }
        ensures read { (raised_by hand.new ≡ raised_by hand.old) × (read_by hand.new ≡ read_by hand.old ++ reading (ticket % 64) result ∷ []) }
        ensures others { SameJobs hand.old hand.new × SameSlices hand.old hand.new }
    {
        self.flags.raised(&mut hand.pen, ticket)
    }
}
