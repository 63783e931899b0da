//! The end of the hands.
ghost use Rattle.std.specs.Prelude.{◌≡◌, ◌++◌, List, ℕ, length};
ghost use Rattle.conc_hands.specs.queues.QueueRule.{SameTickets};
ghost use Rattle.conc_hands.specs.flags.FlagsRule.{OnlyRaised};
ghost use Rattle.conc_hands.specs.Lists.{hands_in, all_pushed, all_taken, all_handed_in, all_collected, all_raised, all_read};
ghost use Rattle.conc_hands.specs.Left.{AreJobs, AreSlices, AreAllHands};

use crate::gather::{gather_jobs, gather_rights};
use crate::hands::Hands;
use crate::left::{JobsLeft, Leftover, SlicesLeft};
use crate::list::HandList;
use hs_rules::Ticketed;

impl<J: Ticketed + Drop, S: Ticketed + Drop> Hands<J, S> {
    /// Hands out what was never taken, with all hands of the object. Takes no memory and doesn't wait.
    pub fn close(self, hands: HandList<J, S>) -> Leftover<J, S>
        requires { AreAllHands self (hands_in hands) }
        ensures jobs { (left : List ℕ) → AreJobs result.jobs left → SameTickets (all_pushed (hands_in hands)) (all_taken (hands_in hands) ++ left) }
        ensures slices { (left : List ℕ) → AreSlices result.slices left → SameTickets (all_handed_in (hands_in hands)) (all_collected (hands_in hands) ++ left) }
        ensures flags { OnlyRaised (all_raised (hands_in hands)) (all_read (hands_in hands)) }
    {
        let Hands {
            doors,
            inbox,
            flags,
        } = self;
        let HandList { mut hands } = hands;
        let (pass, pen) = gather_rights(&inbox, &flags, &mut hands);
        flags.close(pen);
        gather_jobs(&doors, &mut hands);
        Leftover {
            jobs: JobsLeft { hands, at: 0 },
            slices: SlicesLeft { inbox, pass },
        }
    }
}
