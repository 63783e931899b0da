//! What a hand does with the deques.
ghost use Rattle.std.specs.Prelude.{◌≡◌, ◌≢◌, ◌<◌, ◌∷◌, ◌++◌, [], Some, length, MatchOption};
ghost use Rattle.conc_hands.specs.queues.QueueRule.{SameTickets};
ghost use Rattle.conc_hands.specs.Ends.{IsEndOf, IsDealt, end_code, end_room, end_pushed, end_taken, EmptyAt};

use crate::hand::JobsEnd;
use crate::queues::Door;
use hs_rules::Ticketed;
use std::sync::Wait;

// Takes the first job of the deque at `from`.
pub(crate) fn steal_at<J: Ticketed, R: Wait>(
    rt: &R,
    doors: &Vec<Door<J>>,
    end: &mut JobsEnd<J>,
    from: u32,
) -> Option<J>
    requires end { IsEndOf doors.now.items end.old × IsDealt (length doors.now.items) end.old }
    requires from { (from < length doors.now.items) × (from ≢ end.old.number) }
    ensures end { IsEndOf doors.now.items end.new × IsDealt (length doors.now.items) end.new }
    ensures same { (end.new.number ≡ end.old.number) × (end.new.deque ≡ end.old.deque) × (end_pushed end.new ≡ end_pushed end.old) }
    ensures job { MatchOption result ((end_taken end.new ≡ end_taken end.old) × EmptyAt J.number J.belongs from end.old) (λ x. (Some (J.belongs x) ≡ end_code end.old) × SameTickets (end_taken end.new) (end_taken end.old ++ J.number x ∷ [])) }
{
    let at = from as usize;
    doors[at].steal(rt, &mut end.passes[at])
}
