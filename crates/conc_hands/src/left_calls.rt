//! Taking out what is left.
ghost use Rattle.std.specs.Prelude.{◌≡◌, ◌+◌, ◌<◌, ◌≤◌, ◌∷◌, [], List, ℕ, length, MatchOption};
ghost use Rattle.conc_hands.specs.Gathering.{ends_in, AreWhole, AreEmptyBelow, AreJobsIn, SameTotals, TotalsTaken, IsEmptyAt};
ghost use Rattle.conc_hands.specs.Left.{AreJobs, AreSlices};

use crate::hand::Hand;
use crate::left::{JobsLeft, SlicesLeft};
use hs_rules::Ticketed;
use std::sync::Wait;

impl<J: Ticketed, S: Ticketed> JobsLeft<J, S> {
    /// Takes one job out. `None` exactly where none is left. Doesn't wait.
    pub fn next(&mut self) -> Option<J>
        ensures { MatchOption result (AreJobs self.old []) (λ x. (left : List ℕ) → AreJobs self.new left → AreJobs self.old (J.number x ∷ left)) }
    {
        let (job, at) = next_job(&mut self.hands, self.at);
        self.at = at;
        job
    }
}

impl<S: Ticketed + Drop> SlicesLeft<S> {
    /// Takes one slice out. `None` exactly where none is left.
    pub fn next<R: Wait>(&mut self, rt: &R) -> Option<S>
        ensures { MatchOption result (AreSlices self.old []) (λ x. (left : List ℕ) → AreSlices self.new left → AreSlices self.old (S.number x ∷ left)) }
    {
        self.inbox.take(rt, &mut self.pass)
    }
}

// The first job of the first deque that has one, from this place on, and the place.
fn next_job<J: Ticketed, S: Ticketed>(
    hands: &mut Vec<Hand<J, S>>,
    from: usize,
) -> (Option<J>, usize)
    requires whole { AreWhole (ends_in hands.old.items) }
    requires below { AreEmptyBelow from (ends_in hands.old.items) }
    ensures whole { AreWhole (ends_in hands.new.items) }
    ensures below { AreEmptyBelow result.1 (ends_in hands.new.items) }
    ensures job { MatchOption result.0 (AreJobsIn (ends_in hands.old.items) []) (λ x. (left : List ℕ) → AreJobsIn (ends_in hands.new.items) left → AreJobsIn (ends_in hands.old.items) (J.number x ∷ left)) }
{
    let mut at = from;
    while at < hands.len() {
        if let Some(job) = pop_at(hands, at) {
            return (Some(job), at);
        }
        at += 1;
    }
    (None, at)
}

// The first job of one deque.
fn pop_at<J: Ticketed, S: Ticketed>(hands: &mut Vec<Hand<J, S>>, at: usize) -> Option<J>
    requires at { at < length hands.old.items }
    requires whole { AreWhole (ends_in hands.old.items) }
    ensures count { length hands.new.items ≡ length hands.old.items }
    ensures whole { AreWhole (ends_in hands.new.items) }
    ensures below { AreEmptyBelow at (ends_in hands.old.items) → AreEmptyBelow at (ends_in hands.new.items) }
    ensures job { MatchOption result (SameTotals (ends_in hands.old.items) (ends_in hands.new.items) × IsEmptyAt at (ends_in hands.new.items)) (λ x. TotalsTaken (J.number x) (ends_in hands.old.items) (ends_in hands.new.items)) }
{
    hands[at].jobs.deque.pop()
}
