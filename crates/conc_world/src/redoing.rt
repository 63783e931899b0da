//! Slices that come back to a thread which holds large values.
ghost use Rattle.std.specs.Prelude.{◌≡◌, None};
ghost use Rattle.thread_table.specs.Listing.{Goes};
ghost use Rattle.thread_table.specs.Table.{IsAt};
ghost use Rattle.conc_world.specs.Committing.{IsCommittedAnew, IsCommittedBy, TicketBack};

use crate::answers::{Committed, Made};
use crate::desk::Desk;
use crate::jobs::MOST_STEPS;
use frame_stack::Slice;
use hs_base::NoMemory;
use hs_io::{Clock, Sink};
use local_steps::equality::Effort;

/// A slice that comes back is compared in so many steps at most, ..
const FEW: u64 = 16;
/// .. and so many more for each of its rules, so that comparing it takes less time than making it anew.
const STEPS_A_RULE: u64 = 2;

impl<O: Sink, E: Sink, K: Clock> Desk<O, E, K> {
    /// `commit` in a time that the steps of a slice bound, whatever values its thread holds.
    ///
    /// Where the values of the slice's start can't be compared with those of the thread in a few steps for each of its rules, it
    /// is dropped, and a slice of the same thread, ticket and code is made anew where the thread stands, and committed: that needs no
    /// comparison. Such a one is `Taken`, or memory is refused; no other answer comes of it.
    pub fn commit_or_redo(&mut self, slice: Slice) -> (Committed, Made)
        requires code { slice.of.value ≡ self.old.course.clocked.record.of.value }
        ensures committed { IsCommittedBy result.1 result.0 slice self.old.course.end self.old.course.clocked.record self.new.course.end self.new.course.clocked.record }
        ensures ticket { TicketBack result.0 slice.ticket self.old.tickets self.new.tickets }
        ensures lent { (self.new.course.out_lent ≡ self.old.course.out_lent) × (self.new.course.err_lent ≡ self.old.course.err_lent) × (self.new.course.clocked.lent ≡ self.old.course.clocked.lent) }
        ensures kept { (self.new.course.out ≡ self.old.course.out) × (self.new.course.err ≡ self.old.course.err) × (self.new.course.clocked.clock ≡ self.old.course.clocked.clock) }
        ensures given { self.new.given ≡ self.old.given }
        ensures code { self.new.code ≡ self.old.code }
    {
        let mut effort = Effort::Steps(FEW + STEPS_A_RULE * u64::from(slice.steps));
        let Ok(found) = self.refusal(&slice, &mut effort) else {
            return (self.redo(&slice), Made::Anew);
        };
        if let Some(refused) = found {
            self.take_back(refused, slice.ticket);
            return (refused, Made::Before);
        }
        (self.commit_fresh(slice), Made::Before)
    }

    /// Makes a slice of this one's job anew, where its thread stands, and commits it.
    fn redo(&mut self, late: &Slice) -> Committed
        requires none { self.old.course.end ≡ None }
        requires code { late.now.of.value ≡ self.old.course.clocked.record.of.value }
        requires goes { IsAt late.now.tid Goes self.old.course.clocked.record.world.threads.list.items }
        ensures committed { IsCommittedAnew result late.now self.old.course.end self.old.course.clocked.record self.new.course.end self.new.course.clocked.record }
        ensures ticket { TicketBack result late.now.ticket self.old.tickets self.new.tickets }
        ensures lent { (self.new.course.out_lent ≡ self.old.course.out_lent) × (self.new.course.err_lent ≡ self.old.course.err_lent) × (self.new.course.clocked.lent ≡ self.old.course.clocked.lent) }
        ensures kept { (self.new.course.out ≡ self.old.course.out) × (self.new.course.err ≡ self.old.course.err) × (self.new.course.clocked.clock ≡ self.old.course.clocked.clock) }
        ensures given { self.new.given ≡ self.old.given }
        ensures code { self.new.code ≡ self.old.code }
    {
        match self.slice_of(late.tid, late.ticket, MOST_STEPS) {
            Ok(slice) => self.commit_fresh(slice),
            Err(NoMemory) => {
                self.no_memory();
                Committed::NoMemory
            }
        }
    }
}
