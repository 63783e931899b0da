//! Calls of the record that leave the clock alone.
ghost use Rattle.std.specs.Prelude.{◌≡◌, ◌<◌, ◌≤◌, ◌+◌, ℕ, None, OnErr, IfOk, IfSome, IfNone, IsSome, MatchOption, nat_eq};
ghost use Rattle.std.specs.HashMap.{get};
ghost use Rattle.hs_rules.specs.Histories.{steps_of};
ghost use Rattle.thread_table.specs.Listing as at;
ghost use Rattle.thread_table.specs.Table.{IsAt};
ghost use Rattle.world_entries.specs.Worlds.{Goes, Starts};
ghost use Rattle.run_course.specs.declared.history.acts.Next.TheVariants as next;
ghost use Rattle.run_course.specs.history.Acts.{entry_of};
ghost use Rattle.run_course.specs.history.Records.{IsAccepted, IsNext, Same, Appended, Prints, WouldExceed};

use crate::clocked::clocked::Clocked;
use crate::history::{Next, NextEntry};
use frame_stack::Slice;
use hs_base::NoMemory;
use hs_io::Clock;
use hs_rules::LimitKind;
use std::collections::HashMap;

impl<K: Clock> Clocked<K> {
    /// What can be done next.
    pub fn next(&mut self) -> Next
        ensures next { IsNext result self.new.record }
        ensures same { Same self.old.record self.new.record }
        ensures clock { self.new.clock ≡ self.old.clock }
        ensures lent { self.new.lent ≡ self.old.lent }
    {
        self.record.next()
    }

    /// Appends the entry of an act, which prints so many bytes, or answers the limit that it would exceed.
    pub fn act(&mut self, act: NextEntry, bytes: usize) -> Result<Option<LimitKind>, NoMemory>
        requires next { IsNext (next.Act act) self.old.record }
        requires fuel { steps_of self.old.record.history.list < self.old.record.fuel }
        requires bytes { Prints bytes act self.old.record }
        ensures ok { IfOk result (λ over. MatchOption over (Appended (entry_of act) self.old.record self.new.record) (λ kind. Same self.old.record self.new.record × WouldExceed kind (entry_of act) self.old.record)) }
        ensures err { OnErr result (Same self.old.record self.new.record) }
        ensures clock { self.new.clock ≡ self.old.clock }
        ensures lent { self.new.lent ≡ self.old.lent }
    {
        self.record.act(act, bytes)
    }

    /// Appends the local rules of a slice that starts where its thread stands, or answers that they would exceed the limit of
    /// frames. The slice is dropped.
    pub fn accept(&mut self, slice: Slice) -> Result<Option<LimitKind>, NoMemory>
        requires goes { Goes self.old.record.world }
        requires code { slice.of.value ≡ self.old.record.of.value }
        requires starts { Starts slice self.old.record.world }
        requires fuel { steps_of self.old.record.history.list + slice.steps ≤ self.old.record.fuel }
        ensures ok { IfOk result (λ over. IsAccepted slice over self.old.record self.new.record) }
        ensures err { OnErr result (Same self.old.record self.new.record) }
        ensures clock { self.new.clock ≡ self.old.clock }
        ensures lent { self.new.lent ≡ self.old.lent }
    {
        self.record.accept(slice)
    }

    /// A thread of which a job may be made: it is to do an action, and `out` doesn't have it.
    pub fn next_ready(&mut self, out: &HashMap<u32, u64>) -> Option<u32>
        ensures some { IfSome result (λ t. IsAt t at.Goes self.new.record.world.threads.list.items × (get nat_eq out.now t ≡ None)) }
        ensures none { IfNone result ((t : ℕ) → IsAt t at.Goes self.new.record.world.threads.list.items → IsSome (get nat_eq out.now t)) }
        ensures same { Same self.old.record self.new.record }
        ensures clock { self.new.clock ≡ self.old.clock }
        ensures lent { self.new.lent ≡ self.old.lent }
    {
        self.record.next_ready(out)
    }
}
