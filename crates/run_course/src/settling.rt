//! Settling: entries that are legal now, until only slices are left.
ghost use Rattle.std.specs.Prelude.{◌≡◌, ◌<◌, ◌≤◌, ◌+◌, ◌⊎◌, ◌≢◌, ℕ, None, Some, OnOk, OnErr, IfOk, IfSome, IfNone, IsSome, MatchOption, true, false, nat_eq};
ghost use Rattle.std.specs.HashMap.{get};
ghost use Rattle.hs_rules.specs.Histories.{steps_of};
ghost use Rattle.hs_rules.specs.declared.entry.Entry.TheVariants as entry;
ghost use Rattle.thread_table.specs.Listing as at;
ghost use Rattle.thread_table.specs.Table.{IsAt};
ghost use Rattle.world_entries.specs.Worlds.{Goes, Starts};
ghost use Rattle.run_course.specs.declared.history.acts.Next.TheVariants as next;
ghost use Rattle.run_course.specs.history.Records.{IsAccepted, IsNext, Same, Appended};
ghost use Rattle.run_course.specs.clocked.Clocks.{work, Looked};
ghost use Rattle.run_course.specs.declared.ends.RunEnd.TheVariants as end;
ghost use Rattle.run_course.specs.Endings.{EndsBy, IsConcluded, IsOpen};
ghost use Rattle.run_course.specs.Settled.{Accepted, Begins, GoesBy, GoesOn, IsAtRest, KeepsPlan, OnlyGoes};

use crate::course::Course;
use crate::ends::RunEnd;
use crate::history::{Next, NextEntry, Record};
use frame_stack::Slice;
use hs_base::NoMemory;
use hs_io::{Clock, Sink};
use hs_rules::{Entry, LimitKind};
use std::collections::HashMap;

/// The ending that holds, by what can be done next.
fn ending_of(run: &Record, next: Next) -> Option<RunEnd>
    requires { IsNext next run.now }
    ensures { MatchOption result (IsOpen run.now × GoesBy next) (λ ended. EndsBy ended run.now) }
{
    match next {
        Next::Over(true) => Some(RunEnd::Done),
        Next::Over(false) => Some(RunEnd::Uncaught),
        Next::Stuck => Some(RunEnd::Deadlock),
        Next::Act(_) => spent(run),
        Next::Goes => spent(run),
        Next::Sleeps(_) => spent(run),
    }
}

/// The ending of a run that could go on.
fn spent(run: &Record) -> Option<RunEnd>
    ensures { MatchOption result (steps_of run.now.history.list < run.now.fuel) (λ ended. (ended ≡ end.Fuel) × (run.now.fuel ≤ steps_of run.now.history.list)) }
{
    if run.out_of_fuel() {
        Some(RunEnd::Fuel)
    } else {
        None
    }
}

impl<O: Sink, E: Sink, K: Clock> Course<O, E, K> {
    /// Appends entries until there is an ending, or nothing is legal but Ticks and local rules of threads that are to do an
    /// action, and there is such a thread. Where memory runs out the ending is Memory.
    pub fn settle(&mut self) -> Result<(), NoMemory>
        ensures settled { OnOk result (IsAtRest self.new.end self.new.clocked.record) }
        ensures memory { OnOk result (self.new.end ≡ Some end.Memory → self.old.end ≡ Some end.Memory) }
        ensures err { OnErr result ((self.old.end ≡ None) × (self.new.end ≡ Some end.Memory)) }
        ensures goes { GoesOn self.old.end self.old.clocked.record.history.list self.new.end self.new.clocked.record.history.list }
        ensures plan { KeepsPlan self.old.clocked.record self.new.clocked.record }
        ensures lent { (self.new.out_lent ≡ self.old.out_lent) × (self.new.err_lent ≡ self.old.err_lent) × (self.new.clocked.lent ≡ self.old.clocked.lent) }
        ensures over { IsSome self.old.end → (self.new.out ≡ self.old.out) × (self.new.err ≡ self.old.err) × (self.new.clocked.clock ≡ self.old.clocked.clock) }
    {
        let settled = self.settle_on();
        if settled.is_err() {
            self.give_up();
        }
        settled
    }

    /// The same, but that want of memory is left to the caller.
    fn settle_on(&mut self) -> Result<(), NoMemory>
        ensures settled { OnOk result (IsAtRest self.new.end self.new.clocked.record) }
        ensures memory { OnOk result (self.new.end ≡ Some end.Memory → self.old.end ≡ Some end.Memory) }
        ensures err { OnErr result ((self.old.end ≡ None) × (self.new.end ≡ None)) }
        ensures goes { GoesOn self.old.end self.old.clocked.record.history.list self.new.end self.new.clocked.record.history.list }
        ensures plan { KeepsPlan self.old.clocked.record self.new.clocked.record }
        ensures lent { (self.new.out_lent ≡ self.old.out_lent) × (self.new.err_lent ≡ self.old.err_lent) × (self.new.clocked.lent ≡ self.old.clocked.lent) }
        ensures over { IsSome self.old.end → (self.new.out ≡ self.old.out) × (self.new.err ≡ self.old.err) × (self.new.clocked.clock ≡ self.old.clocked.clock) }
    {
        let mut read = false;
        let mut rests = false;
        while !rests && self.end.is_none() {
            rests = self.turn(&mut read)?;
        }
        Ok(())
    }

    /// What is next: the ending that holds, or one entry. Answers whether nothing is left but slices.
    fn turn(&mut self, read: &mut bool) -> Result<bool, NoMemory>
        requires none { self.old.end ≡ None }
        ensures rests { IfOk result (λ rests. rests ≡ true → (self.new.end ≡ None) × OnlyGoes self.new.clocked.record × IsOpen self.new.clocked.record) }
        ensures more { IfOk result (λ rests. rests ≡ false → IsSome self.new.end ⊎ (steps_of self.old.clocked.record.history.list < steps_of self.new.clocked.record.history.list)) }
        ensures memory { OnOk result (self.new.end ≢ Some end.Memory) }
        ensures err { OnErr result (self.new.end ≡ None) }
        ensures begins { Begins self.old.clocked.record.history.list self.new.clocked.record.history.list }
        ensures plan { KeepsPlan self.old.clocked.record self.new.clocked.record }
        ensures lent { (self.new.out_lent ≡ self.old.out_lent) × (self.new.err_lent ≡ self.old.err_lent) × (self.new.clocked.lent ≡ self.old.clocked.lent) }
    {
        let next = self.clocked.next();
        if self.ends(next) {
            return Ok(false);
        }
        match next {
            Next::Act(act) => self.look_and_act(act, read),
            Next::Goes => {
                let ticked = self.look(None, read)?;
                Ok(!ticked)
            }
            Next::Sleeps(due) => {
                self.sleep(due)?;
                Ok(false)
            }
            Next::Over(_) | Next::Stuck => unreachable!(),
        }
    }

    /// Whether an ending holds, by what can be done next; it is set.
    fn ends(&mut self, next: Next) -> bool
        requires none { self.old.end ≡ None }
        requires next { IsNext next self.old.clocked.record }
        ensures concluded { IsConcluded self.new.end self.new.clocked.record }
        ensures ends { result ≡ true → IsSome self.new.end }
        ensures goes { result ≡ false → (self.new.end ≡ None) × GoesBy next }
        ensures clocked { self.new.clocked ≡ self.old.clocked }
        ensures lent { (self.new.out_lent ≡ self.old.out_lent) × (self.new.err_lent ≡ self.old.err_lent) }
        ensures kept { (self.new.out ≡ self.old.out) × (self.new.err ≡ self.old.err) }
    {
        match ending_of(&self.clocked.record, next) {
            Some(end) => {
                self.end = Some(end);
                true
            }
            None => false,
        }
    }

    /// Sets the ending that holds, if any.
    pub fn conclude(&mut self)
        requires none { self.old.end ≡ None }
        ensures concluded { IsConcluded self.new.end self.new.clocked.record }
        ensures same { Same self.old.clocked.record self.new.clocked.record }
        ensures lent { (self.new.out_lent ≡ self.old.out_lent) × (self.new.err_lent ≡ self.old.err_lent) × (self.new.clocked.lent ≡ self.old.clocked.lent) }
        ensures kept { (self.new.out ≡ self.old.out) × (self.new.err ≡ self.old.err) × (self.new.clocked.clock ≡ self.old.clocked.clock) }
    {
        let next = self.clocked.next();
        let _ = self.ends(next);
    }

    /// An act, unless the clock has gone on, which is entered then.
    fn look_and_act(&mut self, act: NextEntry, read: &mut bool) -> Result<bool, NoMemory>
        requires none { self.old.end ≡ None }
        requires next { IsNext (next.Act act) self.old.clocked.record }
        requires fuel { steps_of self.old.clocked.record.history.list < self.old.clocked.record.fuel }
        ensures ok { IfOk result (λ rests. (rests ≡ false) × (IsSome self.new.end ⊎ (steps_of self.old.clocked.record.history.list < steps_of self.new.clocked.record.history.list))) }
        ensures memory { OnOk result (self.new.end ≢ Some end.Memory) }
        ensures err { OnErr result (self.new.end ≡ None) }
        ensures begins { Begins self.old.clocked.record.history.list self.new.clocked.record.history.list }
        ensures plan { KeepsPlan self.old.clocked.record self.new.clocked.record }
        ensures lent { (self.new.out_lent ≡ self.old.out_lent) × (self.new.err_lent ≡ self.old.err_lent) × (self.new.clocked.lent ≡ self.old.clocked.lent) }
    {
        if !self.look(Some(act), read)? {
            self.act(act)?;
        }
        Ok(false)
    }

    /// Reads the clock where other work is next; answers whether a Tick was entered.
    fn look(&mut self, act: Option<NextEntry>, read: &mut bool) -> Result<bool, NoMemory>
        requires none { self.old.end ≡ None }
        requires next { IsNext (work act) self.old.clocked.record }
        requires fuel { steps_of self.old.clocked.record.history.list < self.old.clocked.record.fuel }
        ensures ok { IfOk result (λ ticked. Looked ticked self.old.clocked.record self.new.clocked.record) }
        ensures err { OnErr result (Same self.old.clocked.record self.new.clocked.record) }
        ensures end { self.new.end ≡ None }
        ensures lent { (self.new.out_lent ≡ self.old.out_lent) × (self.new.err_lent ≡ self.old.err_lent) × (self.new.clocked.lent ≡ self.old.clocked.lent) }
    {
        self.clocked.look(act, read)
    }

    /// Waits until the first sleeper may wake, and enters the next reading.
    fn sleep(&mut self, due: u64) -> Result<(), NoMemory>
        requires none { self.old.end ≡ None }
        requires next { IsNext (next.Sleeps due) self.old.clocked.record }
        requires fuel { steps_of self.old.clocked.record.history.list < self.old.clocked.record.fuel }
        ensures ok { OnOk result ((at : ℕ) × Appended (entry.Tick at) self.old.clocked.record self.new.clocked.record) }
        ensures err { OnErr result (Same self.old.clocked.record self.new.clocked.record) }
        ensures end { self.new.end ≡ None }
        ensures lent { (self.new.out_lent ≡ self.old.out_lent) × (self.new.err_lent ≡ self.old.err_lent) × (self.new.clocked.lent ≡ self.old.clocked.lent) }
    {
        self.clocked.sleep(due)
    }

    /// Appends the local rules of a slice that starts where its thread stands, and sets the ending that then holds; or sets the
    /// ending where they would exceed the limit of frames. The slice is dropped.
    pub fn accept(&mut self, slice: Slice) -> Result<(), NoMemory>
        requires none { self.old.end ≡ None }
        requires goes { Goes self.old.clocked.record.world }
        requires code { slice.of.value ≡ self.old.clocked.record.of.value }
        requires starts { Starts slice self.old.clocked.record.world }
        requires fuel { steps_of self.old.clocked.record.history.list + slice.steps ≤ self.old.clocked.record.fuel }
        ensures ok { OnOk result (Accepted slice self.new.end self.old.clocked.record self.new.clocked.record) }
        ensures err { OnErr result (Same self.old.clocked.record self.new.clocked.record × (self.new.end ≡ None)) }
        ensures lent { (self.new.out_lent ≡ self.old.out_lent) × (self.new.err_lent ≡ self.old.err_lent) × (self.new.clocked.lent ≡ self.old.clocked.lent) }
        ensures kept { (self.new.out ≡ self.old.out) × (self.new.err ≡ self.old.err) × (self.new.clocked.clock ≡ self.old.clocked.clock) }
    {
        let t = slice.tid;
        let k = slice.steps;
        match self.append(slice)? {
            Some(kind) => self.end = Some(RunEnd::Limit(kind, Entry::Local { t, k })),
            None => self.conclude(),
        }
        Ok(())
    }

    /// The same, but that the ending is left to the caller.
    fn append(&mut self, slice: Slice) -> Result<Option<LimitKind>, NoMemory>
        requires none { self.old.end ≡ None }
        requires goes { Goes self.old.clocked.record.world }
        requires code { slice.of.value ≡ self.old.clocked.record.of.value }
        requires starts { Starts slice self.old.clocked.record.world }
        requires fuel { steps_of self.old.clocked.record.history.list + slice.steps ≤ self.old.clocked.record.fuel }
        ensures ok { IfOk result (λ over. IsAccepted slice over self.old.clocked.record self.new.clocked.record) }
        ensures err { OnErr result (Same self.old.clocked.record self.new.clocked.record) }
        ensures end { self.new.end ≡ None }
        ensures lent { (self.new.out_lent ≡ self.old.out_lent) × (self.new.err_lent ≡ self.old.err_lent) × (self.new.clocked.lent ≡ self.old.clocked.lent) }
        ensures kept { (self.new.out ≡ self.old.out) × (self.new.err ≡ self.old.err) × (self.new.clocked.clock ≡ self.old.clocked.clock) }
    {
        self.clocked.accept(slice)
    }

    /// A thread of which a job may be made: it is to do an action, and `out` doesn't have it.
    pub fn next_ready(&mut self, out: &HashMap<u32, u64>) -> Option<u32>
        requires none { self.old.end ≡ None }
        ensures some { IfSome result (λ t. IsAt t at.Goes self.new.clocked.record.world.threads.list.items × (get nat_eq out.now t ≡ None)) }
        ensures none { IfNone result ((t : ℕ) → IsAt t at.Goes self.new.clocked.record.world.threads.list.items → IsSome (get nat_eq out.now t)) }
        ensures same { Same self.old.clocked.record self.new.clocked.record }
        ensures end { self.new.end ≡ None }
        ensures lent { (self.new.out_lent ≡ self.old.out_lent) × (self.new.err_lent ≡ self.old.err_lent) × (self.new.clocked.lent ≡ self.old.clocked.lent) }
        ensures kept { (self.new.out ≡ self.old.out) × (self.new.err ≡ self.old.err) × (self.new.clocked.clock ≡ self.old.clocked.clock) }
    {
        self.clocked.next_ready(out)
    }
}
