//! Slices that come back.
ghost use Rattle.std.specs.Prelude.{◌≡◌, ◌≤◌, ◌↔◌, true, IsTrue, IfOk, MatchOption, None, OnOk, OnErr};
ghost use Rattle.hs_base.specs.declared.mask.Mask.TheVariants.{Unmasked};
ghost use Rattle.local_steps.specs.Frames.{mask_inside};
ghost use Rattle.local_steps.specs.equality.Efforts.{IsEndless};
ghost use Rattle.thread_table.specs.Listing.{Goes, is_doing};
ghost use Rattle.thread_table.specs.Table.{IsAt};
ghost use Rattle.world_entries.specs.Worlds.{Starts};
ghost use Rattle.frame_stack.specs.Slicing.{IsDoing};
ghost use Rattle.run_course.specs.history.Records.{Same};
ghost use Rattle.run_course.specs.Settled.{Accepted};
ghost use Rattle.conc_world.specs.Jobs.{left};
ghost use Rattle.conc_world.specs.Committing.{IsCommitted, IsRefused, IsStale, IsTakenOrRefused, MayBeTaken, TicketBack};

use crate::answers::{Committed, Why};
use crate::desk::Desk;
use frame_stack::{Control, Slice};
use hs_base::NoMemory;
use hs_io::{Clock, Sink};
use local_steps::equality::{Effort, Undecided, compare_envs};
use run_course::history::Record;
use thread_table::Thread;

/// Whether a control is the start of a slice: to do the same action with the same values. Only where these are compared the
/// effort may not do.
fn compare_starts(
    control: &Control,
    start: &Control,
    effort: &mut Effort,
) -> Result<bool, Undecided>
    requires { IsDoing start.now }
    ensures same { IfOk result (λ same. IsTrue same ↔ (control.now ≡ start.now)) }
    ensures err { OnErr result (IsEndless effort.old → ⊥) }
    ensures doing { OnErr result (is_doing control.now ≡ true) }
{
    let Control::Doing(b, y) = start else {
        unreachable!()
    };
    match control {
        Control::Doing(a, x) => {
            if *a != *b {
                return Ok(false);
            }
            compare_envs(x, y, effort)
        }
        _ => Ok(false),
    }
}

/// Whether a slice starts with the control and the masking state of a thread.
fn starts_at(thread: &Thread, slice: &Slice, effort: &mut Effort) -> Result<bool, Undecided>
    ensures same { IfOk result (λ same. IsTrue same ↔ ((thread.now.stack.control ≡ slice.now.start) × (mask_inside Unmasked thread.now.stack.frames ≡ slice.now.mask))) }
    ensures err { OnErr result (IsEndless effort.old → ⊥) }
    ensures doing { OnErr result (is_doing thread.now.stack.control ≡ true) }
{
    if thread.stack.mask() != slice.mask {
        return Ok(false);
    }
    compare_starts(thread.stack.control(), &slice.start, effort)
}

/// Why a slice doesn't start where its thread is, if it doesn't. Undecided only where the thread is to do an action.
fn stale(run: &Record, slice: &Slice, effort: &mut Effort) -> Result<Option<Why>, Undecided>
    ensures stale { IfOk result (λ found. MatchOption found (Starts slice.now run.now.world) (λ why. IsStale why slice.now run.now)) }
    ensures err { OnErr result (IsEndless effort.old → ⊥) }
    ensures goes { OnErr result (IsAt slice.now.tid Goes run.now.world.threads.list.items) }
{
    let Some(thread) = run.world.threads.list.get(slice.tid as usize) else {
        return Ok(Some(Why::Finished));
    };
    if thread.finished {
        return Ok(Some(Why::Finished));
    }
    if thread.blocked {
        return Ok(Some(Why::Blocked));
    }
    let there = starts_at(thread, slice, effort)?;
    if there {
        Ok(None)
    } else {
        Ok(Some(Why::Differs))
    }
}

impl<O: Sink, E: Sink, K: Clock> Desk<O, E, K> {
    /// Appends the local rules of a slice of this desk's code, and sets the ending that then holds; or says why not.
    ///
    /// In this order: `Ended` where there is an ending, `Stale` where no thread of that number is unfinished, or it is blocked,
    /// or its control or masking state isn't the slice's start, `Short` with the fuel that is left where the steps exceed it.
    /// `Taken` in every other case, also where the limit of frames would be exceeded: then nothing is appended, and that is
    /// the ending. Where memory runs out nothing is appended, and the ending is Memory. It compares the values that the thread
    /// holds with those of the slice's start, and takes as long as these are large, a part counted as often as it is reached:
    /// `commit_or_redo` doesn't.
    pub fn commit(&mut self, slice: Slice) -> Committed
        requires code { slice.of.value ≡ self.old.course.clocked.record.of.value }
        ensures committed { IsCommitted result slice self.old.course.end self.old.course.clocked.record self.new.course.end self.new.course.clocked.record }
        ensures ticket { TicketBack result slice.ticket self.old.tickets self.new.tickets }
        ensures lent { (self.new.course.out_lent ≡ self.old.course.out_lent) × (self.new.course.err_lent ≡ self.old.course.err_lent) × (self.new.course.clocked.lent ≡ self.old.course.clocked.lent) }
        ensures kept { (self.new.course.out ≡ self.old.course.out) × (self.new.course.err ≡ self.old.course.err) × (self.new.course.clocked.clock ≡ self.old.course.clocked.clock) }
        ensures given { self.new.given ≡ self.old.given }
        ensures code { self.new.code ≡ self.old.code }
    {
        let Ok(found) = self.refusal(&slice, &mut Effort::Endless) else {
            unreachable!()
        };
        if let Some(refused) = found {
            self.take_back(refused, slice.ticket);
            return refused;
        }
        self.commit_fresh(slice)
    }

    /// The same of a slice that is known to start where its thread stands and to be within the fuel, where there is no ending:
    /// `Taken` or `NoMemory`. It needs no comparison, whose time grows with the values that the thread holds.
    pub(crate) fn commit_fresh(&mut self, slice: Slice) -> Committed
        requires none { self.old.course.end ≡ None }
        requires code { slice.of.value ≡ self.old.course.clocked.record.of.value }
        requires starts { Starts slice self.old.course.clocked.record.world }
        requires fuel { slice.steps ≤ left self.old.course.clocked.record }
        ensures committed { IsCommitted result slice self.old.course.end self.old.course.clocked.record self.new.course.end self.new.course.clocked.record }
        ensures judged { IsTakenOrRefused result }
        ensures ticket { TicketBack result slice.ticket self.old.tickets self.new.tickets }
        ensures lent { (self.new.course.out_lent ≡ self.old.course.out_lent) × (self.new.course.err_lent ≡ self.old.course.err_lent) × (self.new.course.clocked.lent ≡ self.old.course.clocked.lent) }
        ensures kept { (self.new.course.out ≡ self.old.course.out) × (self.new.course.err ≡ self.old.course.err) × (self.new.course.clocked.clock ≡ self.old.course.clocked.clock) }
        ensures given { self.new.given ≡ self.old.given }
        ensures code { self.new.code ≡ self.old.code }
    {
        let ticket = slice.ticket;
        let answer = self.append(slice);
        self.take_back(answer, ticket);
        answer
    }

    /// The same, but that the ticket stays out.
    fn append(&mut self, slice: Slice) -> Committed
        requires none { self.old.course.end ≡ None }
        requires code { slice.of.value ≡ self.old.course.clocked.record.of.value }
        requires starts { Starts slice self.old.course.clocked.record.world }
        requires fuel { slice.steps ≤ left self.old.course.clocked.record }
        ensures committed { IsCommitted result slice self.old.course.end self.old.course.clocked.record self.new.course.end self.new.course.clocked.record }
        ensures judged { IsTakenOrRefused result }
        ensures lent { (self.new.course.out_lent ≡ self.old.course.out_lent) × (self.new.course.err_lent ≡ self.old.course.err_lent) × (self.new.course.clocked.lent ≡ self.old.course.clocked.lent) }
        ensures kept { (self.new.course.out ≡ self.old.course.out) × (self.new.course.err ≡ self.old.course.err) × (self.new.course.clocked.clock ≡ self.old.course.clocked.clock) }
        ensures tickets { (self.new.tickets ≡ self.old.tickets) × (self.new.given ≡ self.old.given) }
        ensures code { self.new.code ≡ self.old.code }
    {
        match self.accept(slice) {
            Ok(()) => Committed::Taken,
            Err(NoMemory) => {
                self.no_memory();
                Committed::NoMemory
            }
        }
    }

    /// Why a slice is not taken, if it isn't. Undecided only where its thread is to do an action.
    pub(crate) fn refusal(
        &self,
        slice: &Slice,
        effort: &mut Effort,
    ) -> Result<Option<Committed>, Undecided>
        ensures refused { IfOk result (λ found. MatchOption found (MayBeTaken slice.now self.now.course.end self.now.course.clocked.record) (λ why. IsRefused why slice.now self.now.course.end self.now.course.clocked.record)) }
        ensures err { OnErr result (IsEndless effort.old → ⊥) }
        ensures goes { OnErr result ((self.now.course.end ≡ None) × IsAt slice.now.tid Goes self.now.course.clocked.record.world.threads.list.items) }
    {
        if self.course.end.is_some() {
            return Ok(Some(Committed::Ended));
        }
        let run = &self.course.clocked.record;
        if let Some(why) = stale(run, slice, effort)? {
            return Ok(Some(Committed::Stale(why)));
        }
        let left = u64::from(run.fuel) - run.history.steps();
        if left < u64::from(slice.steps) {
            Ok(Some(Committed::Short(left)))
        } else {
            Ok(None)
        }
    }

    /// Takes the ticket back where it is to come back by this answer.
    pub(crate) fn take_back(&mut self, answer: Committed, ticket: u64)
        ensures ticket { TicketBack answer ticket self.old.tickets self.new.tickets }
        ensures given { self.new.given ≡ self.old.given }
        ensures course { self.new.course ≡ self.old.course }
        ensures code { self.new.code ≡ self.old.code }
    {
        match answer {
            Committed::Ended | Committed::NoMemory => {}
            Committed::Taken | Committed::Stale(_) | Committed::Short(_) => self.drop_job(ticket),
        }
    }

    /// Appends the local rules of a slice that starts where its thread stands and is within the fuel, or sets the ending. Want
    /// of memory is left to the caller.
    pub(crate) fn accept(&mut self, slice: Slice) -> Result<(), NoMemory>
        requires none { self.old.course.end ≡ None }
        requires code { slice.of.value ≡ self.old.course.clocked.record.of.value }
        requires starts { Starts slice self.old.course.clocked.record.world }
        requires fuel { slice.steps ≤ left self.old.course.clocked.record }
        ensures ok { OnOk result (Accepted slice self.new.course.end self.old.course.clocked.record self.new.course.clocked.record) }
        ensures err { OnErr result (Same self.old.course.clocked.record self.new.course.clocked.record × (self.new.course.end ≡ None)) }
        ensures lent { (self.new.course.out_lent ≡ self.old.course.out_lent) × (self.new.course.err_lent ≡ self.old.course.err_lent) × (self.new.course.clocked.lent ≡ self.old.course.clocked.lent) }
        ensures kept { (self.new.course.out ≡ self.old.course.out) × (self.new.course.err ≡ self.old.course.err) × (self.new.course.clocked.clock ≡ self.old.course.clocked.clock) }
        ensures tickets { (self.new.tickets ≡ self.old.tickets) × (self.new.given ≡ self.old.given) }
        ensures code { self.new.code ≡ self.old.code }
    {
        self.course.accept(slice)
    }
}
