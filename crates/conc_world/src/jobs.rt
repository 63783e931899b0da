//! Jobs that are made, and that are overtaken.
ghost use Rattle.std.specs.Prelude.{◌≡◌, ◌<◌, ◌≤◌, ◌+◌, ◌^◌, ◌↔◌, ◌⊎◌, ℕ, None, Some, IfOk, IfSome, IfNone, OnOk, OnErr, IsTrue, length};
ghost use Rattle.hs_rules.specs.declared.entry.Entry.TheVariants as entry;
ghost use Rattle.frame_stack.specs.Slicing.{IsDoing};
ghost use Rattle.thread_table.specs.Listing.{Goes};
ghost use Rattle.thread_table.specs.Table.{IsAt};
ghost use Rattle.world_entries.specs.Worlds.{Starts};
ghost use Rattle.run_course.specs.history.Records.{Same};
ghost use Rattle.run_course.specs.declared.ends.RunEnd.TheVariants as end;
ghost use Rattle.conc_world.specs.declared.tickets.tickets.Out.{Out};
ghost use Rattle.conc_world.specs.tickets.Out.{job, ticket_of, is_overtaken, HasRoom, IsIdle};
ghost use Rattle.conc_world.specs.Jobs.{Added, AllOut, IsFirstTakenBack, IsHandedOut, IsJob, IsOvertaken, SameJobs, TakenBack, left};

use crate::desk::Desk;
use crate::tickets::Tickets;
use frame_stack::{Control, Job, Slice, slice};
use hs_base::NoMemory;
use hs_io::{Clock, NeverCut, Sink};
use hs_rules::{CodeBody, Entry};
use run_course::Course;
use std::alloc::Global;
use std::snapshot::Snapshot;

/// A slice has so many steps at most.
pub const MOST_STEPS: u32 = 1024;

/// A copy of a control that is to do an action.
fn start_of(alloc: Global, control: &Control) -> Result<Control, NoMemory>
    requires { IsDoing control.now }
    ensures { IfOk result (λ start. start ≡ control.now) }
{
    let Control::Doing(action, env) = control else {
        unreachable!()
    };
    Ok(Control::Doing(*action, env.copy(alloc)?))
}

/// Marks the job that an entry overtakes, if any.
fn note(tickets: &mut Tickets, found: Option<Entry>)
    ensures jobs { (k : ℕ) → job tickets.new k ≡ job tickets.old k }
    ensures threads { (t : ℕ) → ticket_of tickets.new t ≡ ticket_of tickets.old t }
    ensures marks { (k : ℕ) (out : Out) → job tickets.old k ≡ Some out → IsTrue (is_overtaken tickets.new k) ↔ (IsTrue (is_overtaken tickets.old k) ⊎ (found ≡ Some (entry.Receive out.thread))) }
{
    if let Some(Entry::Receive { t }) = found {
        tickets.mark(t);
    }
}

/// A thread that is to do an action and has no job out.
fn ready_of<O: Sink, E: Sink, K: Clock>(
    course: &mut Course<O, E, K>,
    tickets: &Tickets,
) -> Option<u32>
    requires none { course.old.end ≡ None }
    ensures some { IfSome result (λ t. IsAt t Goes course.new.clocked.record.world.threads.list.items × (ticket_of tickets.now t ≡ None)) }
    ensures none { IfNone result (AllOut tickets.now course.new.clocked.record) }
    ensures end { course.new.end ≡ None }
    ensures same { Same course.old.clocked.record course.new.clocked.record }
    ensures kept { (course.new.out ≡ course.old.out) × (course.new.err ≡ course.old.err) × (course.new.clocked.clock ≡ course.old.clocked.clock) }
    ensures lent { (course.new.out_lent ≡ course.old.out_lent) × (course.new.err_lent ≡ course.old.err_lent) × (course.new.clocked.lent ≡ course.old.clocked.lent) }
{
    course.next_ready(&tickets.of_threads)
}

impl<O: Sink, E: Sink, K: Clock> Desk<O, E, K> {
    /// A job of a thread that is to do an action and has no job out, in turn; or nothing where there is an ending or no such
    /// thread. Where memory runs out the ending is Memory.
    pub fn next_job(&mut self) -> Result<Option<Job>, NoMemory>
        ensures some { IfOk result (λ found. IfSome found (λ j. (self.old.course.end ≡ None) × IsHandedOut j self.old.course.clocked.record self.new.course.clocked.record self.old.given self.new.given self.old.tickets self.new.tickets)) }
        ensures none { IfOk result (λ found. IfNone found ((self.old.course.end ≡ None → AllOut self.old.tickets self.new.course.clocked.record) × SameJobs self.old.tickets self.new.tickets × (self.new.given ≡ self.old.given))) }
        ensures err { OnErr result ((self.new.given ≡ self.old.given) × (self.old.course.end ≡ None) × (self.new.course.end ≡ Some end.Memory) × SameJobs self.old.tickets self.new.tickets) }
        ensures end { OnOk result (self.new.course.end ≡ self.old.course.end) }
        ensures same { Same self.old.course.clocked.record self.new.course.clocked.record }
        ensures kept { (self.new.course.out ≡ self.old.course.out) × (self.new.course.err ≡ self.old.course.err) × (self.new.course.clocked.clock ≡ self.old.course.clocked.clock) }
        ensures lent { (self.new.course.out_lent ≡ self.old.course.out_lent) × (self.new.course.err_lent ≡ self.old.course.err_lent) × (self.new.course.clocked.lent ≡ self.old.course.clocked.lent) }
        ensures code { self.new.code ≡ self.old.code }
    {
        if self.course.end.is_some() {
            return Ok(None);
        }
        match self.make_job() {
            Ok(found) => Ok(found),
            Err(NoMemory) => {
                self.no_memory();
                Err(NoMemory)
            }
        }
    }

    /// The same where there is no ending, but that want of memory is left to the caller.
    fn make_job(&mut self) -> Result<Option<Job>, NoMemory>
        requires none { self.old.course.end ≡ None }
        ensures some { IfOk result (λ found. IfSome found (λ j. IsHandedOut j self.old.course.clocked.record self.new.course.clocked.record self.old.given self.new.given self.old.tickets self.new.tickets)) }
        ensures none { IfOk result (λ found. IfNone found (AllOut self.old.tickets self.new.course.clocked.record × SameJobs self.old.tickets self.new.tickets × (self.new.given ≡ self.old.given))) }
        ensures err { OnErr result (SameJobs self.old.tickets self.new.tickets × (self.new.given ≡ self.old.given)) }
        ensures end { self.new.course.end ≡ None }
        ensures same { Same self.old.course.clocked.record self.new.course.clocked.record }
        ensures kept { (self.new.course.out ≡ self.old.course.out) × (self.new.course.err ≡ self.old.course.err) × (self.new.course.clocked.clock ≡ self.old.course.clocked.clock) }
        ensures lent { (self.new.course.out_lent ≡ self.old.course.out_lent) × (self.new.course.err_lent ≡ self.old.course.err_lent) × (self.new.course.clocked.lent ≡ self.old.course.clocked.lent) }
        ensures code { self.new.code ≡ self.old.code }
    {
        let Some(ticket) = self.given.checked_add(1) else {
            return Err(NoMemory);
        };
        self.catch_up();
        self.room()?;
        let Some(t) = self.next_ready() else {
            return Ok(None);
        };
        let job = self.job_of(t, ticket)?;
        self.give(ticket, t);
        Ok(Some(job))
    }

    /// Makes room for one more ticket.
    fn room(&mut self) -> Result<(), NoMemory>
        ensures ok { OnOk result (HasRoom self.new.tickets) }
        ensures jobs { SameJobs self.old.tickets self.new.tickets }
        ensures threads { (t : ℕ) → ticket_of self.new.tickets t ≡ ticket_of self.old.tickets t }
        ensures seen { self.new.seen ≡ self.old.seen }
        ensures given { self.new.given ≡ self.old.given }
        ensures course { self.new.course ≡ self.old.course }
        ensures code { self.new.code ≡ self.old.code }
    {
        self.tickets.room()
    }

    /// A thread that is to do an action and has no job out.
    pub(crate) fn next_ready(&mut self) -> Option<u32>
        requires none { self.old.course.end ≡ None }
        ensures some { IfSome result (λ t. IsAt t Goes self.new.course.clocked.record.world.threads.list.items × (ticket_of self.old.tickets t ≡ None)) }
        ensures none { IfNone result (AllOut self.old.tickets self.new.course.clocked.record) }
        ensures end { self.new.course.end ≡ None }
        ensures same { Same self.old.course.clocked.record self.new.course.clocked.record }
        ensures kept { (self.new.course.out ≡ self.old.course.out) × (self.new.course.err ≡ self.old.course.err) × (self.new.course.clocked.clock ≡ self.old.course.clocked.clock) }
        ensures lent { (self.new.course.out_lent ≡ self.old.course.out_lent) × (self.new.course.err_lent ≡ self.old.course.err_lent) × (self.new.course.clocked.lent ≡ self.old.course.clocked.lent) }
        ensures tickets { (self.new.tickets ≡ self.old.tickets) × (self.new.given ≡ self.old.given) × (self.new.seen ≡ self.old.seen) }
        ensures code { self.new.code ≡ self.old.code }
    {
        ready_of(&mut self.course, &self.tickets)
    }

    /// The next ticket is out for this thread from now on.
    fn give(&mut self, ticket: u64, t: u32)
        requires room { HasRoom self.old.tickets }
        requires next { ticket ≡ self.old.given + 1 }
        requires free { ticket_of self.old.tickets t ≡ None }
        ensures added { Added ticket t self.old.seen self.old.tickets self.new.tickets }
        ensures given { self.new.given ≡ ticket }
        ensures course { self.new.course ≡ self.old.course }
        ensures code { self.new.code ≡ self.old.code }
    {
        self.tickets.add(ticket, t, self.seen);
        self.given = ticket;
    }

    /// The job of a thread that is to do an action.
    pub(crate) fn job_of(&self, t: u32, ticket: u64) -> Result<Job, NoMemory>
        requires goes { IsAt t Goes self.now.course.clocked.record.world.threads.list.items }
        requires none { self.now.course.end ≡ None }
        ensures ok { IfOk result (λ j. IsJob j self.now.course.clocked.record × (j.tid ≡ t) × (j.ticket ≡ ticket)) }
    {
        let run = &self.course.clocked.record;
        let thread = &run.world.threads.list[t as usize];
        let start = start_of(run.world.alloc, thread.stack.control())?;
        let left = u64::from(run.fuel) - run.history.steps();
        let body: &CodeBody = &self.code.body;
        Ok(Job {
            ticket,
            tid: t,
            start,
            mask: thread.stack.mask(),
            budget: left.min(u64::from(MOST_STEPS)) as u32,
            of: Snapshot::of(body),
        })
    }

    /// The slice of a thread that is to do an action, from where it stands, of so many rules at most.
    pub(crate) fn slice_of(&self, t: u32, ticket: u64, most: u32) -> Result<Slice, NoMemory>
        requires none { self.now.course.end ≡ None }
        requires some { 0 < most }
        requires goes { IsAt t Goes self.now.course.clocked.record.world.threads.list.items }
        ensures of { IfOk result (λ s. (s.tid ≡ t) × (s.ticket ≡ ticket) × (s.of.value ≡ self.now.course.clocked.record.of.value)) }
        ensures starts { IfOk result (λ s. Starts s self.now.course.clocked.record.world) }
        ensures fuel { IfOk result (λ s. s.steps ≤ left self.now.course.clocked.record) }
    {
        let mut job = self.job_of(t, ticket)?;
        job.budget = job.budget.min(most);
        let alloc = self.course.clocked.record.world.alloc;
        match slice(alloc, &self.code, job, &mut NeverCut) {
            Ok(slice) => Ok(slice),
            Err(_) => Err(NoMemory),
        }
    }

    /// Takes the ticket back where it is out, and changes nothing else.
    pub fn drop_job(&mut self, ticket: u64)
        ensures back { TakenBack ticket self.old.tickets self.new.tickets }
        ensures given { self.new.given ≡ self.old.given }
        ensures course { self.new.course ≡ self.old.course }
        ensures code { self.new.code ≡ self.old.code }
    {
        self.tickets.drop(ticket);
    }

    /// Takes all tickets back.
    pub fn recall(&mut self)
        ensures none { IsIdle self.new.tickets }
        ensures given { self.new.given ≡ self.old.given }
        ensures course { self.new.course ≡ self.old.course }
        ensures code { self.new.code ≡ self.old.code }
    {
        self.tickets.clear();
    }

    /// The least ticket that is out and whose thread has received an exception since it was made. It is taken back.
    pub fn overtaken(&mut self) -> Option<u64>
        ensures some { IfSome result (λ k. IsFirstTakenBack k self.old.course.clocked.record.history.list self.old.tickets self.new.tickets) }
        ensures none { IfNone result (((j : ℕ) → IsOvertaken j self.old.tickets self.old.course.clocked.record.history.list → ⊥) × SameJobs self.old.tickets self.new.tickets) }
        ensures given { self.new.given ≡ self.old.given }
        ensures course { self.new.course ≡ self.old.course }
        ensures code { self.new.code ≡ self.old.code }
    {
        self.catch_up();
        self.tickets.next_overtaken()
    }

    /// Looks at the entries that came since, and marks the jobs that they overtook.
    fn catch_up(&mut self)
        ensures seen { self.new.seen ≡ length self.new.course.clocked.record.history.list }
        ensures jobs { SameJobs self.old.tickets self.new.tickets }
        ensures threads { (t : ℕ) → ticket_of self.new.tickets t ≡ ticket_of self.old.tickets t }
        ensures course { self.new.course ≡ self.old.course }
        ensures given { self.new.given ≡ self.old.given }
        ensures code { self.new.code ≡ self.old.code }
    {
        while self.seen < self.course.clocked.record.history.len() {
            self.look();
        }
    }

    /// Looks at the next entry, and marks the job that it overtook.
    fn look(&mut self)
        requires next { self.old.seen < length self.old.course.clocked.record.history.list }
        requires counted { length self.old.course.clocked.record.history.list < 2 ^ 64 }
        ensures seen { self.new.seen ≡ self.old.seen + 1 }
        ensures jobs { SameJobs self.old.tickets self.new.tickets }
        ensures threads { (t : ℕ) → ticket_of self.new.tickets t ≡ ticket_of self.old.tickets t }
        ensures course { self.new.course ≡ self.old.course }
        ensures given { self.new.given ≡ self.old.given }
        ensures code { self.new.code ≡ self.old.code }
    {
        let found = self.course.clocked.record.history.at(self.seen);
        note(&mut self.tickets, found);
        self.seen += 1;
    }
}
