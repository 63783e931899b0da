ghost use Rattle.std.specs.Prelude.{◌≡◌, ◌≤◌, ◌<◌, ℕ, [], None, Some, IfOk, IfErr, IfSome, IfNone, OnOk, OnErr, IsSome, MatchOption};
ghost use Rattle.rules_code.specs.Codes.{body_of};
ghost use Rattle.conc_world.specs.declared.tickets.tickets.Out.{Out};
ghost use Rattle.conc_world.specs.tickets.Out.{job};
ghost use Rattle.run_course.specs.declared.ends.RunEnd.TheVariants as end;
ghost use Rattle.run_course.specs.Endings.{IsConcluded, IsOpen};
ghost use Rattle.run_course.specs.Settled.{GoesOn, IsAtRest, KeepsPlan};
ghost use Rattle.conc_world.specs.Sets.{bodies_are_a_set};
ghost use Rattle.conc_world.specs.Jobs.{Knows};
ghost use Rattle.conc_world.specs.tickets.Out.{IsIdle};
ghost use Rattle.conc_world.specs.Committing.{Unfinished, Anything};
ghost use Rattle.conc_world.specs.Runs.{IsRunOf};

use crate::answers::{Closed, Parts, Shows};
use crate::tickets::Tickets;
use frame_stack::Control;
use hs_base::{Limits, NoMemory};
use hs_io::{Clock, Sink};
use hs_rules::{Code, CodeBody, History, Kept};
use run_course::clocked::Clocked;
use run_course::history::Record;
use run_course::{Course, RunEnd};
use std::alloc::Global;
use std::snapshot::Snapshot;

/// A run in the making, and the jobs that are out.
#[derive(Drop)]
pub struct Desk<O: Sink, E: Sink, K: Clock> {
    pub code: Code,
    pub course: Course<O, E, K>,
    pub tickets: Tickets,
    /// So many tickets were given.
    pub given: u64,
    /// So many entries were looked at for exceptions that overtake jobs.
    pub seen: usize,
    /// The code's body, as clauses see it.
    pub of: Snapshot<CodeBody>,
    pub ghost of_code: { body_of code ≡ course.clocked.record.of.value } by { bodies_are_a_set of-code of (body_of code) course.clocked.record.of.value },
    pub ghost open_still: { ∥ (course.end ≡ None → IsOpen course.clocked.record) ∥₁ },
    pub ghost few: { (k : ℕ) (o : Out) → job tickets k ≡ Some o → k ≤ given },
    pub ghost knows: { ∥ Knows tickets seen course.clocked.record.history.list ∥₁ },
}

impl<O: Sink, E: Sink, K: Clock> Kept for Desk<O, E, K> {
    ghost plan = { λ d. record {
      body = d.course.clocked.record.of.value;
      fuel = d.course.clocked.record.fuel;
      limits = d.course.clocked.record.limits;
      out_faults = O.faults d.course.out_lent.value;
      err_faults = E.faults d.course.err_lent.value;
      choice = K.choice d.course.clocked.lent.value;
      early = K.early_waits d.course.clocked.lent.value;
    } };

    ghost history = { λ d. d.course.clocked.record.history.list };
}

/// By what a desk was lent.
impl<O: Sink, E: Sink, K: Clock> Shows for Desk<O, E, K> {
    ghost shown = { λ d. record {
      output = O.told d.course.out_lent.value;
      errors = E.told d.course.err_lent.value;
      out_faults = O.faults d.course.out_lent.value;
      err_faults = E.faults d.course.err_lent.value;
      last = K.last d.course.clocked.lent.value;
      early = K.early_waits d.course.clocked.lent.value;
    } };
}

impl<O: Sink, E: Sink, K: Clock> Desk<O, E, K> {
    /// The desk of a run of this code that hasn't begun, with so much fuel, these limits, and what is lent to it. At `Err` there
    /// was no memory, and what was lent comes back.
    pub fn begin(
        alloc: Global,
        code: Code,
        fuel: u32,
        limits: Limits,
        out: O,
        err: E,
        clock: K,
    ) -> Result<Desk<O, E, K>, Parts<O, E, K>>
        requires fuel { 0 < fuel }
        requires threads { 1 ≤ limits.threads }
        ensures history { IfOk result (λ d. d.course.clocked.record.history.list ≡ []) }
        ensures code { IfOk result (λ d. (d.code ≡ code) × (d.course.clocked.record.of.value ≡ body_of code)) }
        ensures plan { IfOk result (λ d. (d.course.clocked.record.fuel ≡ fuel) × (d.course.clocked.record.limits ≡ limits)) }
        ensures parts { IfOk result (λ d. (d.course.out ≡ out) × (d.course.err ≡ err) × (d.course.clocked.clock ≡ clock)) }
        ensures lent { IfOk result (λ d. (d.course.out_lent.value ≡ out) × (d.course.err_lent.value ≡ err) × (d.course.clocked.lent.value ≡ clock)) }
        ensures idle { IfOk result (λ d. IsIdle d.tickets × (d.given ≡ 0)) }
        ensures end { IfOk result (λ d. IsConcluded d.course.end d.course.clocked.record) }
        ensures err { IfErr result (λ p. (p.out ≡ out) × (p.err ≡ err) × (p.clock ≡ clock)) }
    {
        let Ok(record) = Record::begin(alloc, &code, fuel, limits) else {
            return Err(Parts { out, err, clock });
        };
        let clocked = Clocked::begin(record, clock);
        let mut course = Course::begin(clocked, out, err);
        course.conclude();
        let body: &CodeBody = &code.body;
        let of = Snapshot::of(body);
        Ok(Desk {
            code,
            of,
            course,
            tickets: Tickets::new(alloc),
            given: 0,
            seen: 0,
        })
    }

    /// Appends entries until there is an ending, or nothing is legal but Ticks and local rules of threads that are to do an
    /// action, and there is such a thread. Where memory runs out the ending is Memory.
    pub fn settle(&mut self) -> Result<(), NoMemory>
        ensures settled { OnOk result (IsAtRest self.new.course.end self.new.course.clocked.record) }
        ensures memory { OnOk result (self.new.course.end ≡ Some end.Memory → self.old.course.end ≡ Some end.Memory) }
        ensures err { OnErr result ((self.old.course.end ≡ None) × (self.new.course.end ≡ Some end.Memory)) }
        ensures goes { GoesOn self.old.course.end self.old.course.clocked.record.history.list self.new.course.end self.new.course.clocked.record.history.list }
        ensures plan { KeepsPlan self.old.course.clocked.record self.new.course.clocked.record }
        ensures lent { (self.new.course.out_lent ≡ self.old.course.out_lent) × (self.new.course.err_lent ≡ self.old.course.err_lent) × (self.new.course.clocked.lent ≡ self.old.course.clocked.lent) }
        ensures over { IsSome self.old.course.end → (self.new.course.out ≡ self.old.course.out) × (self.new.course.err ≡ self.old.course.err) × (self.new.course.clocked.clock ≡ self.old.course.clocked.clock) }
        ensures tickets { (self.new.tickets ≡ self.old.tickets) × (self.new.given ≡ self.old.given) }
        ensures code { self.new.code ≡ self.old.code }
    {
        self.course.settle()
    }

    /// Sets the ending Memory where there is none.
    pub fn no_memory(&mut self)
        ensures none { self.old.course.end ≡ None → self.new.course.end ≡ Some end.Memory }
        ensures some { IsSome self.old.course.end → self.new.course.end ≡ self.old.course.end }
        ensures clocked { self.new.course.clocked ≡ self.old.course.clocked }
        ensures lent { (self.new.course.out_lent ≡ self.old.course.out_lent) × (self.new.course.err_lent ≡ self.old.course.err_lent) }
        ensures kept { (self.new.course.out ≡ self.old.course.out) × (self.new.course.err ≡ self.old.course.err) }
        ensures tickets { (self.new.tickets ≡ self.old.tickets) × (self.new.given ≡ self.old.given) }
        ensures code { self.new.code ≡ self.old.code }
    {
        self.course.give_up();
    }

    pub fn code(&self) -> &Code
        ensures { result.now ≡ self.now.code }
    {
        &self.code
    }

    pub fn history(&self) -> &History
        ensures { result.now ≡ self.now.course.clocked.record.history }
    {
        &self.course.clocked.record.history
    }

    /// The ending, if one was set.
    pub fn ended(&self) -> Option<&RunEnd>
        ensures { MatchOption result (self.now.course.end ≡ None) (λ end. self.now.course.end ≡ Some end.now) }
    {
        self.course.end.as_ref()
    }

    /// The control of a thread, or nothing where no such thread is unfinished.
    pub fn control_of(&self, t: u32) -> Option<&Control>
        ensures some { IfSome result (λ control. Unfinished t (λ th. th.stack.control ≡ control.now) self.now.course.clocked.record) }
        ensures none { IfNone result (Unfinished t Anything self.now.course.clocked.record → ⊥) }
    {
        let run = &self.course.clocked.record;
        let thread = run.world.threads.list.get(t as usize)?;
        if thread.finished {
            return None;
        }
        Some(thread.stack.control())
    }

    /// Hands all back.
    pub fn close(self) -> Closed<O, E, K>
        ensures end { result.end ≡ self.course.end }
        ensures history { result.history ≡ self.course.clocked.record.history }
        ensures parts { (result.parts.out ≡ self.course.out) × (result.parts.err ≡ self.course.err) × (result.parts.clock ≡ self.course.clocked.clock) }
        ensures choice { K.choice result.parts.clock ≡ K.choice self.course.clocked.lent.value }
        ensures faults { (O.faults self.course.out_lent.value ≤ O.faults result.parts.out) × (E.faults self.course.err_lent.value ≤ E.faults result.parts.err) × (K.early_waits self.course.clocked.lent.value ≤ K.early_waits result.parts.clock) }
        ensures run { ∥ IsRunOf (⟦<Desk<O, E, K> as Kept>⟧.plan self) result.end result.history.list (⟦<Desk<O, E, K> as Shows>⟧.shown self) (⟦<Parts<O, E, K> as Shows>⟧.shown result.parts) ∥₁ }
    {
        let Desk {
            code: _code,
            course,
            tickets: _tickets,
            given: _,
            seen: _,
            of: _of,
        } = self;
        let Course {
            clocked,
            end,
            out,
            err,
            out_lent: _out,
            err_lent: _err,
        } = course;
        let Clocked {
            record,
            clock,
            lent: _lent,
        } = clocked;
        let Record {
            history,
            world: _world,
            fuel: _,
            limits: _,
            of: _run,
        } = record;
        Closed {
            end,
            history,
            parts: Parts { out, err, clock },
        }
    }
}
