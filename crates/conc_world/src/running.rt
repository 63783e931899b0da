//! Slices that are made where their thread stands and committed at once: no ticket is given, and nothing is compared.
ghost use Rattle.std.specs.Prelude.{◌≡◌, ◌<◌, ◌⊎◌, true, None, Some, OnOk, OnErr, IfOk, IfSome, IsSome};
ghost use Rattle.hs_rules.specs.Histories.{steps_of};
ghost use Rattle.thread_table.specs.Listing.{Goes};
ghost use Rattle.thread_table.specs.Table.{IsAt};
ghost use Rattle.run_course.specs.declared.ends.RunEnd.TheVariants as end;
ghost use Rattle.run_course.specs.Settled.{Begins, GoesOn, KeepsPlan};
ghost use Rattle.conc_world.specs.Jobs.{NoneOut};

use crate::desk::Desk;
use crate::jobs::MOST_STEPS;
use hs_base::NoMemory;
use hs_io::{Clock, Sink};

/// No job has this ticket.
const NO_TICKET: u64 = 0;

/// Runs the desk to an ending with one capability, without waiting for another thread. Jobs that are out are taken back first.
/// Each slice is made where its thread stands and committed at once: no ticket is given, and nothing is compared.
pub fn alone<O: Sink, E: Sink, K: Clock>(desk: &mut Desk<O, E, K>)
    ensures ended { IsSome desk.new.course.end }
    ensures goes { GoesOn desk.old.course.end desk.old.course.clocked.record.history.list desk.new.course.end desk.new.course.clocked.record.history.list }
    ensures plan { KeepsPlan desk.old.course.clocked.record desk.new.course.clocked.record }
    ensures lent { (desk.new.course.out_lent ≡ desk.old.course.out_lent) × (desk.new.course.err_lent ≡ desk.old.course.err_lent) × (desk.new.course.clocked.lent ≡ desk.old.course.clocked.lent) }
    ensures over { IsSome desk.old.course.end → (desk.new.course.out ≡ desk.old.course.out) × (desk.new.course.err ≡ desk.old.course.err) × (desk.new.course.clocked.clock ≡ desk.old.course.clocked.clock) }
    ensures code { desk.new.code ≡ desk.old.code }
{
    desk.recall();
    while desk.course.end.is_none() {
        if turn(desk).is_err() {
            desk.no_memory();
        }
    }
}

/// Settles, and appends the local rules of one slice, where there is no ending.
fn turn<O: Sink, E: Sink, K: Clock>(desk: &mut Desk<O, E, K>) -> Result<(), NoMemory>
    requires none { desk.old.course.end ≡ None }
    requires idle { NoneOut desk.old.tickets }
    ensures more { OnOk result (IsSome desk.new.course.end ⊎ (steps_of desk.old.course.clocked.record.history.list < steps_of desk.new.course.clocked.record.history.list)) }
    ensures tickets { desk.new.tickets ≡ desk.old.tickets }
    ensures begins { Begins desk.old.course.clocked.record.history.list desk.new.course.clocked.record.history.list }
    ensures plan { KeepsPlan desk.old.course.clocked.record desk.new.course.clocked.record }
    ensures lent { (desk.new.course.out_lent ≡ desk.old.course.out_lent) × (desk.new.course.err_lent ≡ desk.old.course.err_lent) × (desk.new.course.clocked.lent ≡ desk.old.course.clocked.lent) }
    ensures code { desk.new.code ≡ desk.old.code }
{
    desk.settle()?;
    if desk.course.end.is_some() {
        return Ok(());
    }
    let Some(t) = desk.next_ready() else {
        unreachable!()
    };
    let slice = desk.slice_of(t, NO_TICKET, MOST_STEPS)?;
    desk.accept(slice)
}

impl<O: Sink, E: Sink, K: Clock> Desk<O, E, K> {
    /// Goes on with the turn that a caller has: settles, and appends the local rules of a slice of at most so many rules, so many
    /// times at most, while two threads at most are to do an action and have no job out. A slice that has all its rules is the
    /// last: its thread has more to do than is worth a turn. It changes nothing where there is an ending, and no ticket
    /// anywhere. Where memory runs out the ending is Memory.
    pub fn go_on(&mut self, slices: u32, most: u32) -> Result<(), NoMemory>
        requires { 0 < most }
        ensures goes { GoesOn self.old.course.end self.old.course.clocked.record.history.list self.new.course.end self.new.course.clocked.record.history.list }
        ensures err { OnErr result ((self.old.course.end ≡ None) × (self.new.course.end ≡ Some end.Memory)) }
        ensures plan { KeepsPlan self.old.course.clocked.record self.new.course.clocked.record }
        ensures lent { (self.new.course.out_lent ≡ self.old.course.out_lent) × (self.new.course.err_lent ≡ self.old.course.err_lent) × (self.new.course.clocked.lent ≡ self.old.course.clocked.lent) }
        ensures over { IsSome self.old.course.end → self.new.course ≡ self.old.course }
        ensures tickets { (self.new.tickets ≡ self.old.tickets) × (self.new.given ≡ self.old.given) }
        ensures code { self.new.code ≡ self.old.code }
    {
        if self.course.end.is_some() {
            return Ok(());
        }
        for _ in 0..slices {
            match self.step(most) {
                Ok(true) => {}
                Ok(false) => return Ok(()),
                Err(NoMemory) => {
                    self.no_memory();
                    return Err(NoMemory);
                }
            }
        }
        Ok(())
    }

    /// Settles, and appends the local rules of a slice of at most so many rules. Whether to go on: not where there is an ending or
    /// no such slice, nor where it had all its rules. Want of memory is left to the caller.
    fn step(&mut self, most: u32) -> Result<bool, NoMemory>
        requires none { self.old.course.end ≡ None }
        requires some { 0 < most }
        ensures ok { IfOk result (λ goes. goes ≡ true → self.new.course.end ≡ None) }
        ensures err { OnErr result ((self.new.course.end ≡ None) ⊎ (self.new.course.end ≡ Some end.Memory)) }
        ensures begins { Begins self.old.course.clocked.record.history.list self.new.course.clocked.record.history.list }
        ensures plan { KeepsPlan self.old.course.clocked.record self.new.course.clocked.record }
        ensures lent { (self.new.course.out_lent ≡ self.old.course.out_lent) × (self.new.course.err_lent ≡ self.old.course.err_lent) × (self.new.course.clocked.lent ≡ self.old.course.clocked.lent) }
        ensures tickets { (self.new.tickets ≡ self.old.tickets) × (self.new.given ≡ self.old.given) }
        ensures code { self.new.code ≡ self.old.code }
    {
        self.settle()?;
        if self.course.end.is_some() {
            return Ok(false);
        }
        let Some(t) = self.one_of_two() else {
            return Ok(false);
        };
        let slice = self.slice_of(t, NO_TICKET, most)?;
        let is_short = slice.steps < most;
        self.accept(slice)?;
        Ok(is_short && self.course.end.is_none())
    }

    /// A thread that is to do an action and has no job out, where there are two of them at most.
    fn one_of_two(&mut self) -> Option<u32>
        requires none { self.old.course.end ≡ None }
        ensures some { IfSome result (λ t. IsAt t Goes self.new.course.clocked.record.world.threads.list.items) }
        ensures end { self.new.course.end ≡ None }
        ensures history { self.new.course.clocked.record.history.list ≡ self.old.course.clocked.record.history.list }
        ensures plan { KeepsPlan self.old.course.clocked.record self.new.course.clocked.record }
        ensures lent { (self.new.course.out_lent ≡ self.old.course.out_lent) × (self.new.course.err_lent ≡ self.old.course.err_lent) × (self.new.course.clocked.lent ≡ self.old.course.clocked.lent) }
        ensures tickets { (self.new.tickets ≡ self.old.tickets) × (self.new.given ≡ self.old.given) }
        ensures code { self.new.code ≡ self.old.code }
    {
        // The list of the ready goes round, so the third is one of the first two where there are no more.
        let first = self.next_ready()?;
        let second = self.next_ready()?;
        let third = self.next_ready()?;
        if third == first || third == second {
            Some(third)
        } else {
            None
        }
    }
}
