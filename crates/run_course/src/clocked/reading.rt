//! Readings of the clock, and the Ticks that enter them.
ghost use Rattle.std.specs.Prelude.{◌≡◌, ◌≢◌, ◌<◌, ◌⊎◌, ◌↔◌, ℕ, [], IfOk, OnOk, OnErr, IsTrue, true};
ghost use Rattle.hs_rules.specs.Histories.{steps_of};
ghost use Rattle.hs_rules.specs.declared.entry.Entry.TheVariants as entry;
ghost use Rattle.hs_rules.specs.Endings.{IsTick};
ghost use Rattle.hs_laws.specs.ClockLaw.{EndsInTick};
ghost use Rattle.run_course.specs.declared.history.acts.Next.TheVariants as next;
ghost use Rattle.run_course.specs.history.Records.{IsNext, Same, Appended};
ghost use Rattle.run_course.specs.clocked.Clocks.{work, is_timed as is_timed_by, Asks, IsWanted, Looked};

use crate::clocked::clocked::Clocked;
use crate::history::{NextEntry, Record};
use frame_stack::{Control, Prim};
use hs_base::NoMemory;
use hs_io::Clock;
use hs_rules::Entry;

fn is_timed(control: &Control) -> bool
    ensures { result ≡ is_timed_by control.now }
{
    matches!(
        control,
        Control::Op(Prim::ThreadDelay(_)) | Control::Op(Prim::ClockMicros)
    )
}

/// Whether an act that is next performs an operation that reads the clock or waits for it.
fn asks_clock(run: &Record, act: NextEntry) -> bool
    requires { IsNext (next.Act act) run.now }
    ensures { IsTrue result ↔ Asks act run.now }
{
    let NextEntry::Op(t) = act else {
        return false;
    };
    match run.world.threads.list.get(t as usize) {
        Some(thread) => is_timed(thread.stack.control()),
        None => false,
    }
}

fn somebody_sleeps(run: &Record) -> bool
    ensures { IsTrue result ↔ (run.now.world.sleepers.list ≢ []) }
{
    run.world.sleepers.first_due().is_some()
}

/// Whether the clock is to be read.
fn is_wanted(run: &Record, act: Option<NextEntry>, read: bool) -> bool
    requires { IsNext (work act) run.now }
    ensures { IsTrue result ↔ IsWanted act read run.now }
{
    if let Some(act) = act {
        if asks_clock(run, act) {
            return true;
        }
    }
    !read && somebody_sleeps(run)
}

fn is_tick(entry: Entry) -> bool
    ensures { IsTrue result ↔ IsTick entry }
{
    matches!(entry, Entry::Tick { .. })
}

/// Whether the last entry is a Tick.
fn ends_in_tick(run: &Record) -> bool
    ensures { IsTrue result ↔ EndsInTick run.now.history.list }
{
    let Some(last) = run.history.len().checked_sub(1) else {
        return false;
    };
    match run.history.at(last) {
        Some(entry) => is_tick(entry),
        None => false,
    }
}

impl<K: Clock> Clocked<K> {
    /// Reads the clock where other work is next: before an operation that asks for it, and once where somebody sleeps, which
    /// `read` keeps. A later reading is entered by a Tick; answers whether it was. The last entry is never a Tick already.
    pub fn look(&mut self, act: Option<NextEntry>, read: &mut bool) -> Result<bool, NoMemory>
        requires next { IsNext (work act) self.old.record }
        requires fuel { steps_of self.old.record.history.list < self.old.record.fuel }
        ensures ok { IfOk result (λ ticked. Looked ticked self.old.record self.new.record) }
        ensures ticked { IfOk result (λ ticked. ticked ≡ true → self.new.record.world.clock ≡ K.last self.new.clock) }
        ensures current { OnOk result (IsWanted act read.old self.old.record → EndsInTick self.old.record.history.list ⊎ (self.new.record.world.clock ≡ K.last self.new.clock)) }
        ensures read { OnOk result (read.new ≡ true → (read.old ≡ true) ⊎ (self.new.record.world.clock ≡ K.last self.new.clock)) }
        ensures err { OnErr result (Same self.old.record self.new.record) }
        ensures calm { K.early_waits self.new.clock ≡ K.early_waits self.old.clock }
        ensures lent { self.new.lent ≡ self.old.lent }
    {
        if ends_in_tick(&self.record) {
            return Ok(false);
        }
        if !is_wanted(&self.record, act, *read) {
            return Ok(false);
        }
        *read = *read || somebody_sleeps(&self.record);
        let now = self.clock.now();
        if now <= self.record.world.clock {
            return Ok(false);
        }
        self.record.tick(now)?;
        Ok(true)
    }

    /// Waits until the first sleeper may wake, where nothing else can go on, and enters the next reading.
    pub fn sleep(&mut self, due: u64) -> Result<(), NoMemory>
        requires next { IsNext (next.Sleeps due) self.old.record }
        requires fuel { steps_of self.old.record.history.list < self.old.record.fuel }
        ensures ok { OnOk result ((at : ℕ) × Appended (entry.Tick at) self.old.record self.new.record) }
        ensures current { OnOk result (self.new.record.world.clock ≡ K.last self.new.clock) }
        ensures err { OnErr result (Same self.old.record self.new.record) }
        ensures lent { self.new.lent ≡ self.old.lent }
    {
        self.clock.wait_until(due);
        let reading = self.clock.now();
        self.record.tick(reading)
    }
}
