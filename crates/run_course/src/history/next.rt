//! What can be done next.
ghost use Rattle.std.specs.Prelude.{◌≡◌, nat_le, true, false, IfSome, IfNone};
ghost use Rattle.hs_rules.specs.Histories.{steps_of};
ghost use Rattle.thread_table.specs.Kinds.{IsKind};
ghost use Rattle.world_entries.specs.declared.world.World.{World as AWorld};
ghost use Rattle.world_entries.specs.Worlds.{Goes, SameState};
ghost use Rattle.run_course.specs.history.Acts.{is_value as is_value_by};
ghost use Rattle.run_course.specs.history.Records.{Can, IsNextOf, IsNext, Same, HasFinished};

use crate::history::acts::{Next, NextEntry};
use crate::history::record::Record;
use frame_stack::Control;
use thread_table::EntryKind;
use world_entries::World;

impl Record {
    /// What can be done next: an entry of the thread that has waited for it longest; where no thread has one a Wake; then
    /// nothing but local rules of actions; then nothing but Ticks, or a Stranded where nobody sleeps.
    pub fn next(&mut self) -> Next
        ensures next { IsNext result self.new }
        ensures same { Same self.old self.new }
    {
        match self.main() {
            Some(value) => Next::Over(value),
            None => next_of(&mut self.world),
        }
    }

    /// Whether the main thread has finished, and by a value or not.
    fn main(&self) -> Option<bool>
        ensures some { IfSome result (λ value. HasFinished value self.now) }
        ensures none { IfNone result (Goes self.now.world) }
    {
        let main = &self.world.threads.list[0];
        if !main.finished {
            return None;
        }
        Some(is_value(main.stack.control()))
    }

    /// Whether the fuel is spent.
    pub fn out_of_fuel(&self) -> bool
        ensures { result ≡ nat_le self.now.fuel (steps_of self.now.history.list) }
    {
        u64::from(self.fuel) <= self.history.steps()
    }
}

/// What can be done next where the main thread hasn't finished.
pub fn next_of(world: &mut World) -> Next
    requires goes { Goes world.old }
    ensures next { IsNextOf result world.new }
    ensures same { SameState world.old world.new }
{
    if let Some(t) = world.threads.next() {
        return Next::Act(act_of(world.threads.kind(t), t));
    }
    if let Some(t) = world.sleepers.due(world.clock) {
        return Next::Act(NextEntry::Wake(t));
    }
    if world.threads.some_goes() {
        return Next::Goes;
    }
    if let Some(due) = world.sleepers.first_due() {
        return Next::Sleeps(due);
    }
    if world.threads.may_strand() {
        return Next::Act(NextEntry::Strand);
    }
    Next::Stuck
}

fn is_value(control: &Control) -> bool
    ensures { result ≡ is_value_by control.now }
{
    match control {
        Control::Ret(_) => true,
        Control::Doing(_, _) => false,
        Control::Throw(_) => false,
        Control::Op(_) => false,
    }
}

/// The act of a thread that has something to do.
fn act_of(kind: EntryKind, t: u32) -> NextEntry
    ensures { (w : AWorld) → IsKind kind t w.threads → Can result w }
{
    match kind {
        EntryKind::Op => NextEntry::Op(t),
        EntryKind::Finish => NextEntry::Finish(t),
        EntryKind::Local => NextEntry::Local(t),
        EntryKind::Receive => NextEntry::Receive(t),
    }
}
