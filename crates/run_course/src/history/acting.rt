//! One entry.
ghost use Rattle.std.specs.Prelude.{◌≡◌, ◌<◌, ◌≤◌, ◌+◌, OnErr, IfOk, OnOk, MatchOption};
ghost use Rattle.rules_code.specs.declared.code.CodeBody.{CodeBody};
ghost use Rattle.hs_rules.specs.Histories.{steps_of};
ghost use Rattle.hs_rules.specs.declared.entry.Entry.TheVariants as entry;
ghost use Rattle.world_entries.specs.Worlds.{Goes, HasRoom, IsLive, Makes, SameState, Starts};
ghost use Rattle.run_course.specs.history.Acts.{entry_of};
ghost use Rattle.run_course.specs.history.Records.{Can, IsAccepted, Same, Appended, Prints, PrintsIn, WouldExceed};

use crate::history::acts::NextEntry;
use crate::history::record::Record;
use frame_stack::Slice;
use hs_base::NoMemory;
use hs_rules::{Entry, LimitKind};
use world_entries::World;

impl Record {
    /// Appends the entry of an act, which prints so many bytes, and changes the world by it, or answers the limit that this
    /// entry would exceed.
    pub fn act(&mut self, act: NextEntry, bytes: usize) -> Result<Option<LimitKind>, NoMemory>
        requires goes { Goes self.old.world }
        requires can { Can act self.old.world }
        requires fuel { steps_of self.old.history.list < self.old.fuel }
        requires bytes { Prints bytes act self.old }
        ensures ok { IfOk result (λ over. MatchOption over (Appended (entry_of act) self.old self.new) (λ kind. Same self.old self.new × WouldExceed kind (entry_of act) self.old)) }
        ensures err { OnErr result (Same self.old self.new) }
    {
        self.room()?;
        if let Some(kind) = self.exceeds(act, bytes) {
            return Ok(Some(kind));
        }
        change(&mut self.world, act, bytes as u32)?;
        self.history.add(act.entry());
        Ok(None)
    }

    /// The clock goes on.
    pub fn tick(&mut self, at: u64) -> Result<(), NoMemory>
        requires goes { Goes self.old.world }
        requires later { self.old.world.clock ≤ at }
        requires fuel { steps_of self.old.history.list < self.old.fuel }
        ensures ok { OnOk result (Appended (entry.Tick at) self.old self.new) }
        ensures clock { OnOk result (self.new.world.clock ≡ at) }
        ensures err { OnErr result (Same self.old self.new) }
    {
        self.history.room(1)?;
        self.world.tick(at);
        self.history.add(Entry::Tick { at });
        Ok(())
    }

    /// Appends the local rules of a slice that starts where its thread stands, or answers that they would exceed the limit of
    /// frames. The slice is dropped.
    pub fn accept(&mut self, slice: Slice) -> Result<Option<LimitKind>, NoMemory>
        requires goes { Goes self.old.world }
        requires code { slice.of.value ≡ self.old.of.value }
        requires starts { Starts slice self.old.world }
        requires fuel { steps_of self.old.history.list + slice.steps ≤ self.old.fuel }
        ensures ok { IfOk result (λ over. IsAccepted slice over self.old self.new) }
        ensures err { OnErr result (Same self.old self.new) }
    {
        self.room()?;
        if self.frames_exceed(&slice) {
            return Ok(Some(LimitKind::Frames));
        }
        let entry = Entry::Local {
            t: slice.tid,
            k: slice.steps,
        };
        match self.world.accept(slice) {
            Ok(()) => {
                self.history.add(entry);
                Ok(None)
            }
            Err(_) => Err(NoMemory),
        }
    }

    /// Makes room for one entry.
    fn room(&mut self) -> Result<(), NoMemory>
        ensures same { Same self.old self.new }
        ensures threads { self.new.world.threads.list.items ≡ self.old.world.threads.list.items }
        ensures flight { self.new.world.threads.flight.list ≡ self.old.world.threads.flight.list }
        ensures world { OnOk result (HasRoom self.new.world) }
        ensures spare { OnOk result (1 ≤ self.new.history.spare) }
    {
        self.history.room(1)?;
        self.world.room()?;
        Ok(())
    }
}

/// Changes the world by the entry of an act that prints so many bytes.
fn change(world: &mut World, act: NextEntry, bytes: u32) -> Result<(), NoMemory>
    requires live { IsLive world.old }
    requires goes { Goes world.old }
    requires room { HasRoom world.old }
    requires can { Can act world.old }
    requires bytes { (b : CodeBody) × PrintsIn b bytes act world.old }
    ensures ok { OnOk result (Makes (entry_of act) world.old world.new) }
    ensures err { OnErr result (SameState world.old world.new) }
{
    match act {
        NextEntry::Op(t) => world.op(t)?,
        NextEntry::Finish(t) => world.finish(t, bytes),
        NextEntry::Local(t) => world.pop(t),
        NextEntry::Receive(t) => world.receive(t),
        NextEntry::Wake(t) => world.wake(t),
        NextEntry::Strand => world.strand(),
    }
    Ok(())
}
