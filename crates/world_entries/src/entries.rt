//! Entries that are no Op.
ghost use Rattle.std.specs.Prelude.{◌≡◌, ◌<◌, ◌≤◌, ℕ, [], List, None, false, IsTrue, IfOk, OnOk, OnErr, IfErr, Some, slice_get};
ghost use Rattle.hs_base.specs.declared.mask.Mask.TheVariants.{Unmasked};
ghost use Rattle.hs_rules.specs.declared.entry.Entry.{Entry};
ghost use Rattle.hs_rules.specs.declared.entry.Entry.TheVariants as entry;
ghost use Rattle.rules_code.specs.Codes.{body_of};
ghost use Rattle.exn_flight.specs.Asleep.{due_of};
ghost use Rattle.slot_laws.specs.SlotRules.{locals};
ghost use Rattle.local_steps.specs.Machine.{funs_of};
ghost use Rattle.frame_stack.specs.Parts.{term_of};
ghost use Rattle.thread_table.specs.declared.thread.Thread.{Thread};
ghost use Rattle.thread_table.specs.Table.{IsAt};
ghost use Rattle.thread_table.specs.Rooms.{work_room};
ghost use Rattle.thread_table.specs.Kinds.{IsKind};
ghost use Rattle.thread_table.specs.declared.kinds.EntryKind.TheVariants as kind;
ghost use Rattle.world_entries.specs.Worlds.{Live, IsLive, Makes, MakesOf, SameState, Goes, HasRoom, Starts, Ends, IsAtRest, SomeWaitOpen, LeavesFrom, MayLeave, Left};

use crate::world::World;
use frame_stack::{Control, Prim, Slice};
use hs_base::{Exn, NoMemory, Value};
use rules_code::Code;

/// Who threw it. It is over.
fn thrower(thrown: (u32, Exn)) -> u32
    ensures { result ≡ thrown.0 }
{
    thrown.0
}

impl World {
    /// The clock goes on.
    pub fn tick(&mut self, at: u64)
        requires goes { Goes self.old }
        requires later { self.old.clock ≤ at }
        ensures { Makes (entry.Tick at) self.old self.new }
    {
        self.clock = at;
    }

    /// A sleeper that is due wakes, the first or not.
    pub fn wake(&mut self, t: u32)
        requires live { IsLive self.old }
        requires goes { Goes self.old }
        requires room { HasRoom self.old }
        requires due { (due : ℕ) × (due_of t self.old.sleepers.list ≡ Some due) × (due ≤ self.old.clock) }
        ensures { Makes (entry.Wake t) self.old self.new }
    {
        let _ = self.sleepers.remove(t);
        self.threads.answer(t, Value::Unit);
    }

    /// One local rule of a value or an exception in a frame.
    pub fn pop(&mut self, t: u32)
        requires live { IsLive self.old }
        requires goes { Goes self.old }
        requires room { HasRoom self.old }
        requires kind { IsKind kind.Local t self.old.threads }
        ensures { Makes (entry.Local t 1) self.old self.new }
    {
        self.threads.pop(t);
    }

    /// The local rules of a slice that starts where its thread stands.
    pub fn accept(&mut self, slice: Slice) -> Result<(), Slice>
        requires live { IsLive self.old }
        requires goes { Goes self.old }
        requires room { HasRoom self.old }
        requires starts { Starts slice self.old }
        ensures ok { OnOk result (MakesOf slice.of.value (entry.Local slice.tid slice.steps) self.old self.new) }
        ensures err { OnErr result (SameState self.old self.new) }
        ensures back { IfErr result (λ s. s ≡ slice) }
    {
        self.threads.accept(slice)
    }

    /// So many local rules of a thread, as they come. Where there are no so many, or memory runs out, nothing has changed.
    pub fn advance(&mut self, code: &Code, t: u32, k: u32) -> Result<bool, NoMemory>
        requires live { ∥ ((es : List Entry) × Live (body_of code.now) es self.old) ∥₁ }
        requires goes { Goes self.old }
        requires room { HasRoom self.old }
        requires free { (th : Thread) × (slice_get self.old.threads.list.items t ≡ Some th) × (th.finished ≡ false) × (th.blocked ≡ false) }
        requires some { 0 < k }
        ensures moves { IfOk result (λ done. IsTrue done → MakesOf (body_of code.now) (entry.Local t k) self.old self.new) }
        ensures stuck { IfOk result (λ done. (done ≡ false) → SameState self.old self.new × ((th : Thread) → slice_get self.old.threads.list.items t ≡ Some th → locals (funs_of (body_of code.now)) Unmasked k (term_of (body_of code.now) th.stack) ≡ None)) }
        ensures err { OnErr result (SameState self.old self.new) }
    {
        self.threads.advance(self.alloc, code, t, k)
    }

    /// The thread receives the first exception in flight to it.
    pub fn receive(&mut self, t: u32)
        requires live { IsLive self.old }
        requires goes { Goes self.old }
        requires room { HasRoom self.old }
        requires kind { IsKind kind.Receive t self.old.threads }
        ensures { Makes (entry.Receive t) self.old self.new }
    {
        let Some((thrower, e)) = self.threads.deliver(t) else {
            return;
        };
        self.threads.answer(thrower, Value::Unit);
        self.leave(t);
        self.threads.throw(t, e);
    }

    /// The thread waits for nothing any more.
    fn leave(&mut self, t: u32)
        requires there { IsAt t (λ th. MayLeave t th.blocked th.stack.control self.old) self.old.threads.list.items }
        ensures left { (th : Thread) → slice_get self.old.threads.list.items t ≡ Some th → LeavesFrom t th.blocked th.stack.control self.old → Left t self.old self.new }
        ensures list { self.new.threads.list ≡ self.old.threads.list }
        ensures room { work_room self.old.threads ≤ work_room self.new.threads }
        ensures counts { (self.new.clock ≡ self.old.clock) × (self.new.instances ≡ self.old.instances) × (self.new.timeouts ≡ self.old.timeouts) × (self.new.printed ≡ self.old.printed) }
    {
        if !self.threads.list[t as usize].blocked {
            return;
        }
        match self.threads.list[t as usize].stack.control() {
            Control::Op(Prim::TakeMVar(m) | Prim::ReadMVar(m) | Prim::PutMVar(m, _)) => {
                let m = *m;
                self.cells.drop_waiter(m, t);
            }
            Control::Op(Prim::ThrowTo(_, _)) => self.threads.withdraw(t),
            Control::Op(Prim::ThreadDelay(_)) => {
                let _ = self.sleepers.remove(t);
            }
            _ => {}
        }
    }

    /// The thread, whose whole term is a value or an exception, has finished, and wrote so many bytes to error output.
    pub fn finish(&mut self, t: u32, n: u32)
        requires live { IsLive self.old }
        requires goes { Goes self.old }
        requires room { HasRoom self.old }
        requires ends { Ends t n self.old }
        ensures { Makes (entry.Finish t) self.old self.new }
    {
        self.printed += n as u64;
        self.threads.finish(t);
        while let Some(thrown) = self.threads.deliver(t) {
            let thrower = thrower(thrown);
            self.threads.answer(thrower, Value::Unit);
        }
    }

    /// Those who wait at a cell and aren't masked uninterruptibly are stranded.
    pub fn strand(&mut self)
        requires live { IsLive self.old }
        requires goes { Goes self.old }
        requires room { HasRoom self.old }
        requires rest { IsAtRest self.old }
        requires awake { self.old.sleepers.list ≡ [] }
        requires some { SomeWaitOpen self.old }
        ensures { Makes entry.Stranded self.old self.new }
    {
        while let Some((t, cell)) = self.threads.strand() {
            self.cells.drop_waiter(cell, t);
        }
    }
}
