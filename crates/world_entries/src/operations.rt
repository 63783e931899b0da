//! Operations that no cell answers.
ghost use Rattle.std.specs.Prelude.{◌≡◌, ◌++◌, ◌∷◌, [], OnOk, OnErr, IfOk, length};
ghost use Rattle.hs_base.specs.declared.value.Value.TheVariants as value;
ghost use Rattle.hs_rules.specs.declared.entry.Entry.TheVariants as entry;
ghost use Rattle.hs_rules.specs.Primitives.{masking_text};
ghost use Rattle.frame_stack.specs.declared.control.Operation.TheVariants as operation;
ghost use Rattle.frame_stack.specs.declared.control.Control.TheVariants as control;
ghost use Rattle.frame_stack.specs.Parts.{IsOp};
ghost use Rattle.thread_table.specs.Table.{changed, with_control, new_thread, IsAt};
ghost use Rattle.world_entries.specs.Worlds.{IsLive, Makes, SameState, Stands, Prints, Goes, HasRoom};

use crate::world::World;
use frame_stack::{Control, Env, Stack};
use hs_base::{Exn, Mask, NoMemory, Txt, Value};
use rules_code::ActId;
use std::alloc::Global;

/// What `getMaskingState` answers.
fn masking(alloc: Global, mask: Mask) -> Result<Txt, NoMemory>
    ensures { IfOk result (λ t. t ≡ masking_text mask) }
{
    let text = match mask {
        Mask::Unmasked => "Unmasked",
        Mask::Masked => "MaskedInterruptible",
        Mask::Uninterruptible => "MaskedUninterruptible",
    };
    Txt::of(alloc, text)
}

impl World {
    /// The thread prints so many bytes.
    pub fn print(&mut self, t: u32, n: u32)
        requires live { IsLive self.old }
        requires goes { Goes self.old }
        requires room { HasRoom self.old }
        requires stands { Prints self.old t n }
        ensures { Makes (entry.Op t) self.old self.new }
    {
        self.printed += n as u64;
        self.threads.answer(t, Value::Unit);
    }

    /// The thread is answered its own number.
    pub fn my_thread(&mut self, t: u32)
        requires live { IsLive self.old }
        requires goes { Goes self.old }
        requires room { HasRoom self.old }
        requires stands { Stands self.old t operation.MyThreadId }
        ensures { Makes (entry.Op t) self.old self.new }
    {
        self.threads.answer(t, Value::Thread(t));
    }

    /// The thread is answered the name of its masking state. Want of memory is the only error.
    pub fn masking(&mut self, t: u32) -> Result<(), NoMemory>
        requires live { IsLive self.old }
        requires goes { Goes self.old }
        requires room { HasRoom self.old }
        requires stands { Stands self.old t operation.GetMaskingState }
        ensures ok { OnOk result (Makes (entry.Op t) self.old self.new) }
        ensures err { OnErr result (SameState self.old self.new) }
    {
        let mask = self.threads.list[t as usize].stack.mask();
        let text = masking(self.alloc, mask)?;
        self.threads.answer(t, Value::Text(text));
        Ok(())
    }

    /// The thread is answered the clock, in microseconds: the largest integer where the clock is beyond it.
    pub fn clock(&mut self, t: u32)
        requires live { IsLive self.old }
        requires goes { Goes self.old }
        requires room { HasRoom self.old }
        requires stands { Stands self.old t operation.ClockMicros }
        ensures { Makes (entry.Op t) self.old self.new }
    {
        let now = self.clock.min(i64::MAX as u64);
        self.threads.answer(t, Value::Int(now as i64));
    }

    /// The thread is answered the exception of the next timeout; no other has its number.
    pub fn new_timeout(&mut self, t: u32)
        requires live { IsLive self.old }
        requires goes { Goes self.old }
        requires room { HasRoom self.old }
        requires stands { Stands self.old t operation.NewTimeout }
        ensures { Makes (entry.Op t) self.old self.new }
    {
        let number = self.timeouts;
        self.timeouts += 1;
        self.threads.answer(t, Value::Exn(Exn::Timeout(number)));
    }

    /// The thread is answered the next number of what a bracket holds.
    pub fn acquired(&mut self, t: u32)
        requires live { IsLive self.old }
        requires goes { Goes self.old }
        requires room { HasRoom self.old }
        requires stands { Stands self.old t operation.Acquired }
        ensures { Makes (entry.Op t) self.old self.new }
    {
        let number = self.instances;
        self.instances += 1;
        self.threads.answer(t, Value::Inst(number));
    }

    /// What a bracket held is released: the entry alone says so, and the thread is answered the unit.
    pub fn release(&mut self, t: u32, i: u32)
        requires live { IsLive self.old }
        requires goes { Goes self.old }
        requires room { HasRoom self.old }
        requires stands { Stands self.old t (operation.Release i) }
        ensures { Makes (entry.Op t) self.old self.new }
    {
        let _ = i;
        self.threads.answer(t, Value::Unit);
    }

    /// The thread sleeps for so many microseconds, or goes on at once.
    pub fn delay(&mut self, t: u32, micros: i64)
        requires live { IsLive self.old }
        requires goes { Goes self.old }
        requires room { HasRoom self.old }
        requires stands { Stands self.old t (operation.ThreadDelay micros) }
        ensures { Makes (entry.Op t) self.old self.new }
    {
        if micros <= 0 {
            self.threads.answer(t, Value::Unit);
            return;
        }
        self.sleepers
            .add(t, self.clock.saturating_add(micros as u64));
        self.threads.block(t);
    }

    /// The thread throws at itself, at one that has finished, or at another.
    pub fn throw_to(&mut self, t: u32, target: u32, e: Exn)
        requires live { IsLive self.old }
        requires goes { Goes self.old }
        requires room { HasRoom self.old }
        requires stands { Stands self.old t (operation.ThrowTo target e) }
        ensures { Makes (entry.Op t) self.old self.new }
    {
        if target == t {
            self.threads.throw(t, e);
            return;
        }
        if self.threads.list[target as usize].finished {
            self.threads.answer(t, Value::Unit);
            return;
        }
        self.threads.throw_at(t, target, e);
        self.threads.block(t);
    }

    /// The thread forks one that is to do this action.
    pub fn fork(&mut self, t: u32, action: ActId, env: Env) -> Result<(), NoMemory>
        requires live { IsLive self.old }
        requires goes { Goes self.old }
        requires room { HasRoom self.old }
        requires stands { Stands self.old t (operation.Fork action env) }
        ensures ok { OnOk result (Makes (entry.Op t) self.old self.new) }
        ensures err { OnErr result (SameState self.old self.new) }
    {
        let mask = self.threads.list[t as usize].stack.mask();
        let stack = Stack::child(self.alloc, mask, Control::Doing(action, env))?;
        self.spawn(t, stack);
        Ok(())
    }

    /// The same, with the unmasked state in the action's next slot.
    pub fn fork_unmask(&mut self, t: u32, action: ActId, env: Env) -> Result<(), NoMemory>
        requires live { IsLive self.old }
        requires goes { Goes self.old }
        requires room { HasRoom self.old }
        requires stands { Stands self.old t (operation.ForkUnmask action env) }
        ensures ok { OnOk result (Makes (entry.Op t) self.old self.new) }
        ensures err { OnErr result (SameState self.old self.new) }
    {
        let mut env = env;
        env.push(self.alloc, Value::Restore(Mask::Unmasked))?;
        let mask = self.threads.list[t as usize].stack.mask();
        let stack = Stack::child(self.alloc, mask, Control::Doing(action, env))?;
        self.spawn(t, stack);
        Ok(())
    }

    /// The thread is answered a new thread with this stack.
    fn spawn(&mut self, t: u32, stack: Stack)
        requires room { HasRoom self.old }
        requires there { IsAt t (λ th. IsOp th.stack.control) self.old.threads.list.items }
        ensures list { self.new.threads.list.items ≡ changed t (with_control (control.Ret (value.Thread (length self.old.threads.list.items)))) (self.old.threads.list.items ++ new_thread stack ∷ []) }
        ensures flight { self.new.threads.flight ≡ self.old.threads.flight }
        ensures cells { self.new.cells ≡ self.old.cells }
        ensures sleepers { self.new.sleepers ≡ self.old.sleepers }
        ensures counts { (self.new.clock ≡ self.old.clock) × (self.new.instances ≡ self.old.instances) × (self.new.timeouts ≡ self.old.timeouts) × (self.new.printed ≡ self.old.printed) }
    {
        let child = self.threads.spawn(stack);
        self.threads.answer(t, Value::Thread(child));
    }
}
